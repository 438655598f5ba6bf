// The decision for one of the cycles.
ghost use Rattle.std.specs.Prelude.{◌≡◌, ◌≤◌, length};
ghost use Rattle.grammar.specs.Numbers.{most_words, work_bytes};
ghost use Rattle.grammar.specs.Words.{words};
ghost use Rattle.analysis.specs.Corners.{corners_of};
ghost use Rattle.plans.specs.Nth.{NthOf};
ghost use Rattle.words.specs.Sheet.{text};

use analysis::corners::Corners;
use analysis::rounds::Rows;
use analysis::ruled::Ruled;
use hub::preserved::Preserved;
use plan::facts::Facts;
use plan::ground::find_out;
use plan::plan::{Plan, plan_cycle};
use reach::cycles::list_cycles;
use reach::rows::Row;
use turns::limits::Limits;
use turns::turn::Unplanned;

// How many cycles there are, and the decision; none where there is no such cycle.
#[derive(Clone, Copy, Debug, PartialEq, Eq)]
pub struct Nth {
    pub cycles: u32,
    pub choice: Option<Result<Plan, Unplanned>>,
}

// The decision for the nth cycle of rules that stand in a sheet, and preserved ids.
pub fn decide_nth(
    g: &Ruled,
    preserved: &Preserved,
    reading: Corners,
    nth: u32,
    work: &mut [u8],
) -> Nth
    requires bounds { (g.now.s.now.end ≤ most_words) × (work_bytes ≤ length work.old) }
    ensures { NthOf (text g.now.s.now) g.now.s.now.end (words preserved.now.ids.now) g.now.rules.now
        (corners_of reading) nth work.new result }
{
    let mut rows = Rows::empty();
    let mut cycles = [[0u64; Row::WORDS]; Row::RULES];
    let ground = find_out(g, preserved, reading, &mut rows, work);
    let ids = g.rules.ids;
    let n = list_cycles(rows.corners, ids, g.rules.n as usize, &mut cycles);
    if n <= nth {
        return Nth {
            cycles: n,
            choice: None,
        };
    }
    let members = cycles[nth as usize];
    let limits = Limits::standard();
    let facts = Facts {
        g,
        reading,
        rows: &rows,
        ground,
    };
    let decision = plan_cycle(&facts, members, limits, work);
    Nth {
        cycles: n,
        choice: Some(decision),
    }
}
