// The first cycle with a plan.
ghost use Rattle.std.specs.Prelude.{◌≡◌, ◌≤◌, length};
ghost use Rattle.grammar.specs.Numbers.{most_words, work_bytes};
ghost use Rattle.grammar.specs.Words.{words};
ghost use Rattle.analysis.specs.Corners.{corners_of};
ghost use Rattle.plans.specs.First.{FirstOf, choice_in, search_cycle};
ghost use Rattle.words.specs.Sheet.{text};

use analysis::corners::Corners;
use analysis::rounds::Rows;
use analysis::ruled::Ruled;
use hub::preserved::Preserved;
use plan::facts::Facts;
use plan::ground::find_out;
use plan::plan::Plan;
use plan::search::{Found, FoundPlan, find_plan};
use reach::rows::Row;
use turns::limits::Limits;
use turns::turn::Unplanned;
use words::numbers::Refusal;

// The first plan for rules that stand in a sheet, and preserved ids.
// Stays: it opens as `decide_nth` does. A function for that would hand back a `Facts` that borrows the rows, and state in its clauses
// what `find_out` states: it would be longer than the two statements that it spares each of its callers.
pub fn decide_first(g: &Ruled, preserved: &Preserved, reading: Corners, work: &mut [u8]) -> Found
    requires bounds { (g.now.s.now.end ≤ most_words) × (work_bytes ≤ length work.old) }
    ensures { FirstOf (text g.now.s.now) g.now.s.now.end (words preserved.now.ids.now) g.now.rules.now
        (corners_of reading) work.new result }
{
    let mut rows = Rows::empty();
    let ground = find_out(g, preserved, reading, &mut rows, work);
    let limits = Limits::standard();
    let facts = Facts {
        g,
        reading,
        rows: &rows,
        ground,
    };
    find_plan(&facts, limits, work)
}

// What a search comes to, as a choice: the decision for the last cycle that was tried; none where each was declined.
pub fn choice_in(answer: Result<Option<FoundPlan>, Refusal>) -> Option<Result<Plan, Unplanned>>
    ensures { result ≡ choice_in answer }
{
    match answer {
        Ok(Some(f)) => Some(Ok(f.plan)),
        Ok(None) => None,
        Err(_) => Some(Err(Unplanned::Overfull)),
    }
}

// The row of the members of the cycle that has a plan.
pub fn members_in(answer: Result<Option<FoundPlan>, Refusal>) -> [u64; Row::WORDS]
    ensures { result ≡ search_cycle answer }
{
    match answer {
        Ok(Some(f)) => f.members,
        _ => [0; Row::WORDS],
    }
}
