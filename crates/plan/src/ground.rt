// What the decisions rest on: what is found out about the rules of a sheet.
ghost use Rattle.std.specs.Prelude.{◌≡◌, ◌≤◌, length};
ghost use Rattle.grammar.specs.Numbers.{work_bytes};
ghost use Rattle.grammar.specs.Words.{words};
ghost use Rattle.analysis.specs.Corners.{corners_of};
ghost use Rattle.analysis.specs.Names.{table_with};
ghost use Rattle.analysis.specs.Facts.{FactsFound};
ghost use Rattle.plan.specs.Ground.{KeptOf};
ghost use Rattle.words.specs.Sheet.{text};

use analysis::corners::Corners;
use analysis::rounds::{Marks, Rows, find_rows};
use analysis::ruled::Ruled;
use hub::preserved::Preserved;
use reach::rows::Row;

// The marks of the rules, and the row of the preserved ones.
#[derive(Clone, Copy, Debug, PartialEq, Eq)]
pub struct Ground {
    pub marks: Marks,
    pub kept: [u64; Row::WORDS],
}

// What is found out about rules and preserved ids; calls and left corners are put into the rows, and the places of the names into
// the work area.
pub fn find_out(
    g: &Ruled,
    preserved: &Preserved,
    reading: Corners,
    rows: &mut Rows,
    work: &mut [u8],
) -> Ground
    requires bounds { work_bytes ≤ length work.old }
    ensures facts_found { FactsFound (text g.now.s.now) g.now.s.now.end g.now.rules.now (corners_of reading)
        rows.new.calls rows.new.corners result.marks }
    ensures kept_of { KeptOf (words preserved.now.ids.now) g.now.rules.now result.kept }
    ensures work_after { work.new ≡ table_with g.now.rules.now.names g.now.rules.now.n work.old }
{
    let marks = find_rows(g, reading, rows, work);
    let kept = preserved.rows(g.rules);
    Ground { marks, kept }
}
