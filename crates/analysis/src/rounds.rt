// What is found out about all rules: rounds of surveys, each by the nullable rules that the one before it found, until they
// stand (SPECIFICATION 6.4).
ghost use Rattle.std.specs.Prelude.{◌≡◌, ◌<◌, ◌≤◌, length};
ghost use Rattle.grammar.specs.Numbers.{rule_limit, work_bytes};
ghost use Rattle.analysis.specs.Corners.{corners_of};
ghost use Rattle.analysis.specs.Names.{Tabled, table_with};
ghost use Rattle.analysis.specs.Survey.{view_of};
ghost use Rattle.analysis.specs.Rounds.{no_rows, Marked, Recording, RoundFound};
ghost use Rattle.analysis.specs.Facts.{FactsFound};
ghost use Rattle.reach.specs.Rows.{Behind};
ghost use Rattle.words.specs.Sheet.{text};

use crate::corners::Corners;
use crate::known::Known;
use crate::ruled::Ruled;
use crate::survey::survey_rule;
use reach::rows::{Row, add_if};

// Rules that are nullable, and rules that cannot be inlined as satellites.
#[derive(Clone, Copy, Debug, Default, PartialEq, Eq)]
pub struct Marks {
    pub nullable: [u64; Row::WORDS],
    pub stops: [u64; Row::WORDS],
}

// A row of calls and one of left corners for each rule. How many there are follows from the arrays' type where they are read or written;
// the ghost fields say it where these are only lent on.
#[derive(Clone, Copy, Debug, PartialEq, Eq)]
pub struct Rows {
    pub calls: [[u64; Row::WORDS]; Row::RULES],
    pub corners: [[u64; Row::WORDS]; Row::RULES],
    ghost calls_long: { length calls ≡ rule_limit },
    ghost corners_long: { length corners ≡ rule_limit },
}

impl Rows {
    // No rule calls another yet.
    pub fn empty() -> Rows
        ensures { (result.calls ≡ no_rows) × (result.corners ≡ no_rows) }
    {
        Rows {
            calls: [[0; Row::WORDS]; Row::RULES],
            corners: [[0; Row::WORDS]; Row::RULES],
        }
    }
}

// What a round finds beside the rows, and how many rules are nullable by it.
#[derive(Clone, Copy, Debug, Default, PartialEq, Eq)]
struct Round {
    marks: Marks,
    count: u32,
}

// One rule more.
fn mark(r: Round, i: usize, nullable: bool, stops: bool) -> Round
    requires { (i < rule_limit) × (r.count ≤ rule_limit) }
    ensures { Marked r i nullable stops result }
{
    let marks = Marks {
        nullable: add_if(r.marks.nullable, i, nullable),
        stops: add_if(r.marks.stops, i, stops),
    };
    Round {
        marks,
        count: r.count + u32::from(nullable),
    }
}

// Every rule surveyed.
fn survey_all(g: &Ruled, v: &Known, rows: &mut Rows) -> Round
    requires bounds { v.now.names.n ≡ g.now.rules.now.n }
    ensures { Recording (view_of v.now) (text g.now.s.now) g.now.s.now.end g.now.rules.now.places
        rows.old.calls rows.old.corners g.now.rules.now.n rows.new.calls rows.new.corners result }
{
    let places = g.rules.places;
    let mut r = Round::default();
    for i in 0..v.names.n {
        let t = survey_rule(g.s, v, places[i] as usize);
        let c = t.calls;
        let k = t.corners;
        rows.calls[i] = c;
        rows.corners[i] = k;
        let m = mark(r, i, t.nullable, t.stops);
        r = m;
    }
    r
}

// A round by the rules that are nullable as far as is known, and a table of the names.
fn round_by(
    g: &Ruled,
    reading: Corners,
    table: &[u8],
    nullable: [u64; Row::WORDS],
    rows: &mut Rows,
) -> Round
    requires bounds { Tabled g.now.rules.now.names g.now.rules.now.n table.now }
    ensures { RoundFound (text g.now.s.now) g.now.s.now.end g.now.rules.now (corners_of reading) nullable
        rows.old.calls rows.old.corners rows.new.calls rows.new.corners result }
{
    let v = Known {
        names: g.names(),
        table,
        nullable,
        reading,
    };
    survey_all(g, &v, rows)
}

// Rounds until the nullable rules stand, by a table of the names.
fn rounds(g: &Ruled, reading: Corners, table: &[u8], rows: &mut Rows) -> Marks
    requires bounds { Tabled g.now.rules.now.names g.now.rules.now.n table.now }
    ensures facts_found { FactsFound (text g.now.s.now) g.now.s.now.end g.now.rules.now (corners_of reading)
        rows.new.calls rows.new.corners result }
    ensures behind { Behind g.now.rules.now.n rows.old.calls rows.new.calls
        × Behind g.now.rules.now.n rows.old.corners rows.new.corners }
{
    let mut nullable = [0u64; Row::WORDS];
    let mut count: u32 = 0;
    let mut r = round_by(g, reading, table, nullable, rows);
    for _ in 0..g.rules.n {
        if r.count == count {
            break;
        }
        let marks = r.marks;
        let found = marks.nullable;
        nullable = found;
        count = r.count;
        let next = round_by(g, reading, table, nullable, rows);
        r = next;
    }
    let marks = r.marks;
    let stops = marks.stops;
    Marks { nullable, stops }
}

// The rows of all rules. As many rounds as there are rules find all that is nullable; if one finds no more, it is the last.
// The table of names is left in the work area.
pub fn find_rows(g: &Ruled, reading: Corners, rows: &mut Rows, work: &mut [u8]) -> Marks
    requires bounds { work_bytes ≤ length work.old }
    ensures facts_found { FactsFound (text g.now.s.now) g.now.s.now.end g.now.rules.now (corners_of reading)
        rows.new.calls rows.new.corners result }
    ensures behind { Behind g.now.rules.now.n rows.old.calls rows.new.calls
        × Behind g.now.rules.now.n rows.old.corners rows.new.corners }
    ensures work_after { work.new ≡ table_with g.now.rules.now.names g.now.rules.now.n work.old }
{
    g.names().put(work);
    rounds(g, reading, work, rows)
}
