// After a plan was applied: the rows of the rules that stay, and the hub surveyed anew.
ghost use Rattle.std.specs.Prelude.{◌≡◌, ◌<◌, ◌≤◌, length};
ghost use Rattle.grammar.specs.Numbers.{rule_limit, work_bytes};
ghost use Rattle.analysis.specs.Corners.{corners_of};
ghost use Rattle.analysis.specs.Names.{table_with};
ghost use Rattle.renew.specs.Renewed.{BitPut, HubSurveyed, Renewable, RenewedOf};
ghost use Rattle.words.specs.Sheet.{text};

use crate::places::rules_less;
use analysis::corners::Corners;
use analysis::known::Known;
use analysis::rounds::{Marks, Rows};
use analysis::ruled::Ruled;
use analysis::survey::survey_rule;
use plan::ground::Ground;
use reach::rows::{Row, add_if, without};

// What is known of rules, and the hub's place among them.
#[derive(Clone, Copy, Debug, PartialEq, Eq)]
pub struct Renewed {
    pub ground: Ground,
    pub hub: usize,
}

// A row with a bit as it is to be.
fn put_bit(row: [u64; Row::WORDS], j: usize, on: bool) -> [u64; Row::WORDS]
    requires { j < rule_limit }
    ensures { BitPut row j on result }
{
    let rest = without(row, j);
    add_if(rest, j, on)
}

// The rule at a place surveyed anew; the result are the marks then. The table of names is left in the work area.
fn survey_hub(
    g: &Ruled,
    hub: usize,
    reading: Corners,
    marks: Marks,
    rows: &mut Rows,
    work: &mut [u8],
) -> Marks
    requires bounds { (work_bytes ≤ length work.old) × (hub < g.now.rules.now.n) }
    ensures hub_surveyed { HubSurveyed (text g.now.s.now) g.now.s.now.end g.now.rules.now hub (corners_of reading) marks.nullable
        rows.old.calls rows.old.corners marks.stops rows.new.calls rows.new.corners result.stops }
    ensures same_nullable { result.nullable ≡ marks.nullable }
    ensures work_after { work.new ≡ table_with g.now.rules.now.names g.now.rules.now.n work.old }
{
    let names = g.names();
    let places = g.rules.places;
    let nullable = marks.nullable;
    names.put(work);
    let known = Known {
        names,
        table: work,
        nullable,
        reading,
    };
    let v = survey_rule(g.s, &known, places[hub] as usize);
    let c = v.calls;
    let k = v.corners;
    rows.calls[hub] = c;
    rows.corners[hub] = k;
    let stops = put_bit(marks.stops, hub, v.stops);
    Marks { nullable, stops }
}

// What is known of the rules after a plan, by what was known before it: n rules, of which those in a row are gone.
pub fn renew(
    g: &Ruled,
    n: usize,
    before: Renewed,
    gone: [u64; Row::WORDS],
    reading: Corners,
    rows: &mut Rows,
    work: &mut [u8],
) -> Renewed
    requires bounds { work_bytes ≤ length work.old }
    requires renewable { Renewable (text g.now.s.now) g.now.s.now.end g.now.rules.now n before.hub gone (corners_of reading)
        rows.old.calls rows.old.corners before.ground.marks before.ground.kept }
    ensures renewed_of { RenewedOf (text g.now.s.now) g.now.s.now.end g.now.rules.now n before.hub gone (corners_of reading)
        rows.old.calls rows.old.corners before.ground.marks before.ground.kept rows.new.calls rows.new.corners result }
    ensures work_after { work.new ≡ table_with g.now.rules.now.names g.now.rules.now.n work.old }
{
    let rest = rules_less(gone, before, n, rows);
    let ground = rest.ground;
    let marks = survey_hub(g, rest.hub, reading, ground.marks, rows, work);
    let kept = ground.kept;
    Renewed {
        ground: Ground { marks, kept },
        hub: rest.hub,
    }
}
