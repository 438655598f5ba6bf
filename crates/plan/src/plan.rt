// The decision for one cycle: its hub, the tests of its rules, the substitution, the tests of what that made, and the rules that
// may go (SPECIFICATION 7 to 10).
ghost use Rattle.std.specs.Prelude.{◌+◌, ◌<◌, ◌≤◌, length};
ghost use Rattle.grammar.specs.Numbers.{work_bytes};
ghost use Rattle.grammar.specs.Tree.{inner_depth};
ghost use Rattle.grammar.specs.Found.{FoundRule};
ghost use Rattle.analysis.specs.Corners.{corners_of};
ghost use Rattle.planned.specs.List.{Laid, AllIn};
ghost use Rattle.plan.specs.Known.{CycleKnown, HubKnown};
ghost use Rattle.plan.specs.Decision.{TakesArguments, PlanOf, PlanWith, PlanMade, PlanLast};
ghost use Rattle.words.specs.Sheet.{text};

use crate::facts::Facts;
use hub::budget::budget;
use hub::hub::choose_hub;
use hub::inlinable::all_inlinable;
use hub::removal::removable;
use planned::list::Sizes;
use reach::rows::Row;
use rewritable::judge::judge;
use steps::cycle::Cycle;
use steps::decide::Clause;
use substitution::turning::{Done, substitute};
use turns::limits::Limits;
use turns::turn::Unplanned;
use words::sheet::Sheet;
use words::words::word;

// What takes a cycle's place: the hub's place among the rules, its new alternatives in the work area, the steps that these took, and
// the row of the rules that may go.
#[derive(Clone, Copy, Debug, PartialEq, Eq)]
pub struct Plan {
    pub hub: usize,
    pub l: Sizes,
    pub steps: usize,
    pub removable: [u64; Row::WORDS],
}

// Behind the substitution: a step was made, what it left can be rewritten; then the rules that may go.
// Stays: members and hub are two parameters here and in what is called (`judge` of rewritable, `removable` of hub). The cycle that has
// both (steps) lends the names of the rules besides, and neither of those crates knows of steps.
fn finish(
    f: &Facts,
    members: [u64; Row::WORDS],
    hub: usize,
    work: &[u8],
    done: Done,
) -> Result<Plan, Unplanned>
    requires inside { hub < f.now.g.now.rules.now.n }
    requires laid { Laid work.now done.l × AllIn (text f.now.g.now.s.now) f.now.g.now.s.now.end inner_depth work.now done.l }
    ensures { PlanLast (text f.now.g.now.s.now) f.now.g.now.s.now.end f.now.g.now.rules.now (corners_of f.now.reading) f.now.rows.now.calls
        f.now.ground.marks f.now.ground.kept members hub done work.now result }
{
    if done.steps == 0 {
        return Err(Unplanned::Declined(Clause::NoSteps));
    }
    let n = f.g.rules.n as usize;
    let l = done.l;
    let ground = f.ground;
    let nullable = ground.marks.nullable;
    let reading = f.reading;
    let Some(planned) = judge(f.g, nullable, reading, members, hub, work, l) else {
        return Err(Unplanned::Declined(Clause::NotDirectlyRewritable));
    };
    let kept = ground.kept;
    let row = removable(&f.rows.calls, n, members, kept, planned, hub);
    Ok(Plan {
        hub,
        l,
        steps: done.steps,
        removable: row,
    })
}

// The substitution within its budget, and what is behind it.
fn make(
    f: &Facts,
    members: [u64; Row::WORDS],
    hub: usize,
    limits: Limits,
    work: &mut [u8],
) -> Result<Plan, Unplanned>
    requires bounds { work_bytes ≤ length work.old }
    requires hub_known { HubKnown (text f.now.g.now.s.now) f.now.g.now.s.now.end f.now.g.now.rules.now (corners_of f.now.reading)
        f.now.rows.now.calls f.now.ground.marks f.now.ground.kept members hub }
    ensures { PlanMade (text f.now.g.now.s.now) f.now.g.now.s.now.end f.now.g.now.rules.now (corners_of f.now.reading) f.now.rows.now.calls
        f.now.ground.marks f.now.ground.kept members limits hub work.new result }
{
    let g = f.g;
    let most = budget(g, members, limits.floor);
    let c = Cycle {
        names: g.names(),
        members,
        hub,
    };
    let places = g.rules.places;
    let Some(done) = substitute(g.s, &places, &c, limits, most, work)? else {
        return Err(Unplanned::Declined(Clause::NoSteps));
    };
    finish(f, members, hub, work, done)
}

// Whether the rule at `at` takes arguments: its flags are odd.
#[tactic(auto, using(crate::proofs::Laws::With::takes_word))]
fn takes_arguments(s: &Sheet, at: usize) -> bool
    requires bounds { at + 4 ≤ s.now.end }
    requires found_rule { FoundRule (text s.now) s.now.end at }
    ensures { TakesArguments (text s.now) s.now.end at result }
{
    word(s.bytes, at + 2) % 2 != 0
}

// From the hub on: the tests of the rules, then the substitution.
fn with_hub(
    f: &Facts,
    members: [u64; Row::WORDS],
    hub: usize,
    limits: Limits,
    work: &mut [u8],
) -> Result<Plan, Unplanned>
    requires bounds { work_bytes ≤ length work.old }
    requires inside { hub < f.now.g.now.rules.now.n }
    requires cycle_known { CycleKnown (text f.now.g.now.s.now) f.now.g.now.s.now.end f.now.g.now.rules.now (corners_of f.now.reading)
        f.now.rows.now.calls f.now.ground.marks f.now.ground.kept members }
    ensures { PlanWith (text f.now.g.now.s.now) f.now.g.now.s.now.end f.now.g.now.rules.now (corners_of f.now.reading) f.now.rows.now.calls
        f.now.ground.marks f.now.ground.kept members limits hub work.new result }
{
    let places = f.g.rules.places;
    if takes_arguments(f.g.s, places[hub] as usize) {
        return Err(Unplanned::Declined(Clause::HubWithArguments));
    }
    let stops = f.ground.marks.stops;
    if !all_inlinable(stops, members, hub) {
        return Err(Unplanned::Declined(Clause::SatelliteNotInlinable));
    }
    make(f, members, hub, limits, work)
}

// The whole decision for a cycle, whose members are the row.
pub fn plan_cycle(
    f: &Facts,
    members: [u64; Row::WORDS],
    limits: Limits,
    work: &mut [u8],
) -> Result<Plan, Unplanned>
    requires bounds { work_bytes ≤ length work.old }
    requires cycle_known { CycleKnown (text f.now.g.now.s.now) f.now.g.now.s.now.end f.now.g.now.rules.now (corners_of f.now.reading)
        f.now.rows.now.calls f.now.ground.marks f.now.ground.kept members }
    ensures { PlanOf (text f.now.g.now.s.now) f.now.g.now.s.now.end f.now.g.now.rules.now (corners_of f.now.reading) f.now.rows.now.calls
        f.now.ground.marks f.now.ground.kept members limits work.new result }
{
    let ground = f.ground;
    let nullable = ground.marks.nullable;
    let kept = ground.kept;
    let Some(hub) = choose_hub(f.g, nullable, &f.rows.calls, members, kept) else {
        return Err(Unplanned::Declined(Clause::NoHub));
    };
    with_hub(f, members, hub, limits, work)
}
