// One turn of the loop over plans (SPECIFICATION 5.2): the first cycle with a plan is joined, and what is known is brought up to date.
ghost use Rattle.std.specs.Prelude.{◌≡◌, ◌+◌, ◌≤◌, ◌<◌, length};
ghost use Rattle.grammar.specs.Numbers.{rule_limit, most_words, work_bytes, word_end};
ghost use Rattle.grammar.specs.Words.{words};
ghost use Rattle.words.specs.Room.{Room};
ghost use Rattle.analysis.specs.Corners.{corners_of};
ghost use Rattle.renew.specs.Renewed.{Renewable};
ghost use Rattle.turns.specs.Midway.{limits_of};
ghost use Rattle.apply.specs.Applied.{Buffers};
ghost use Rattle.run.specs.Midst.{Going};
ghost use Rattle.run.specs.Turn.{Small, UpToDate, Advancing, AdvancedOf, TurnedOf};

use crate::state::State;
use analysis::corners::Corners;
use analysis::rounds::Rows;
use analysis::ruled::Ruled;
use apply::apply::{Applied, apply};
use plan::facts::Facts;
use plan::plan::Plan;
use plan::search::find_plan;
use renew::renew::{Renewed, renew};
use turns::limits::Limits;
use words::numbers::Refusal;
use words::sheet::Sheet;

// What is known after a plan that was applied: the rows of the rules that stay, the hub surveyed anew, one plan more.
fn bring_up(
    res: &[u8],
    work: &mut [u8],
    rows: &mut Rows,
    reading: Corners,
    st: State,
    a: Applied,
    p: Plan,
) -> State
    requires bounds { Room res.now a.end × (work_bytes ≤ length work.old) × (st.at.rules.n ≤ rule_limit) }
    requires plans_bound { (st.plans + 1 < word_end) × (st.steps + p.steps < word_end) }
    requires renewable { Renewable (words res.now) a.end a.rules st.at.rules.n p.hub p.removable (corners_of reading) rows.old.calls
        rows.old.corners st.ground.marks st.ground.kept }
    ensures up_to_date { UpToDate (words res.now) (corners_of reading) rows.old.calls rows.old.corners st a p
        rows.new.calls rows.new.corners result }
{
    let at = st.at;
    let old = at.rules;
    let n = old.n as usize;
    let plans = st.plans + 1;
    let steps = st.steps + p.steps as u32;
    let ground = st.ground;
    let gone = p.removable;
    let s = Sheet {
        bytes: res,
        end: a.end,
    };
    let g = Ruled {
        s: &s,
        rules: &a.rules,
    };
    let before = Renewed { ground, hub: p.hub };
    let r = renew(&g, n, before, gone, reading, rows, work);
    State {
        at: a,
        ground: r.ground,
        plans,
        steps,
    }
}

// The plan is applied, unless it is refused, and what is known is brought up to date.
fn advance(
    res: &mut [u8],
    trail: &mut [u8],
    work: &mut [u8],
    rows: &mut Rows,
    limits: Limits,
    reading: Corners,
    room: usize,
    st: State,
    p: Plan,
) -> Result<State, Refusal>
    requires buffers { Buffers res.old trail.old work.old × Small limits × (room ≡ most_words) }
    requires advancing { Advancing (limits_of limits) (corners_of reading) res.old trail.old work.old rows.old.calls rows.old.corners st p }
    ensures advanced_of { AdvancedOf (limits_of limits) (corners_of reading) res.old trail.old work.old rows.old.calls
        rows.old.corners st p res.new trail.new rows.new.calls rows.new.corners result }
    ensures lengths_stay { (length res.new ≡ length res.old)
        × (length trail.new ≡ length trail.old) × (length work.new ≡ length work.old) }
{
    let at = st.at;
    let a = apply(res, trail, work, at, room, p)?;
    Ok(bring_up(res, work, rows, reading, st, a, p))
}

// The first cycle with a plan, and the plan applied; none where no cycle has one.
// Stays: limits, reading and room are three parameters, as docs/DECISIONS.md has them ("Room, limits and entries so far are arguments").
// What is known of limits (`Small`) is asked by `find_plan` alone, and what is known of the room by `apply` alone: one value of the three
// would ask both of each.
pub fn take_turn(
    res: &mut [u8],
    trail: &mut [u8],
    work: &mut [u8],
    rows: &mut Rows,
    limits: Limits,
    reading: Corners,
    room: usize,
    st: State,
) -> Result<Option<State>, Refusal>
    requires buffers { Buffers res.old trail.old work.old × Small limits × (room ≡ most_words) }
    requires going { Going (limits_of limits) (corners_of reading) res.old trail.old rows.old.calls rows.old.corners st }
    ensures turned_of { TurnedOf (limits_of limits) (corners_of reading) res.old trail.old rows.old.calls
        rows.old.corners st res.new trail.new rows.new.calls rows.new.corners result }
    ensures lengths_stay { (length res.new ≡ length res.old)
        × (length trail.new ≡ length trail.old) × (length work.new ≡ length work.old) }
{
    let at = st.at;
    let ground = st.ground;
    let s = Sheet {
        bytes: res,
        end: at.end,
    };
    let g = Ruled {
        s: &s,
        rules: &at.rules,
    };
    let facts = Facts {
        g: &g,
        reading,
        rows,
        ground,
    };
    let found = find_plan(&facts, limits, work);
    let Some(f) = found.answer? else {
        return Ok(None);
    };
    let p = f.plan;
    let next = advance(res, trail, work, rows, limits, reading, room, st, p)?;
    Ok(Some(next))
}
