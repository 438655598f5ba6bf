// The substitution in a hub's alternatives (SPECIFICATION 8): a loop that counts steps against the budget.
ghost use Rattle.std.specs.Prelude.{◌+◌, ◌≤◌, length, get_or};
ghost use Rattle.grammar.specs.Numbers.{most_words, work_bytes};
ghost use Rattle.turns.specs.Ground.{Ground};
ghost use Rattle.turns.specs.Midway.{Shut, Ready, NextIs, Begun};
ghost use Rattle.substitution.specs.Run.{Going, MadeOf};
ghost use Rattle.words.specs.Sheet.{text};

use crate::over::unstored;
use crate::size::hub_size;
use planned::list::{Sizes, is_drained};
use splices::splice::Size;
use steps::cycle::Cycle;
use turns::limits::Limits;
use turns::state::State;
use turns::task::Task;
use turns::turn::{Unplanned, is_within, take_turn};
use words::sheet::Sheet;
use words::words::word;

// The list that is left, and the steps that it took.
#[derive(Clone, Copy, Debug, PartialEq, Eq)]
pub struct Done {
    pub l: Sizes,
    pub steps: usize,
}

// Whether an alternative is still to be looked at.
fn has_next(st: State) -> bool
    ensures { NextIs st result }
{
    st.left != 0 || !is_drained(st.l)
}

// Before the first turn: the alternatives of the hub, which stands at `at`, are all in the sheet.
fn begin(task: &Task, at: usize, all: Size) -> State
    requires { at + 4 ≤ task.now.s.now.end }
    ensures { Begun (get_or (text task.now.s.now) (at + 3) 0) (at + 4) all task.now.budget result }
{
    State {
        l: Sizes::empty(),
        left: word(task.s.bytes, at + 3),
        at: at + 4,
        all,
        budget: task.budget,
        steps: 0,
    }
}

// The list is within the limits from the first, and stored: turns until nothing is left to look at, or one ends it.
fn stored(task: &Task, first: State, work: &mut [u8]) -> Result<Option<Done>, Unplanned>
    requires shut { Shut (Ready (text task.now.s.now) task.now.s.now.end work.old first 0 0 0) }
    requires going { Shut (Going (text task.now.s.now) task.now.s.now.end task.now.c.names.list.now task.now.places.now task.now.c
        task.now.limits task.now.budget work.old first) }
    ensures { MadeOf (text task.now.s.now) task.now.s.now.end task.now.c.names.list.now task.now.places.now task.now.c task.now.limits
        task.now.budget work.new result }
{
    let mut st = first;
    // Stays: how many turns there are is known only at the end, when nothing is left to look at.
    while has_next(st) {
        st = take_turn(task, work, st)?;
    }
    let l = st.l;
    let steps = st.steps;
    Ok(Some(Done { l, steps }))
}

// The hub's own list is stored if it is within the limits.
fn run(task: &Task, work: &mut [u8]) -> Result<Option<Done>, Unplanned>
    requires bounds { work_bytes ≤ length work.old }
    ensures { MadeOf (text task.now.s.now) task.now.s.now.end task.now.c.names.list.now task.now.places.now task.now.c task.now.limits
        task.now.budget work.new result }
{
    let at = task.hub();
    let z = hub_size(task.s, at);
    if is_within(task.limits.most(), z) {
        let st = begin(task, at, z);
        return stored(task, st, work);
    }
    unstored(task, work)
}

// The substitution in the alternatives of the hub, with so many steps allowed: a list without work left; or none, since nothing was in
// need of work and its own list is beyond the limits.
pub fn substitute(
    s: &Sheet,
    places: &[u32],
    c: &Cycle,
    limits: Limits,
    budget: usize,
    work: &mut [u8],
) -> Result<Option<Done>, Unplanned>
    requires bounds { (s.now.end ≤ most_words) × (work_bytes ≤ length work.old) }
    requires ground { Ground (text s.now) s.now.end c.now.names.list.now places.now c.now }
    ensures { MadeOf (text s.now) s.now.end c.now.names.list.now places.now c.now limits budget work.new result }
{
    let task = Task {
        s,
        places,
        c: *c,
        limits,
        budget,
    };
    run(&task, work)
}
