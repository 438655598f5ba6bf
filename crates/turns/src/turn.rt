// One turn of the substitution: the next alternative is settled, or a step puts others in its place (SPECIFICATION 8.1, 8.10).
ghost use Rattle.std.specs.Prelude.{◌≡◌, ◌+◌, ◌<◌, ◌≤◌, ◌^◌, get_or};
ghost use Rattle.grammar.specs.Tree.{inner_depth};
ghost use Rattle.grammar.specs.Found.{FoundRule};
ghost use Rattle.planned.specs.List.{Laid, Located, Movable, InHand, HasRoom};
ghost use Rattle.splices.specs.Splice.{HandIn};
ghost use Rattle.steps.specs.Decide.{SmallSize};
ghost use Rattle.steps.specs.Step.{splits, Goable, PushedBy};
ghost use Rattle.turns.specs.Turn.{Called, CalledAt, SteppedTo, StuckAt, ActedOn, TurnedTo};
ghost use Rattle.turns.specs.Midway.{Shut, Ready, HasNext, With, within, Held, CanReplace, SizeAfter, listed_of};
ghost use Rattle.words.specs.Sheet.{text};

use crate::state::{State, put_settled, take};
use crate::taken::{Alternative, Taken};
use crate::task::Task;
use planned::hand::{into_hand, push_split};
use planned::list::{Listed, Sizes};
use splices::splice::{Size, push_splice};
use steps::corner::{Corner, Place, find_corner};
use steps::decide::Clause;
use steps::step::{Call, Step, decide};
use words::sheet::Sheet;

// The alternative that was taken comes into the hand.
fn hold(work: &mut [u8], t: Taken) -> Listed
    requires laid { Laid work.old t.st.l × Located work.old (listed_of t.x) × Movable t.st.l (listed_of t.x) }
    ensures { Held work.old work.new t.st (listed_of t.x) result }
{
    match t.x {
        Alternative::Hand(h) => h.x,
        Alternative::Stack(top) => {
            let st = t.st;
            into_hand(work, st.l, top.x)
        }
    }
}

// Whether a list is no larger than another, in none of its three numbers.
pub fn is_within(most: Size, z: Size) -> bool
    ensures { result ≡ within most z }
{
    z.a <= most.a && z.e <= most.e && z.o <= most.o
}

// All of the list, with z in the place of the alternative in hand.
fn size_after(all: Size, h: Listed, z: Size) -> Size
    requires { CanReplace all h z }
    ensures { SizeAfter all h z result }
{
    Size {
        a: all.a - 1 + z.a,
        e: all.e - h.ne + z.e,
        o: all.o - h.no + z.o,
    }
}

// What was decided is put on the stack.
fn push(task: &Task, work: &mut [u8], l: Sizes, h: Listed, k: Call, z: Size) -> Sizes
    requires bounds { (k.at + 4 ≤ task.now.s.now.end) × FoundRule (text task.now.s.now) task.now.s.now.end k.at }
    requires laid { Laid work.old l × HasRoom l z.a z.e z.o
        × HandIn (text task.now.s.now) task.now.s.now.end inner_depth h k.index work.old }
    requires goable { Goable (text task.now.s.now) task.now.s.now.end inner_depth k.at work.old h k.index (splits k.step) z }
    ensures { PushedBy (text task.now.s.now) task.now.s.now.end inner_depth k.at work.old work.new l result h k.index (splits k.step) z }
{
    match k.step {
        Step::Split => push_split(work, l, h, k.index),
        Step::Splice => push_splice(task.s, work, l, h, k.index, k.at, z),
    }
}

// Why there is no plan: a decline by its clause; or refusal 7, a list beyond the limits.
#[derive(Clone, Copy, Debug, PartialEq, Eq)]
pub enum Unplanned {
    Declined(Clause),
    Overfull,
}

impl From<Clause> for Unplanned {
    ghost use Rattle.turns.specs.declared.turn.Unplanned.TheVariants.{Declined};

    ghost from_gives = { λ clause unplanned. unplanned ≡ Declined clause };

    fn from(clause: Clause) -> Unplanned {
        Unplanned::Declined(clause)
    }
}

// What was decided is done, if the list is within the limits then.
fn advance(
    task: &Task,
    work: &mut [u8],
    st: State,
    h: Listed,
    k: Call,
    z: Size,
) -> Result<State, Unplanned>
    requires bounds { SmallSize z }
    requires fact { (st.budget ≡ 0 → ⊥) × (st.steps + st.budget < 2 ^ 64) }
    requires shut { Shut (With (text task.now.s.now) task.now.s.now.end work.old st h) × InHand h × (k.index < h.ne) }
    requires at_bound { (k.at + 4 ≤ task.now.s.now.end) × FoundRule (text task.now.s.now) task.now.s.now.end k.at }
    requires goable { Goable (text task.now.s.now) task.now.s.now.end inner_depth k.at work.old h k.index (splits k.step) z }
    ensures { SteppedTo (text task.now.s.now) task.now.s.now.end work.old work.new st h k.index k.at
        (splits k.step) task.now.limits result }
{
    let budget = st.budget - 1;
    let steps = st.steps + 1;
    let all = st.all;
    let l = st.l;
    let more = size_after(all, h, z);
    if is_within(task.limits.most(), more) {
        let l = push(task, work, l, h, k, z);
        return Ok(State {
            l,
            all: more,
            budget,
            steps,
            ..st
        });
    }
    Err(Unplanned::Overfull)
}

// The step on the alternative in hand is decided, then done.
fn step_in_hand(
    task: &Task,
    work: &mut [u8],
    st: State,
    h: Listed,
    k: Call,
) -> Result<State, Unplanned>
    requires bounds { (st.budget ≡ 0 → ⊥) × (k.index < h.ne) }
    requires shut { Shut (With (text task.now.s.now) task.now.s.now.end work.old st h) × InHand h × Located work.old h }
    requires called { Called (text task.now.s.now) task.now.s.now.end work.old h k.index k.name k.at (splits k.step) }
    ensures { SteppedTo (text task.now.s.now) task.now.s.now.end work.old work.new st h k.index k.at
        (splits k.step) task.now.limits result }
{
    let z = decide(task.s, work, h, k)?;
    advance(task, work, st, h, k, z)
}

// A step on the alternative that was taken; the one beyond the budget is not looked at.
fn step(task: &Task, work: &mut [u8], t: Taken, k: Call) -> Result<State, Unplanned>
    requires bounds { k.index < (listed_of t.x).ne }
    requires shut { Shut (With (text task.now.s.now) task.now.s.now.end work.old t.st (listed_of t.x)) }
    requires called { Called (text task.now.s.now) task.now.s.now.end work.old (listed_of t.x) k.index k.name k.at (splits k.step) }
    ensures { SteppedTo (text task.now.s.now) task.now.s.now.end work.old work.new t.st (listed_of t.x) k.index k.at
        (splits k.step) task.now.limits result }
{
    let st = t.st;
    if st.budget == 0 {
        return Err(Unplanned::Declined(Clause::Budget));
    }
    let h = hold(work, t);
    step_in_hand(task, work, st, h, k)
}

// A step at a member of the cycle that is called.
fn step_at(task: &Task, work: &mut [u8], t: Taken, p: Place, by: Step) -> Result<State, Unplanned>
    requires shut { Shut (With (text task.now.s.now) task.now.s.now.end work.old t.st (listed_of t.x)) }
    requires called_at { CalledAt (text task.now.s.now) task.now.s.now.end work.old task.now.c.names.list.now task.now.places.now
        (listed_of t.x) p (splits by) }
    ensures { SteppedTo (text task.now.s.now) task.now.s.now.end work.old work.new t.st (listed_of t.x) p.index
        (get_or task.now.places.now p.target 0) (splits by) task.now.limits result }
{
    let k = task.call(p, by);
    step(task, work, t, k)
}

// The clause by which a corner that is in the way declines: the budget is asked first.
pub fn stuck(budget: usize) -> Clause
    ensures { StuckAt budget result }
{
    if budget == 0 {
        return Clause::Budget;
    }
    Clause::BlockedCorner
}

// What was taken is settled, or a step is made on it.
fn act(task: &Task, work: &mut [u8], t: Taken) -> Result<State, Unplanned>
    requires shut { Shut (With (text task.now.s.now) task.now.s.now.end work.old t.st (listed_of t.x)) }
    ensures { ActedOn (text task.now.s.now) task.now.s.now.end task.now.c.names.list.now task.now.places.now task.now.c task.now.limits
        work.old work.new t.st (listed_of t.x) result }
{
    let x = t.x.listed();
    let st = t.st;
    match find_corner(task.s, work, x, &task.c) {
        Corner::Settled => Ok(put_settled(work, st, x)),
        Corner::Blocked => Err(Unplanned::Declined(stuck(st.budget))),
        Corner::Optional(p) => step_at(task, work, t, p, Step::Split),
        Corner::Satellite(p) => step_at(task, work, t, p, Step::Splice),
    }
}

// The next alternative is taken, and settled, or a step is made on it.
pub fn take_turn(task: &Task, work: &mut [u8], st: State) -> Result<State, Unplanned>
    requires bounds { HasNext st }
    requires shut { Shut (Ready (text task.now.s.now) task.now.s.now.end work.old st 0 0 0) }
    ensures { TurnedTo (text task.now.s.now) task.now.s.now.end task.now.c.names.list.now task.now.places.now task.now.c task.now.limits
        work.old work.new st result }
{
    let t = take(task.s, work, st);
    act(task, work, t)
}
