// A hub's list that is beyond its limits before a step (SPECIFICATION 4.7): it is looked through in the sheet and never stored,
// since a step that goes leaves it beyond them.
ghost use Rattle.std.specs.Prelude.{◌≡◌, ◌+◌, ◌≤◌, length, get_or};
ghost use Rattle.grammar.specs.Numbers.{work_bytes};
ghost use Rattle.grammar.specs.Tree.{inner_depth};
ghost use Rattle.grammar.specs.Found.{FoundAlternative};
ghost use Rattle.planned.specs.List.{Located, InHand, ListedIn};
ghost use Rattle.steps.specs.Step.{splits};
ghost use Rattle.substitution.specs.Over.{Reached, StepLooked, HandLooked, LookedAt, Unstored};
ghost use Rattle.words.specs.Sheet.{text};

use crate::turning::Done;
use ends::ends::alternative_end;
use planned::list::Listed;
use splices::bring::hub_in_hand;
use steps::corner::{Corner, Place, find_corner};
use steps::decide::Clause;
use steps::step::{Step, decide};
use turns::task::Task;
use turns::turn::{Unplanned, stuck};
use words::numbers::Block;
use words::sheet::Sheet;
use words::words::word;

// A member is met in the alternative in hand: the step is declined, or goes, and leaves the list beyond the limits.
fn look_step(task: &Task, work: &mut [u8], h: Listed, p: Place, step: Step) -> Unplanned
    requires bounds { Located work.old h × InHand h × Reached task.now.c h.ne p (splits step) }
    requires listed_in { ListedIn (text task.now.s.now) task.now.s.now.end inner_depth work.old h }
    ensures { StepLooked (text task.now.s.now) task.now.s.now.end task.now.c.names.list.now task.now.places.now task.now.c task.now.budget
        work.old work.new h p (splits step) result }
{
    if task.budget == 0 {
        return Unplanned::Declined(Clause::Budget);
    }
    let k = task.call(p, step);
    match decide(task.s, work, h, k) {
        Ok(_) => Unplanned::Overfull,
        Err(clause) => Unplanned::Declined(clause),
    }
}

// The alternative in hand.
fn look_hand(task: &Task, work: &mut [u8], h: Listed) -> Result<(), Unplanned>
    requires bounds { Located work.old h × InHand h }
    requires listed_in { ListedIn (text task.now.s.now) task.now.s.now.end inner_depth work.old h }
    ensures { HandLooked (text task.now.s.now) task.now.s.now.end task.now.c.names.list.now task.now.places.now task.now.c task.now.budget
        work.old work.new h result }
{
    match find_corner(task.s, work, h, &task.c) {
        Corner::Settled => Ok(()),
        Corner::Blocked => Err(Unplanned::Declined(stuck(task.budget))),
        Corner::Optional(p) => Err(look_step(task, work, h, p, Step::Split)),
        Corner::Satellite(p) => Err(look_step(task, work, h, p, Step::Splice)),
    }
}

// The hub's alternative at `at`.
fn look_at(task: &Task, work: &mut [u8], at: usize) -> Result<(), Unplanned>
    requires bounds { work_bytes ≤ length work.old }
    requires found_alternative { FoundAlternative (text task.now.s.now) task.now.s.now.end inner_depth at }
    ensures { LookedAt (text task.now.s.now) task.now.s.now.end task.now.c.names.list.now task.now.places.now task.now.c task.now.budget at
        work.old work.new result }
{
    let h = hub_in_hand(task.s, Block::DEPTH, at, work);
    look_hand(task, work, h)
}

// The rule at `at` is the hub: its first alternative that is in need of work decides.
fn look_all(task: &Task, work: &mut [u8], at: usize) -> Result<Option<Done>, Unplanned>
    requires bounds { work_bytes ≤ length work.old }
    requires at_value { (at ≡ get_or task.now.places.now task.now.c.hub 0) × (at + 4 ≤ task.now.s.now.end) }
    ensures { Unstored (text task.now.s.now) task.now.s.now.end task.now.c.names.list.now task.now.places.now task.now.c task.now.budget
        work.new result }
{
    let s = task.s;
    let n = word(s.bytes, at + 3);
    let mut p = at + 4;
    for _ in 0..n {
        look_at(task, work, p)?;
        p = alternative_end(s, Block::DEPTH, p);
    }
    Ok(None)
}

// The hub of a cycle. The task may have any limits, such as the standard ones, since none of them is asked.
pub fn unstored(task: &Task, work: &mut [u8]) -> Result<Option<Done>, Unplanned>
    requires bounds { work_bytes ≤ length work.old }
    ensures { Unstored (text task.now.s.now) task.now.s.now.end task.now.c.names.list.now task.now.places.now task.now.c task.now.budget
        work.new result }
{
    look_all(task, work, task.hub())
}
