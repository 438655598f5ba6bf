// The search for the first cycle with a plan (SPECIFICATION 5): the cycles in their order, until one has a plan or passes a limit.
// No cycle is looked for before those in front of it are declined.
ghost use Rattle.std.specs.Prelude.{◌≡◌, ◌≤◌, length};
ghost use Rattle.grammar.specs.Numbers.{rule_limit, work_bytes};
ghost use Rattle.analysis.specs.Corners.{corners_of};
ghost use Rattle.plan.specs.Search.{Ended, RulesKnown, FoundOf, JoinedKnown, TriedOf};
ghost use Rattle.words.specs.Sheet.{text};

use crate::facts::Facts;
use crate::plan::{Plan, plan_cycle};
use reach::cycles::{joined, next_cycle};
use reach::reach::loops;
use reach::rows::Row;
use turns::limits::Limits;
use turns::turn::Unplanned;
use words::numbers::Refusal;

// A plan, and the row of its cycle's members.
#[derive(Clone, Copy, Debug, PartialEq, Eq)]
pub struct FoundPlan {
    pub plan: Plan,
    pub members: [u64; Row::WORDS],
}

// The plan if there is one, or refusal 7; how many cycles were declined in front of it, and by which clauses, in the cycles'
// order; zeros behind.
// Stays: the clauses stand in fixed memory with their number beside them, as a caller in another language is told both.
#[derive(Clone, Copy, Debug, PartialEq, Eq)]
pub struct Found {
    pub answer: Result<Option<FoundPlan>, Refusal>,
    pub declined: u32,
    pub clauses: [u32; Row::RULES],
}

fn ended(
    answer: Result<Option<FoundPlan>, Refusal>,
    declined: usize,
    clauses: [u32; Row::RULES],
) -> Found
    requires { declined ≤ rule_limit }
    ensures { Ended answer declined clauses result }
{
    Found {
        answer,
        declined: declined as u32,
        clauses,
    }
}

// The cycles of rules that are joined.
fn try_cycles(
    f: &Facts,
    closed: &[[u64; Row::WORDS]; Row::RULES],
    limits: Limits,
    work: &mut [u8],
) -> Found
    requires bounds { work_bytes ≤ length work.old }
    requires few_rules { f.now.g.now.rules.now.n ≤ rule_limit }
    requires joined_known { JoinedKnown (text f.now.g.now.s.now) f.now.g.now.s.now.end f.now.g.now.rules.now (corners_of f.now.reading)
        f.now.rows.now.calls f.now.ground.marks f.now.ground.kept closed.now }
    ensures { TriedOf (text f.now.g.now.s.now) f.now.g.now.s.now.end f.now.g.now.rules.now (corners_of f.now.reading) f.now.rows.now.calls
        f.now.ground.marks f.now.ground.kept closed.now limits work.new result }
{
    let n = f.g.rules.n as usize;
    let ids = f.g.rules.ids;
    let mut clauses = [0u32; Row::RULES];
    let mut left = loops(closed, n);
    for k in 0..n {
        let Some(ahead) = next_cycle(closed, &ids, n, left) else {
            return ended(Ok(None), k, clauses);
        };
        let members = ahead.members;
        match plan_cycle(f, members, limits, work) {
            Ok(plan) => {
                let answer = Ok(Some(FoundPlan { plan, members }));
                return ended(answer, k, clauses);
            }
            Err(Unplanned::Declined(clause)) => {
                clauses[k] = u32::from(clause);
                left = ahead.left;
            }
            Err(Unplanned::Overfull) => return ended(Err(Refusal::PlanTooLarge), k, clauses),
        }
    }
    ended(Ok(None), n, clauses)
}

// The cycles of the rules, by their left corners.
#[tactic(auto, using(crate::proofs::Laws::Cycles::found_of))]
pub fn find_plan(f: &Facts, limits: Limits, work: &mut [u8]) -> Found
    requires bounds { work_bytes ≤ length work.old }
    requires rules_known { RulesKnown (text f.now.g.now.s.now) f.now.g.now.s.now.end f.now.g.now.rules.now (corners_of f.now.reading)
        f.now.rows.now.calls f.now.rows.now.corners f.now.ground.marks f.now.ground.kept }
    ensures { FoundOf (text f.now.g.now.s.now) f.now.g.now.s.now.end f.now.g.now.rules.now (corners_of f.now.reading) f.now.rows.now.calls
        f.now.rows.now.corners f.now.ground.marks f.now.ground.kept limits work.new result }
{
    let closed = joined(f.rows.corners, f.g.rules.n as usize);
    try_cycles(f, &closed, limits, work)
}
