// The satellites that may go when a plan is applied (SPECIFICATION 9.6): the members that nothing calls which stays.
ghost use Rattle.std.specs.Prelude.{◌≡◌, ◌<◌, ◌≤◌};
ghost use Rattle.grammar.specs.Numbers.{rule_limit};
ghost use Rattle.hub.specs.Removal.{Thinned, Removable};

use crate::calls::calls_from;
use reach::rows::{Row, is_empty, meet, minus, with, without};

// Rounds, each of which takes away what the planned list or a rule that stays calls, until one takes nothing. The hub's old body
// does not count: the planned list stands for it.
#[tactic(auto, using(crate::proofs::Laws::Removal::thinning))]
fn thinned(
    calls: &[[u64; Row::WORDS]; Row::RULES],
    n: usize,
    row: [u64; Row::WORDS],
    planned: [u64; Row::WORDS],
    hub: usize,
) -> [u64; Row::WORDS]
    requires { (n ≤ rule_limit) × (hub < rule_limit) }
    ensures { Thinned calls.now n planned hub row result }
{
    let mut m = row;
    // Stays: this is a `loop`, since the rounds have no number that anything reads. They end with the first one that takes nothing.
    loop {
        let called = calls_from(calls, n, with(m, hub), planned);
        if is_empty(meet(m, called)) {
            return m;
        }
        let t = minus(m, called);
        m = t;
    }
}

// Of the members that are neither the hub nor preserved.
pub fn removable(
    calls: &[[u64; Row::WORDS]; Row::RULES],
    n: usize,
    members: [u64; Row::WORDS],
    kept: [u64; Row::WORDS],
    planned: [u64; Row::WORDS],
    hub: usize,
) -> [u64; Row::WORDS]
    requires { (n ≤ rule_limit) × (hub < rule_limit) }
    ensures { Removable calls.now n planned hub members kept result }
{
    thinned(calls, n, without(minus(members, kept), hub), planned, hub)
}
