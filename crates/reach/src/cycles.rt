// The cycles of a grammar, by least id (SPECIFICATION 6.7, 6.8). They are gone through so: `loops` of what is joined is left; the
// `first` that is left names a cycle, whose members are `around` it; `minus` these, the later cycles are left.
ghost use Rattle.std.specs.Prelude.{◌≡◌, ◌≤◌};
ghost use Rattle.grammar.specs.Numbers.{rule_limit};
ghost use Rattle.reach.specs.Cycles.{Joined, IsNext};
ghost use Rattle.reach.specs.Listed.{AllLeft, GivesNext, AheadOf, CyclesIn};

use crate::reach::{around, closed, loops, others};
use crate::rows::{Row, has, is_empty, minus};
use crate::trim::trim;

// What is reached between different rules. Where no rule is on a cycle of several, nothing is closed.
pub fn joined(corners: [[u64; Row::WORDS]; Row::RULES], n: usize) -> [[u64; Row::WORDS]; Row::RULES]
    requires { n ≤ rule_limit }
    ensures { Joined corners n result × AllLeft corners n result }
{
    let edges = others(corners, n);
    if is_empty(trim(edges, n)) {
        return edges;
    }
    closed(edges, n)
}

// The rule with the least id in a row, or none.
pub fn first(ids: [u32; Row::RULES], left: [u64; Row::WORDS], n: usize) -> Option<usize>
    requires { n ≤ rule_limit }
    ensures { IsNext ids left n result × GivesNext ids left n result }
{
    (0..n).filter(|&i| has(left, i)).min_by_key(|&i| ids[i])
}

// The members of a cycle and those of all behind it.
#[derive(Clone, Copy, Debug, PartialEq, Eq)]
pub struct Ahead {
    pub members: [u64; Row::WORDS],
    pub left: [u64; Row::WORDS],
}

// The next cycle, unless none is left.
pub fn next_cycle(
    closed: &[[u64; Row::WORDS]; Row::RULES],
    ids: &[u32; Row::RULES],
    n: usize,
    left: [u64; Row::WORDS],
) -> Option<Ahead>
    requires { n ≤ rule_limit }
    ensures { AheadOf closed.now ids.now n left result }
{
    let i = first(*ids, left, n)?;
    let members = around(closed, i, n);
    let later = minus(left, members);
    Some(Ahead {
        members,
        left: later,
    })
}

// The cycles in their order, a row each; returned is how many there are.
pub fn list_cycles(
    corners: [[u64; Row::WORDS]; Row::RULES],
    ids: [u32; Row::RULES],
    n: usize,
    cycles: &mut [[u64; Row::WORDS]; Row::RULES],
) -> u32
    requires { n ≤ rule_limit }
    ensures { CyclesIn corners ids n cycles.old cycles.new result }
{
    let closed = joined(corners, n);
    let mut left = loops(&closed, n);
    for k in 0..n {
        let Some(ahead) = next_cycle(&closed, &ids, n, left) else {
            return k as u32;
        };
        let members = ahead.members;
        cycles[k] = members;
        left = ahead.left;
    }
    n as u32
}
