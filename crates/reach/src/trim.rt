// Most sheets have no cycle: a quick test tells many of them before anything is closed.
ghost use Rattle.std.specs.Prelude.{◌<◌, ◌≤◌};
ghost use Rattle.grammar.specs.Numbers.{rule_limit};
ghost use Rattle.reach.specs.Steps.{Below, Kept, Holds};

use crate::rows::{Row, collect, is_empty, meet, without};

// A rule stays in a row if it leads to one that is in it.
fn kept(row: [u64; Row::WORDS], i: usize, to: [u64; Row::WORDS]) -> [u64; Row::WORDS]
    requires { i < rule_limit }
    ensures { Kept row i to result }
{
    if is_empty(meet(to, row)) {
        return without(row, i);
    }
    row
}

// The rules that are there.
fn all(n: usize) -> [u64; Row::WORDS]
    requires { n ≤ rule_limit }
    ensures { Below n result }
{
    collect(n, |_| true)
}

// Every rule on a cycle stays: one that leads to no rule left is on none. From the last rule to the first, and back.
pub fn trim(rows: [[u64; Row::WORDS]; Row::RULES], n: usize) -> [u64; Row::WORDS]
    requires { n ≤ rule_limit }
    ensures { Holds rows n result }
{
    let mut r = all(n);
    for i in (0..n).rev() {
        let t = kept(r, i, rows[i]);
        r = t;
    }
    for i in 0..n {
        let t = kept(r, i, rows[i]);
        r = t;
    }
    r
}
