// Reachability over rows (SPECIFICATION 6.6, 17.1). Rules are numbered by their places in the sheet; those below n are there.
ghost use Rattle.std.specs.Prelude.{◌≡◌, ◌<◌, ◌≤◌};
ghost use Rattle.grammar.specs.Numbers.{rule_limit};
ghost use Rattle.reach.specs.Reach.{Others, Closed, Loops, Around};
ghost use Rattle.reach.specs.Steps.{Through};

use crate::rows::{Row, collect, has, is_empty, meet, union, without};

// The edges between different rules.
pub fn others(rows: [[u64; Row::WORDS]; Row::RULES], n: usize) -> [[u64; Row::WORDS]; Row::RULES]
    requires { n ≤ rule_limit }
    ensures { Others rows n result }
{
    let mut r = rows;
    for i in 0..n {
        r[i] = without(r[i], i);
    }
    r
}

// Where rule k leads, each row that has k leads too. A row is stored where it changes alone.
fn through(rows: &mut [[u64; Row::WORDS]; Row::RULES], k: usize, via: [u64; Row::WORDS], n: usize)
    requires { (k < rule_limit) × (n ≤ rule_limit) }
    ensures { Through rows.old k via n rows.new }
{
    if is_empty(via) {
        return;
    }
    for i in 0..n {
        if has(rows[i], k) {
            rows[i] = union(rows[i], via);
        }
    }
}

// Closed under reachability: with the paths through rules below k, for each k in turn (Warshall).
pub fn closed(rows: [[u64; Row::WORDS]; Row::RULES], n: usize) -> [[u64; Row::WORDS]; Row::RULES]
    requires { n ≤ rule_limit }
    ensures { Closed rows n result }
{
    let mut r = rows;
    for k in 0..n {
        let via = r[k];
        through(&mut r, k, via, n);
    }
    r
}

// The rules that reach themselves.
pub fn loops(reach: &[[u64; Row::WORDS]; Row::RULES], n: usize) -> [u64; Row::WORDS]
    requires { n ≤ rule_limit }
    ensures { Loops reach.now n result }
{
    collect(n, |i| has(reach[i], i))
}

// The rules that rule i reaches and that reach it.
pub fn around(reach: &[[u64; Row::WORDS]; Row::RULES], i: usize, n: usize) -> [u64; Row::WORDS]
    requires { (i < n) × (n ≤ rule_limit) }
    ensures { Around reach.now i n result }
{
    meet(reach[i], collect(n, |j| has(reach[j], i)))
}
