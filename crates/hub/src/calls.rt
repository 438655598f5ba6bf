// The rules that several rules call, as a row.
ghost use Rattle.std.specs.Prelude.{◌≡◌, ◌<◌, ◌≤◌};
ghost use Rattle.grammar.specs.Numbers.{rule_limit};
ghost use Rattle.hub.specs.Calls.{CallsAdded, CallsFrom};

use reach::rows::{Row, has, union};

// A row, and the calls of rule i if it is not in `out`.
fn add_calls(
    row: [u64; Row::WORDS],
    out: [u64; Row::WORDS],
    i: usize,
    calls: [u64; Row::WORDS],
) -> [u64; Row::WORDS]
    requires { i < rule_limit }
    ensures { CallsAdded row out i calls result }
{
    if has(out, i) {
        return row;
    }
    union(calls, row)
}

// `from`, and the calls of the rules that are not in `out`.
pub fn calls_from(
    calls: &[[u64; Row::WORDS]; Row::RULES],
    n: usize,
    out: [u64; Row::WORDS],
    from: [u64; Row::WORDS],
) -> [u64; Row::WORDS]
    requires { n ≤ rule_limit }
    ensures { CallsFrom calls.now out from n result }
{
    let mut r = from;
    for i in 0..n {
        let t = add_calls(r, out, i, calls[i]);
        r = t;
    }
    r
}
