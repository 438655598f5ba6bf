// How many steps the substitution of a cycle may take (SPECIFICATION 8.10).
ghost use Rattle.std.specs.Prelude.{◌≤◌};
ghost use Rattle.grammar.specs.Numbers.{rule_limit, most_words};
ghost use Rattle.hub.specs.Budget.{Summed, IsBudget};
ghost use Rattle.words.specs.Sheet.{text};

use analysis::ruled::Ruled;
use reach::rows::{Row, has};
use words::words::word;

// How many alternatives the members have.
fn alternatives(g: &Ruled, members: [u64; Row::WORDS]) -> usize
    requires bounds { (g.now.s.now.end ≤ most_words) × (g.now.rules.now.n ≤ rule_limit) }
    ensures { Summed (text g.now.s.now) g.now.s.now.end g.now.rules.now.places members g.now.rules.now.n result }
{
    let places = g.rules.places;
    let n = g.rules.n as usize;
    let mut sum = 0;
    for i in 0..n {
        if has(members, i) {
            sum += word(g.s.bytes, places[i] as usize + 3) as usize;
        }
    }
    sum
}

// The square of the members' alternatives, and at least the floor.
pub fn budget(g: &Ruled, members: [u64; Row::WORDS], floor: usize) -> usize
    requires bounds { g.now.s.now.end ≤ most_words }
    ensures { IsBudget (text g.now.s.now) g.now.s.now.end g.now.rules.now members floor result }
{
    let n = alternatives(g, members);
    floor.max(n * n)
}
