// The rules that stay, copied word for word.
ghost use Rattle.std.specs.Prelude.{◌<◌, ◌≤◌};
ghost use Rattle.grammar.specs.Numbers.{rule_limit};
ghost use Rattle.drafts.specs.Draft.{Open};
ghost use Rattle.drafts.specs.Kept.{PlaceEnds, RulesFit, RulesAdded};
ghost use Rattle.words.specs.Sheet.{text};

use crate::draft::Draft;
use analysis::ruled::Ruled;
use reach::rows::{Row, has};
use writing::copy::copy_words;

// Where the i-th of n rules ends: where the next one begins, or the preserved ids.
pub fn rule_end(places: &[u32; Row::RULES], n: usize, i: usize, end: usize) -> usize
    requires { (i < n) × (n ≤ rule_limit) }
    ensures { PlaceEnds end places.now n i result }
{
    if i + 1 < n {
        return places[i + 1] as usize;
    }
    end
}

// Those from one place among the rules up to another that are not in the row.
pub fn copy_rules(
    g: &Ruled,
    row: [u64; Row::WORDS],
    from: usize,
    until: usize,
    work: &mut [u8],
    d: &mut Draft,
)
    requires bounds { (from ≤ until) × (until ≤ g.now.rules.now.n) }
    requires fact { Open d.old work.old × (d.old.rules.n ≤ from)
        × RulesFit (text g.now.s.now) g.now.s.now.end g.now.rules.now row from until d.old }
    ensures { RulesAdded (text g.now.s.now) g.now.s.now.end g.now.rules.now row from until
        work.old work.new d.old d.new }
{
    let rules = g.rules;
    let n = rules.n as usize;
    for i in from..until {
        if !has(row, i) {
            let at = rules.places[i] as usize;
            let long = rule_end(&rules.places, n, i, g.s.end) - at;
            copy_words(g.s.bytes, at, work, d.pen.to, long);
            d.add_row(rules.ids[i], rules.names[i], long);
        }
    }
}
