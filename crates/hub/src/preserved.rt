// Which rules are preserved. The list is asked here alone.
ghost use Rattle.std.specs.Prelude.{◌≡◌, true, ◌≤◌};
ghost use Rattle.grammar.specs.Numbers.{rule_limit};
ghost use Rattle.grammar.specs.Words.{words};
ghost use Rattle.grammar.specs.Lists.{member, rising};
ghost use Rattle.reach.specs.Rows.{RowOf};

use reach::rows::{Row, collect};
use records::rules::Rules;

// The preserved ids, as the bytes of a sheet in which they stand: words that rise.
#[derive(Clone, Copy, Debug, PartialEq, Eq)]
pub struct Preserved<'a> {
    pub ids: &'a [u8],
    ghost rises: { rising (words ids.now) ≡ true },
}

impl Preserved<'_> {
    // Whether an id is among them.
    pub fn has(&self, id: u32) -> bool
        ensures { result ≡ member id (words self.now.ids.now) }
    {
        let (run, _) = self.ids.as_chunks::<4>();
        run.binary_search_by_key(&id, |w| u32::from_le_bytes(*w))
            .is_ok()
    }

    // The row of the rules whose ids are.
    pub fn rows(&self, rules: &Rules) -> [u64; Row::WORDS]
        requires { rules.now.n ≤ rule_limit }
        ensures { RowOf rules.now.ids rules.now.n (words self.now.ids.now) result }
    {
        collect(rules.n as usize, |i| self.has(rules.ids[i]))
    }
}
