// A cycle whose corners are looked at.
ghost use Rattle.std.specs.Prelude.{◌≤◌};
ghost use Rattle.grammar.specs.Numbers.{rule_limit};

use analysis::names::Names;
use reach::rows::Row;

// A cycle among rules: their names, which rules are its members, and which rules are nullable.
// Stays: that of `steps` differs in its last field alone, which is the place of the hub. One type for both, over that field's type, would
// call both by one name that says neither.
#[derive(Clone, Copy, Debug, PartialEq, Eq)]
pub struct Cycle<'a> {
    pub names: Names<'a>,
    pub members: [u64; Row::WORDS],
    pub nullable: [u64; Row::WORDS],
    ghost few: { names.n ≤ rule_limit },
}
