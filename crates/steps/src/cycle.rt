// A cycle on which steps are made.
ghost use Rattle.std.specs.Prelude.{◌≤◌};
ghost use Rattle.grammar.specs.Numbers.{rule_limit};

use analysis::names::Names;
use reach::rows::Row;

// A cycle among rules, and its hub: their names, which rules are its members, and the place of the hub.
// Stays: that of `hub` differs in its last field alone, which is the row of the nullable rules (there it is said why).
#[derive(Clone, Copy, Debug, PartialEq, Eq)]
pub struct Cycle<'a> {
    pub names: Names<'a>,
    pub members: [u64; Row::WORDS],
    pub hub: usize,
    ghost few: { names.n ≤ rule_limit },
}
