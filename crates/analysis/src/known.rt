// What is known of the rules while a body is walked.
ghost use Rattle.std.specs.Prelude.{◌≤◌};
ghost use Rattle.grammar.specs.Numbers.{rule_limit};
ghost use Rattle.analysis.specs.Names.{Tabled};

use crate::corners::Corners;
use crate::names::Names;
use reach::rows::Row;

// Their names and a table of these, which rules are nullable, and how left corners are read.
#[derive(Clone, Copy, Debug, PartialEq, Eq)]
pub struct Known<'a> {
    pub names: Names<'a>,
    pub table: &'a [u8],
    pub nullable: [u64; Row::WORDS],
    pub reading: Corners,
    ghost few: { names.n ≤ rule_limit },
    ghost tabled: { Tabled names.list.now names.n table.now },
}
