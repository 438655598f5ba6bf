// A sheet and the rules that stand in it, told apart by ids and by names.
ghost use Rattle.std.specs.Prelude.{◌≡◌, ◌≤◌};
ghost use Rattle.grammar.specs.Numbers.{rule_limit};
ghost use Rattle.analysis.specs.Facts.{Standing};
ghost use Rattle.analysis.specs.One.{standing_prop};
ghost use Rattle.words.specs.Sheet.{text};

use crate::names::Names;
use records::rules::Rules;
use words::sheet::Sheet;

// What stands there is one list of rules, so that they stand is a fact.
#[derive(Clone, Copy, Debug, PartialEq, Eq)]
pub struct Ruled<'a> {
    pub s: &'a Sheet<'a>,
    pub rules: &'a Rules,
    ghost standing: { Standing (text s.now) s.now.end rules.now } by { standing_prop (text s.now) s.now.end rules.now },
}

impl<'a> Ruled<'a> {
    // The names of its rules.
    pub fn names(&self) -> Names<'a>
        ensures { (result.list.now ≡ self.now.rules.now.names) × (result.n ≡ self.now.rules.now.n) × (result.n ≤ rule_limit) }
    {
        Names {
            list: &self.rules.names,
            n: self.rules.n as usize,
        }
    }
}
