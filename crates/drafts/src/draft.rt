// The draft: the rules drawn so far, and the pen behind them.
ghost use Rattle.std.specs.Prelude.{◌+◌, ◌<◌, ◌≤◌};
ghost use Rattle.grammar.specs.Numbers.{rule_limit};
ghost use Rattle.heads.specs.Front.{compose_at};
ghost use Rattle.drafts.specs.Draft.{compose_end, RowAdded};

use copies::pen::Pen;
use records::rules::{Rules, add};

#[derive(Clone, Copy, Debug, PartialEq, Eq)]
pub struct Draft {
    pub rules: Rules,
    pub pen: Pen,
}

impl Draft {
    // The word of the work area from which a sheet is composed.
    pub const FIRST: usize = 8192;

    // A rule whose n words are drawn next.
    pub fn add_row(&mut self, id: u32, name: u32, n: usize)
        requires { (self.old.rules.n < rule_limit) × (compose_at ≤ self.old.pen.to) × (self.old.pen.to + n ≤ compose_end) }
        ensures { RowAdded id name n self.old self.new }
    {
        let place = (self.pen.to - Draft::FIRST) as u32;
        add(&mut self.rules, id, name, place);
        self.pen.to += n;
    }
}
