// How large a rule is: its alternatives, with their outermost elements and options.
ghost use Rattle.std.specs.Prelude.{◌+◌, ◌≤◌};
ghost use Rattle.grammar.specs.Numbers.{most_words};
ghost use Rattle.grammar.specs.Found.{FoundRule};
ghost use Rattle.substitution.specs.Size.{RuleCounted};
ghost use Rattle.words.specs.Sheet.{text};

use ends::ends::alternative_end;
use splices::splice::Size;
use steps::decide::counted;
use words::numbers::Block;
use words::sheet::Sheet;
use words::words::word;

// The rule at `at`.
pub fn hub_size(s: &Sheet, at: usize) -> Size
    requires bounds { s.now.end ≤ most_words }
    requires found_rule { FoundRule (text s.now) s.now.end at × (at + 4 ≤ s.now.end) }
    ensures { RuleCounted (text s.now) s.now.end at result }
{
    let mut z = Size::default();
    let n = word(s.bytes, at + 3);
    let mut p = at + 4;
    for _ in 0..n {
        z = counted(
            z,
            word(s.bytes, p + 4) as usize,
            word(s.bytes, p + 3) as usize,
        );
        p = alternative_end(s, Block::DEPTH, p);
    }
    z
}
