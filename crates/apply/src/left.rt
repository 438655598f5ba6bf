// How many words the rules that stay take.
ghost use Rattle.std.specs.Prelude.{◌≤◌, ◌^◌};
ghost use Rattle.grammar.specs.Numbers.{most_words};
ghost use Rattle.grammar.specs.Words.{words};
ghost use Rattle.analysis.specs.Facts.{Standing};
ghost use Rattle.apply.specs.Left.{LeftTake};

use drafts::kept::rule_end;
use reach::rows::{Row, has};
use records::rules::Rules;

// Those from one place among the rules up to another that are not in the row.
// Stays: this takes bytes and an end, and no `Ruled`. A `Sheet` has room for a trailer behind its end, for which this public function
// does not ask its callers, and by the project's rule on promises may not.
pub fn words_left(
    s: &[u8],
    end: usize,
    rules: Rules,
    row: [u64; Row::WORDS],
    from: usize,
    until: usize,
) -> usize
    requires { Standing (words s.now) end rules × (from ≤ until) × (until ≤ rules.n) × (end ≤ most_words) }
    ensures { LeftTake (words s.now) end rules row from until result × (result ≤ 2 ^ 20) }
{
    let places = rules.places;
    let mut total: usize = 0;
    for i in from..until {
        if !has(row, i) {
            total += rule_end(&places, rules.n as usize, i, end) - places[i] as usize;
        }
    }
    total
}
