// A row with a place taken out: the places above it move down by one.
ghost use Rattle.std.specs.Prelude.{◌<◌};
ghost use Rattle.grammar.specs.Numbers.{rule_limit};
ghost use Rattle.renew.specs.Less.{WordLess, Less};

use reach::rows::Row;

// A word without its bit k.
#[tactic(auto, using(crate::proofs::Laws::Words::lesses))]
fn word_less(w: u64, k: usize) -> u64
    requires { k < 64 }
    ensures { WordLess w k result }
{
    let high = w >> k;
    (w ^ (w & (high << k))) | ((high >> 1) << k)
}

pub fn without_place(row: [u64; Row::WORDS], k: usize) -> [u64; Row::WORDS]
    requires { k < rule_limit }
    ensures { Less row k result }
{
    let low = row[0];
    let high = row[1];
    if k < Row::BITS {
        let w = word_less(low, k);
        return [w | ((high % 2) << 63), high >> 1];
    }
    [low, word_less(high, k - Row::BITS)]
}
