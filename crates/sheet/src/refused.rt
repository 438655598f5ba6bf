// A refusal in numbers, for callers in other languages.
ghost use Rattle.std.specs.Prelude.{◌≡◌, ◌<◌, replicate, set};
ghost use Rattle.words.specs.Refusal.{refusal_number};

use words::numbers::Refusal;

// Its number, and zeros.
pub fn refusal_numbers<const N: usize>(refusal: Refusal) -> [u32; N]
    requires { 0 < N }
    ensures { result ≡ set (replicate N 0) 0 (refusal_number refusal) }
{
    let mut numbers = [0; N];
    numbers[0] = u32::from(refusal);
    numbers
}
