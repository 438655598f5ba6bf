// What a call answers.
ghost use Rattle.std.specs.Prelude.{◌≡◌};
ghost use Rattle.convert.specs.Converted.{numbers};

use sheet::refused::refusal_numbers;
use words::numbers::Refusal;

// An answer in numbers.
pub fn told(answer: Result<u32, Refusal>) -> [u32; 2]
    ensures { result ≡ numbers answer }
{
    match answer {
        Err(refusal) => refusal_numbers(refusal),
        Ok(length) => [0, length],
    }
}
