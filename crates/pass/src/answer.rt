// What a call answers.
ghost use Rattle.std.specs.Prelude.{◌≡◌};
ghost use Rattle.pass.specs.Handed.{numbers};

use sheet::refused::refusal_numbers;
use words::numbers::Refusal;

// Plans and steps, and how many bytes of the result and of the trail are taken.
#[derive(Clone, Copy, Debug, PartialEq, Eq)]
pub struct Totals {
    pub plans: u32,
    pub steps: u32,
    pub result: u32,
    pub trail: u32,
}

// An answer in numbers.
pub fn told(answer: Result<Totals, Refusal>) -> [u32; 5]
    ensures { result ≡ numbers answer }
{
    match answer {
        Err(refusal) => refusal_numbers(refusal),
        Ok(t) => [0, t.plans, t.steps, t.result, t.trail],
    }
}
