// The limits of a substitution.
ghost use Rattle.std.specs.Prelude.{◌≡◌};
ghost use Rattle.turns.specs.Limits.{LimitsFit};

use planned::list::Sizes;
use splices::splice::Size;

// The least budget, and how large a planned list may be after a step.
// Stays: the last three are no `Size`. That names its numbers a, e and o, and tells how much there is or comes; these are named as in the
// definition (`reference`), law for law, and to callers. With a `Size` the one function `most` would go, and each law that speaks of a
// limit would speak of a field of a field.
#[derive(Clone, Copy, Debug, PartialEq, Eq)]
pub struct Limits {
    pub floor: usize,
    pub alternatives: usize,
    pub elements: usize,
    pub options: usize,
    ghost fit: { LimitsFit alternatives elements options },
}

impl Limits {
    ghost use Rattle.turns.specs.Midway.{IsStandard, most_of};

    // The least number of steps that a substitution may take (SPECIFICATION 8.10).
    pub const LEAST_BUDGET: usize = 64;

    // The limits of the pass.
    pub fn standard() -> Limits
        ensures { IsStandard result }
    {
        Limits {
            floor: Limits::LEAST_BUDGET,
            alternatives: Sizes::ALTERNATIVES,
            elements: Sizes::ELEMENTS,
            options: Sizes::OPTIONS,
        }
    }

    // How large a list may be.
    pub fn most(self) -> Size
        ensures { result ≡ most_of self }
    {
        Size {
            a: self.alternatives,
            e: self.elements,
            o: self.options,
        }
    }
}
