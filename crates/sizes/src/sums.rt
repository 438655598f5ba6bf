// Measures, and their sums.
ghost use Rattle.std.specs.Prelude.{◌≡◌, ◌^◌};
ghost use Rattle.sizes.specs.Sized.{Under, plus};

use crate::tally::Tally;

// How many fresh ids of each sort, and how many words.
// Stays: how large the numbers may be is a clause, since what is added and what is judged have other bounds.
#[derive(Clone, Copy, Debug, Default, PartialEq, Eq)]
pub struct Measure {
    pub tally: Tally,
    pub words: usize,
}

impl Measure {
    // Two measures together.
    // Stays: this is no `impl Add`. A library may name nothing of `std`, by which it could assume (.ci/contracts.py), and that trait is there.
    pub fn add(self, n: Measure) -> Measure
        requires { Under self (2 ^ 32) × Under n (2 ^ 32) }
        ensures { result ≡ plus self n }
    {
        let s = self.tally;
        let t = n.tally;
        Measure {
            tally: Tally {
                alternatives: s.alternatives + t.alternatives,
                elements: s.elements + t.elements,
                labels: s.labels + t.labels,
                actions: s.actions + t.actions,
                predicates: s.predicates + t.predicates,
            },
            words: self.words + n.words,
        }
    }
}
