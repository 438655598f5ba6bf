// What a substitution is made on.
ghost use Rattle.std.specs.Prelude.{◌≡◌, ◌<◌, ◌≤◌, length, get_or};
ghost use Rattle.grammar.specs.Numbers.{most_words};
ghost use Rattle.turns.specs.Called.{call_of};
ghost use Rattle.turns.specs.Stand.{RulesStand};
ghost use Rattle.words.specs.Sheet.{text};

use crate::limits::Limits;
use steps::corner::Place;
use steps::cycle::Cycle;
use steps::step::{Call, Step};
use words::sheet::Sheet;

// The sheet, the places of its rules, a cycle among them with its hub, the limits, and how many steps are allowed. At each of the
// places stands a rule, by the name that the cycle has of it.
#[derive(Clone, Copy, Debug, PartialEq, Eq)]
pub struct Task<'a> {
    pub s: &'a Sheet<'a>,
    pub places: &'a [u32],
    pub c: Cycle<'a>,
    pub limits: Limits,
    pub budget: usize,
    ghost few: { s.now.end ≤ most_words },
    ghost stand: { RulesStand (text s.now) s.now.end places.now c },
}

impl Task<'_> {
    // Where the hub stands.
    pub fn hub(&self) -> usize
        ensures { result ≡ get_or self.now.places.now self.now.c.hub 0 }
    {
        self.places[self.c.hub] as usize
    }

    // The call of the member that is met at a place.
    pub fn call(&self, p: Place, step: Step) -> Call
        requires { (p.target < length self.now.c.names.list.now) × (p.target < length self.now.places.now) }
        ensures { result ≡ call_of self.now.c.names.list.now self.now.places.now p step }
    {
        let i = p.target;
        Call {
            index: p.index,
            name: self.c.names.list[i],
            at: self.places[i] as usize,
            step,
        }
    }
}
