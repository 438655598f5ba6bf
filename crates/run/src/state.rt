// Where a run stands between two plans, and what it hands back.
ghost use Rattle.std.specs.Prelude.{◌≡◌};
ghost use Rattle.run.specs.Midst.{at_start};

use apply::apply::Applied;
use plan::ground::Ground;

// How many entries the trail has.
// Stays: SPECIFICATION 17.4 has the empty trail as a constructor of its type, though a run begins with its number alone.
#[derive(Clone, Copy, Debug, Default, PartialEq, Eq)]
pub struct Trail {
    pub entries: usize,
}

impl Trail {
    pub fn empty() -> Trail
        ensures { result.entries ≡ 0 }
    {
        Trail::default()
    }
}

// The sheet in the result with its rules and counters, what is known of the rules and the preserved ones, plans and steps so far.
#[derive(Clone, Copy, Debug, PartialEq, Eq)]
pub struct State {
    pub at: Applied,
    pub ground: Ground,
    pub plans: u32,
    pub steps: u32,
}

impl State {
    // Before the first plan, with what was found out about the rules.
    pub fn begin(at: Applied, ground: Ground) -> State
        ensures { result ≡ at_start at ground }
    {
        State {
            at,
            ground,
            plans: 0,
            steps: 0,
        }
    }
}

// Plans and steps, the words of the new sheet, and the entries of the trail.
#[derive(Clone, Copy, Debug, PartialEq, Eq)]
pub struct Ended {
    pub plans: u32,
    pub steps: u32,
    pub words: usize,
    pub entries: usize,
}
