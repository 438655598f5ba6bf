// An alternative that was taken: from the stack, or from the sheet into the hand.
ghost use Rattle.std.specs.Prelude.{◌≡◌};
ghost use Rattle.planned.specs.List.{InHand, InList};

use crate::state::State;
use planned::list::Listed;

// One of the sheet, which is in hand.
// Stays: what splits, splices and decides (planned, splices, steps) has `InHand` as a clause and takes no such value, beside clauses that
// speak of the same alternative in the work area (`Located`, `HasRoom`), which no value can hold, since that area is written between.
#[derive(Clone, Copy, Debug, PartialEq, Eq)]
pub struct FromSheet {
    pub x: Listed,
    ghost in_hand: { InHand x },
}

// One that was on top of the stack, and still stands in the list.
#[derive(Clone, Copy, Debug, PartialEq, Eq)]
pub struct FromStack {
    pub x: Listed,
    ghost in_list: { InList x },
}

// An alternative of either.
#[derive(Clone, Copy, Debug, PartialEq, Eq)]
pub enum Alternative {
    Hand(FromSheet),
    Stack(FromStack),
}

impl Alternative {
    ghost use Rattle.turns.specs.Midway.{listed_of};

    // Wherever it stands.
    pub fn listed(self) -> Listed
        ensures { result ≡ listed_of self }
    {
        match self {
            Alternative::Hand(h) => h.x,
            Alternative::Stack(t) => t.x,
        }
    }
}

// The alternative, and what is left.
#[derive(Clone, Copy, Debug, PartialEq, Eq)]
pub struct Taken {
    pub x: Alternative,
    pub st: State,
}
