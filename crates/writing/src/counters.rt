// The next free id of each sort. A fresh id is its sort's counter, which moves on by one (SPECIFICATION 11.5).
ghost use Rattle.std.specs.Prelude.{◌≡◌};
ghost use Rattle.writing.specs.Taken.{following, Took};

use words::numbers::Sort;

// Stays: SPECIFICATION 17.3 has a struct of the five counters, and the definition's has these names. A type that is generic in what it
// has of each sort, for `Tally` (sizes) and `Survey` (ids) too, would be opened by each law that sets them beside these.
#[derive(Clone, Copy, Debug, PartialEq, Eq)]
pub struct Counters {
    pub alternative: u32,
    pub element: u32,
    pub label: u32,
    pub action: u32,
    pub predicate: u32,
}

// A fresh id, and the counters behind it.
#[derive(Clone, Copy, Debug, PartialEq, Eq)]
pub struct Taken {
    pub id: u32,
    pub counters: Counters,
}

// A fresh id: the counter, which becomes the number behind it. Behind the last there is none, and a counter stays there: who hands
// out ids sees to it that it is not reached (SPECIFICATION 4.8).
fn take_from(counter: &mut u32) -> u32
    ensures { (result ≡ counter.old) × (counter.new ≡ following counter.old) }
{
    let id = *counter;
    *counter = id.saturating_add(1);
    id
}

impl Counters {
    // An id of a sort: its counter moves on, and the others stay.
    pub fn take(mut self, sort: Sort) -> Taken
        ensures { Took sort self result.id result.counters }
    {
        let id = match sort {
            Sort::Alternative => take_from(&mut self.alternative),
            Sort::Element => take_from(&mut self.element),
            Sort::Label => take_from(&mut self.label),
            Sort::Action => take_from(&mut self.action),
            Sort::Predicate => take_from(&mut self.predicate),
        };
        Taken { id, counters: self }
    }
}
