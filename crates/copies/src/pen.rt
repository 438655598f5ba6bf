// The pen that draws copies, the entries of the trail, and fresh ids with their entries.
ghost use Rattle.std.specs.Prelude.{◌≡◌, [], ◌∷◌, ◌+◌, ◌*◌, ◌≤◌, length};
ghost use Rattle.writing.specs.Wrote.{Wrote};
ghost use Rattle.words.specs.Kinds.{sort_number};
ghost use Rattle.copies.specs.Reasons.{counter_of};
ghost use Rattle.copies.specs.Pen.{EntryRoom, Gave};

use words::numbers::Sort;
use writing::copy::write;
use writing::counters::Counters;

// The next word of what is drawn and the next word of the trail, both counted in words, and the counters.
#[derive(Clone, Copy, Debug, PartialEq, Eq)]
pub struct Pen {
    pub to: usize,
    pub trail: usize,
    pub counters: Counters,
}

// Why an entry was made.
#[derive(Clone, Copy, Debug, PartialEq, Eq)]
pub enum Reason {
    RuleBoundary,
    BlockBoundary,
}

// The number by which the trail tells it (SPECIFICATION 12.1).
impl From<Reason> for u32 {
    ghost use Rattle.copies.specs.Reasons.{reason_number};

    ghost from_gives = { λ reason number. number ≡ reason_number reason };

    fn from(reason: Reason) -> u32 {
        match reason {
            Reason::RuleBoundary => 1,
            Reason::BlockBoundary => 2,
        }
    }
}

// A fresh id, and the pen behind its entry.
#[derive(Clone, Copy, Debug, PartialEq, Eq)]
pub struct Given {
    pub id: u32,
    pub pen: Pen,
}

// What is drawn into, the words of copies and the entries of the trail, and the pen.
// Stays: that the pen stands behind the planned list is a clause of those who draw there. Copies are drawn into any buffer.
#[derive(Drop)]
pub struct Drawing<'a> {
    pub out: &'a mut [u8],
    pub trail: &'a mut [u8],
    pub pen: Pen,
}

// Words one after the other.
// Stays: `put_row` (ids) has this loop too. It promises no more than the row itself, in front of a scratch buffer; as a call of this it
// would take that one part out of `Wrote` again, and `ids` would use a crate more, to save two lines.
pub fn write_words(out: &mut [u8], at: usize, ws: &[u32])
    requires { 4 * (at + length ws.now) ≤ length out.old }
    ensures { Wrote out.old out.new at ws.now }
{
    for (i, w) in ws.iter().enumerate() {
        write(out, at + i, *w);
    }
}

// Every entry of the trail is written here.
// Stays: the kind and the reason are numbers, for which this is promised whatever they are; with an enum it would ask for one of a few.
pub fn write_entry(trail: &mut [u8], at: usize, kind: u32, id: u32, reason: u32, owner: u32)
    requires { 4 * (at + 4) ≤ length trail.old }
    ensures { Wrote trail.old trail.new at (kind ∷ id ∷ reason ∷ owner ∷ []) }
{
    write_words(trail, at, &[kind, id, reason, owner]);
}

// A fresh id of a sort, with its entry.
// Stays: the reason is a number, for which this is promised whatever it is; with the enum it would ask for one of two.
// Stays: this is no method of `Drawing`. It draws nothing, and as a method it would ask for a buffer to draw into, and need three clauses
// more to say that the buffer and what is lent stay, which the parameters show.
pub fn fresh(trail: &mut [u8], pen: Pen, sort: Sort, reason: u32, owner: u32) -> Given
    requires { EntryRoom (counter_of sort pen.counters) trail.old pen }
    ensures { Gave (sort_number sort) (counter_of sort pen.counters) reason owner
        trail.old trail.new pen result.id result.pen }
{
    let taken = pen.counters.take(sort);
    write_entry(trail, pen.trail, u32::from(sort), taken.id, reason, owner);
    let counters = taken.counters;
    Given {
        id: taken.id,
        pen: Pen {
            trail: pen.trail + 4,
            counters,
            ..pen
        },
    }
}
