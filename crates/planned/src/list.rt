// The two ends of the planned list.
ghost use Rattle.std.specs.Prelude.{◌≡◌, ◌+◌, ◌<◌, ◌≤◌};
ghost use Rattle.reference.specs.Numbers.{most_alternatives, most_elements, most_options};
ghost use Rattle.planned.specs.Layout.{past};
ghost use Rattle.planned.specs.List.{Laid, HasTop, HasRoom, Located, Movable};
ghost use Rattle.planned.specs.Moves.{IsEmpty, IsDrained, Took, Settled};

use crate::record::{record_at, write_record};

// A place in the list: how many alternatives, elements and options are in front of it.
#[derive(Clone, Copy, Debug, Default, PartialEq, Eq)]
pub struct Cursor {
    pub a: usize,
    pub e: usize,
    pub o: usize,
}

impl Cursor {
    // Where the alternative that begins here ends.
    pub fn past(self, x: Listed) -> Cursor
        requires { (self.a < most_alternatives) × (self.e + x.ne ≤ most_elements) × (self.o + x.no ≤ most_options) }
        ensures { result ≡ past self x }
    {
        Cursor {
            a: self.a + 1,
            e: self.e + x.ne,
            o: self.o + x.no,
        }
    }
}

// Both ends: where what is settled ends, and where the stack begins.
// Stays: that it lies in the work area is a clause. Other lists share that buffer, and it is written between, so a value that kept the
// fact would have to borrow the whole of it. `measure` (sizes) and `judge` (rewritable), which only read it, are handed it once each; the
// second has the sheet in its `Ruled`, and would have to ask that a list with a sheet of its own has the same.
#[derive(Clone, Copy, Debug, PartialEq, Eq)]
pub struct Sizes {
    pub out: Cursor,
    pub top: Cursor,
}

impl Sizes {
    // What a planned list may hold after a step (SPECIFICATION 4.7).
    pub const ALTERNATIVES: usize = 1024;

    pub const ELEMENTS: usize = 8192;

    pub const OPTIONS: usize = 2048;
    // Halves of a head; the first head, the first option.
    pub const HEAD: usize = 4;

    pub const HEADS: usize = 8192;

    pub const FIRST_OPTION: usize = 12288;

    // Nothing settled, nothing on the stack.
    pub fn empty() -> Sizes
        ensures { IsEmpty result }
    {
        Sizes {
            out: Cursor::default(),
            top: Cursor {
                a: Sizes::ALTERNATIVES,
                e: Sizes::ELEMENTS,
                o: Sizes::OPTIONS,
            },
        }
    }
}

// The alternative in hand: where its options begin, and where its elements end.
#[derive(Drop)]
pub struct Hand;

impl Hand {
    pub const OPTIONS: usize = 14336;

    pub const END: usize = 24576;
}

// A place in the sheet, and this more where an element was made plain, or where a slot is filled by what always filled it.
#[derive(Drop)]
pub struct Mark;

impl Mark {
    pub const BIT: u16 = 32768;
}

// A planned alternative: the slot that it fills, where it was taken from last, and where its elements and options are listed.
// Stays: that it is listed is a clause where the work area is written, as with `Sizes`. Of those that only read it, most take a `Shown`.
// By its parts take it `item`, `option_place` and `option_meets`, which ask less and which writers call; `options_added` (splices), which
// is of any depth; and `find_corner` (steps), which is slower with a `Shown`. An index into it is another parameter, and that it lies
// below `ne` a clause: indices come with the member that was met (`Place`, `Call` in steps), so that a struct of alternative and index
// would part what is met at one place, and be made for four functions alone, each of which takes it apart.
#[derive(Clone, Copy, Debug, PartialEq, Eq)]
pub struct Listed {
    pub slot: u16,
    pub origin: u16,
    pub ne: usize,
    pub no: usize,
    pub e: usize,
    pub o: usize,
}

// An element of the list: its place in the sheet, and whether it was made plain.
#[derive(Clone, Copy, Debug, PartialEq, Eq)]
pub struct Item {
    pub at: usize,
    pub plain: bool,
}

// The alternative on top of the stack, and the list without it.
#[derive(Clone, Copy, Debug, PartialEq, Eq)]
pub struct Top {
    pub x: Listed,
    pub rest: Sizes,
}

// Whether the stack is empty.
pub fn is_drained(l: Sizes) -> bool
    ensures { IsDrained l result }
{
    Sizes::ALTERNATIVES <= l.top.a
}

pub fn take_top(work: &[u8], l: Sizes) -> Top
    requires { Laid work.now l × HasTop l }
    ensures { Took work.now l result.x result.rest }
{
    let x = record_at(work, l.top);
    let top = l.top.past(x);
    Top {
        x,
        rest: Sizes { top, ..l },
    }
}

// One alternative more is settled: the top just taken, or the one in hand.
pub fn settle(work: &mut [u8], l: Sizes, x: Listed) -> Sizes
    requires { Laid work.old l × Located work.old x × Movable l x × HasRoom l 1 x.ne x.no }
    ensures { Settled work.old work.new l result x }
{
    write_record(work, x, l.out);
    let out = l.out.past(x);
    Sizes { out, ..l }
}
