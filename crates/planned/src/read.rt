// The planned list read: its elements one by one, its settled alternatives from the first on.
ghost use Rattle.std.specs.Prelude.{◌<◌};
ghost use Rattle.planned.specs.List.{Laid, Located};
ghost use Rattle.planned.specs.Reading.{ItemIs, OnTrack, ReadNext};

use crate::halves::half;
use crate::hand::place;
use crate::list::{Cursor, Item, Listed, Mark, Sizes};
use crate::record::record_at;

// The element at an index of an alternative that is listed.
pub fn item(work: &[u8], x: Listed, i: usize) -> Item
    requires { Located work.now x × (i < x.ne) }
    ensures { ItemIs work.now x i result.at result.plain }
{
    let h = half(work, x.e + i);
    Item {
        at: usize::from(place(h)),
        plain: Mark::BIT <= h,
    }
}

// The settled alternative at a position, and the next position.
#[derive(Clone, Copy, Debug, PartialEq, Eq)]
pub struct Read {
    pub x: Listed,
    pub next: Cursor,
}

// Stays: this is no iterator over the settled alternatives, nor is what goes over a rule's alternatives in the sheet. The contract of
// `next` relates an iterator, an item and the iterator behind it, while each walk states what it did by the list's meaning, or by the
// tree: each would have to turn a number of items back into the place that a cursor is.
pub fn read_settled(work: &[u8], l: Sizes, c: Cursor) -> Read
    requires { Laid work.now l × OnTrack work.now l c × (c.a < l.out.a) }
    ensures { ReadNext work.now l c result.x result.next }
{
    let x = record_at(work, c);
    let next = c.past(x);
    Read { x, next }
}
