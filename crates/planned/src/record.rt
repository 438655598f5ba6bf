// One record of the list: its head, and where its elements and options are.
ghost use Rattle.std.specs.Prelude.{◌+◌, ◌*◌, ◌<◌, ◌≤◌, length};
ghost use Rattle.grammar.specs.Numbers.{work_bytes};
ghost use Rattle.reference.specs.Numbers.{most_alternatives, most_elements, most_options};
ghost use Rattle.planned.specs.List.{Located};
ghost use Rattle.planned.specs.Reading.{RecordRoom, RecordIs};
ghost use Rattle.planned.specs.Written.{HeadPut, Finishable, Finished, CopiedWithout, Writable, Wrote};

use crate::halves::{half, move_halves, put_half};
use crate::list::{Cursor, Listed, Sizes};

// The record that begins at a place of the list.
pub fn record_at(work: &[u8], c: Cursor) -> Listed
    requires { RecordRoom work.now c.a c.e c.o }
    ensures { RecordIs work.now c.a c.e c.o result }
{
    let i = Sizes::HEADS + Sizes::HEAD * c.a;
    Listed {
        slot: half(work, i),
        origin: half(work, i + 1),
        ne: usize::from(half(work, i + 2)),
        no: usize::from(half(work, i + 3)),
        e: c.e,
        o: Sizes::FIRST_OPTION + c.o,
    }
}

// The a-th head.
pub fn put_head(work: &mut [u8], a: usize, slot: u16, origin: u16, ne: usize, no: usize)
    requires { (a < most_alternatives) × (work_bytes ≤ length work.old) × (ne ≤ most_elements) × (no ≤ most_options) }
    ensures { HeadPut work.old work.new a slot origin ne no }
{
    let i = Sizes::HEADS + Sizes::HEAD * a;
    put_half(work, i, slot);
    put_half(work, i + 1, origin);
    put_half(work, i + 2, ne as u16);
    put_half(work, i + 3, no as u16);
}

// Options and head of a record at a place of the list, whose elements are there already: where they were, `x.e`, is not read, so
// `x.ne` may be how many have come.
pub fn finish(work: &mut [u8], x: Listed, to: Cursor)
    requires { Finishable work.old x.ne x.no x.o to.a to.o }
    ensures { Finished work.old work.new x.slot x.origin x.ne x.no x.o to.a to.o }
{
    move_halves(work, x.o, Sizes::FIRST_OPTION + to.o, x.no);
    put_head(work, to.a, x.slot, x.origin, x.ne, x.no);
}

// n halves, further in front, without the one at an index.
pub fn copy_without(work: &mut [u8], from: usize, to: usize, n: usize, index: usize)
    requires { (2 * (from + n) ≤ length work.old) × (to + n ≤ from) × (index < n) }
    ensures { CopiedWithout work.old work.new from to n index }
{
    let next = index + 1;
    move_halves(work, from, to, index);
    move_halves(work, from + next, to + index, n - next);
}

// The same record at a place of the list.
pub fn write_record(work: &mut [u8], x: Listed, to: Cursor)
    requires { Located work.old x × Writable x to.a to.e to.o }
    ensures { Wrote work.old work.new x to.a to.e to.o }
{
    move_halves(work, x.e, to.e, x.ne);
    finish(work, x, to);
}
