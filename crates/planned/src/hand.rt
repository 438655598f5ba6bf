// The alternative in hand: how it comes there, and the two that it is split into.
ghost use Rattle.std.specs.Prelude.{◌≡◌, ◌-◌, ◌*◌, ◌<◌};
ghost use Rattle.planned.specs.Layout.{marked, place_of};
ghost use Rattle.planned.specs.List.{Laid, HasRoom, Located, Movable, InList, InHand};
ghost use Rattle.planned.specs.Moves.{Handed, PushedSplit};
ghost use Rattle.planned.specs.Written.{Writable};
ghost use Rattle.planned.specs.Laws.Kept.{with_top};
ghost use Rattle.planned.specs.Split.{MadePlain, WrotePresent, BareOf, PushedAbsent, PushedPresent};

use crate::halves::{half, move_halves, put_half};
use crate::list::{Cursor, Hand, Listed, Mark, Sizes};
use crate::record::{copy_without, finish, write_record};

// The top just taken comes into the hand.
pub fn into_hand(work: &mut [u8], l: Sizes, x: Listed) -> Listed
    requires { Laid work.old l × Located work.old x × Movable l x × InList x }
    ensures { Handed work.old work.new l x result }
{
    let e = Hand::END - x.ne;
    move_halves(work, x.e, e, x.ne);
    move_halves(work, x.o, Hand::OPTIONS, x.no);
    Listed {
        e,
        o: Hand::OPTIONS,
        ..x
    }
}

// A place without its mark.
// Stays: this is no twin of `place` in `collisions`, which takes two marks off an entry, at other bits.
pub fn place(h: u16) -> u16
    ensures { (result ≡ place_of h) × (result < marked) }
{
    if h < Mark::BIT { h } else { h - Mark::BIT }
}

// The half of an element, with the mark.
fn plain(h: u16) -> u16
    ensures { MadePlain h result }
{
    if h < Mark::BIT { h + Mark::BIT } else { h }
}

// What an alternative is split into no longer fills the slot as it always did.
fn bare(h: Listed) -> Listed
    ensures { BareOf h result }
{
    let slot = place(h.slot);
    Listed { slot, ..h }
}

// One alternative more on the stack, of so many elements and options.
fn taller(l: Sizes, ne: usize, no: usize) -> Sizes
    requires { HasRoom l 1 ne no }
    ensures { result ≡ with_top l (l.top.a - 1) (l.top.e - ne) (l.top.o - no) }
{
    Sizes {
        top: Cursor {
            a: l.top.a - 1,
            e: l.top.e - ne,
            o: l.top.o - no,
        },
        ..l
    }
}

// The alternative in hand without the element at an index comes on the stack.
fn push_absent(work: &mut [u8], l: Sizes, x: Listed, index: usize) -> Sizes
    requires laid { Laid work.old l × Located work.old x × InHand x × HasRoom l 1 (x.ne - 1) x.no }
    requires index_lt_ne { (index < x.ne) × (x.slot < marked) }
    ensures { PushedAbsent work.old work.new l result x index }
{
    let ne = x.ne - 1;
    let r = taller(l, ne, x.no);
    copy_without(work, x.e, r.top.e, x.ne, index);
    finish(work, Listed { ne, ..x }, r.top);
    r
}

// A record at a place of the list, with the element at an index made plain.
fn write_present(work: &mut [u8], x: Listed, index: usize, to: Cursor)
    requires { Located work.old x × Writable x to.a to.e to.o × (index < x.ne) }
    ensures { WrotePresent work.old work.new x index to.a to.e to.o }
{
    let v = plain(half(work, x.e + index));
    write_record(work, x, to);
    put_half(work, to.e + index, v);
}

// The alternative in hand with the element at an index made plain comes on the stack.
fn push_present(work: &mut [u8], l: Sizes, x: Listed, index: usize) -> Sizes
    requires laid { Laid work.old l × Located work.old x × InHand x × HasRoom l 1 x.ne x.no }
    requires index_lt_ne { (index < x.ne) × (x.slot < marked) }
    ensures { PushedPresent work.old work.new l result x index }
{
    let r = taller(l, x.ne, x.no);
    write_present(work, x, index, r.top);
    r
}

// The alternative in hand is split at an optional call: with the call made plain, on top, and without it.
pub fn push_split(work: &mut [u8], l: Sizes, h: Listed, index: usize) -> Sizes
    requires laid { Laid work.old l × Located work.old h × InHand h × (index < h.ne) }
    requires has_room { HasRoom l 2 (2 * h.ne - 1) (2 * h.no) }
    ensures { PushedSplit work.old work.new l result h index }
{
    let x = bare(h);
    let below = push_absent(work, l, x, index);
    push_present(work, below, x, index)
}
