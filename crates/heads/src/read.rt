// The settled list, read while words are written behind it.
ghost use Rattle.std.specs.Prelude.{◌≡◌, ◌+◌, ◌<◌};
ghost use Rattle.planned.specs.Layout.{half};
ghost use Rattle.planned.specs.List.{Laid, Located};
ghost use Rattle.planned.specs.Reading.{OnTrack};
ghost use Rattle.heads.specs.Front.{ReadHere};

use planned::halves::half;
use planned::list::{Cursor, Listed, Sizes};
use planned::read::{Read, read_settled};

// The settled alternative at a position, and the next position. Its parts are told by the positions, so that they stand in the list.
pub fn read_here(work: &[u8], l: Sizes, c: Cursor) -> Read
    requires { Laid work.now l × OnTrack work.now l c × (c.a < l.out.a) }
    ensures { ReadHere work.now l c result.x result.next }
{
    let r = read_settled(work, l, c);
    let x = r.x;
    let next = r.next;
    Read {
        x: Listed {
            ne: next.e - c.e,
            no: next.o - c.o,
            e: c.e,
            o: Sizes::FIRST_OPTION + c.o,
            ..x
        },
        next,
    }
}

// Where the option at an index of an alternative stands in the sheet.
pub fn option_place(work: &[u8], x: Listed, i: usize) -> usize
    requires { Located work.now x × (i < x.no) }
    ensures { result ≡ half work.now (x.o + i) }
{
    let at = x.o + i;
    usize::from(half(work, at))
}
