// What stands behind the rules: the preserved ids, and the trailer.
ghost use Rattle.std.specs.Prelude.{◌+◌, ◌-◌, ◌≤◌, length};
ghost use Rattle.grammar.specs.Numbers.{work_bytes};
ghost use Rattle.words.specs.Room.{Room};
ghost use Rattle.writing.specs.Wrote.{Wrote};
ghost use Rattle.heads.specs.Front.{compose_at};
ghost use Rattle.drafts.specs.Draft.{compose_end};
ghost use Rattle.compose.specs.Hub.{Moved, trailer_words, end_words};
ghost use Rattle.words.specs.Sheet.{text};

use copies::pen::{Pen, write_words};
use drafts::draft::Draft;
use words::sheet::Sheet;
use words::words::word;
use writing::copy::copy_words;

// The kind stays; the distances are those from the new sheet's first word; behind them are the counters.
fn write_trailer(s: &Sheet, to: usize, work: &mut [u8], pen: Pen)
    requires bounds { Room s.now.bytes.now to × (s.now.end ≤ to) × (compose_at ≤ pen.to) × (work_bytes ≤ length work.old) }
    requires end_bound { pen.to + (to - s.now.end) + 8 ≤ compose_end }
    ensures { Wrote work.old work.new (pen.to + (to - s.now.end))
        (trailer_words (text s.now) s.now.end to pen) }
{
    let n = to - s.end;
    let first = (pen.to - Draft::FIRST + n) as u32;
    let c = pen.counters;
    let trailer = [
        word(s.bytes, to),
        first,
        n as u32,
        c.alternative,
        c.element,
        c.label,
        c.action,
        c.predicate,
    ];
    write_words(work, pen.to + n, &trailer);
}

pub fn write_end(s: &Sheet, to: usize, work: &mut [u8], pen: Pen) -> Pen
    requires bounds { Room s.now.bytes.now to × (s.now.end ≤ to) × (compose_at ≤ pen.to) × (work_bytes ≤ length work.old) }
    requires end_bound { pen.to + (to - s.now.end) + 8 ≤ compose_end }
    ensures { Moved (end_words (text s.now) s.now.end to pen) work.old work.new pen result }
{
    let n = to - s.end;
    copy_words(s.bytes, s.end, work, pen.to, n);
    write_trailer(s, to, work, pen);
    Pen {
        to: pen.to + n + 8,
        ..pen
    }
}
