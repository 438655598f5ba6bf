// The newest words of what passed refusals 3 and 4.
ghost use Rattle.std.specs.Prelude.{◌≡◌, length};
ghost use Rattle.grammar.specs.Words.{words};
ghost use Rattle.grammar.specs.Reading.{sheet_of};
ghost use Rattle.convert.specs.Newest.{Behind, Finished, InFront, Readable, Widenable};

use crate::walk::{Place, widen_rules};
use words::sheet::Sheet;
use writing::copy::{copy_words, write};

// The preserved ids and the trailer behind the rules. The trailer's first distance, which is where it begins, is counted anew.
fn finish(old: &[u8], t: usize, end: usize, wide: &mut [u8], to: usize) -> usize
    requires lent { Widenable old.now wide.old }
    requires bounds { Behind old.now t end to }
    ensures { Finished (words old.now) t end to wide.old wide.new result }
{
    let first = to + (t - end);
    copy_words(old, end, wide, to, t + 1 - end);
    write(wide, first + 1, first as u32);
    copy_words(old, t + 2, wide, first + 2, 6);
    first + 8
}

// Returned is how many words there are.
pub fn write_newest(old: &[u8], t: usize, end: usize, n: u32, wide: &mut [u8]) -> usize
    requires lent { Widenable old.now wide.old }
    requires readable { Readable old.now t end n }
    ensures written { (r : Readable old.now t end n) → InFront (sheet_of (words old.now) r.found.trees) wide.new result }
    ensures length_stays { length wide.new ≡ length wide.old }
{
    let sheet = Sheet { bytes: old, end };
    let p = widen_rules(&sheet, n, wide, Place { at: 0, to: 0 });
    finish(old, t, end, wide, p.to)
}
