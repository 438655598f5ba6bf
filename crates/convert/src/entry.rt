// The entry: total on all bytes and buffers.
ghost use Rattle.std.specs.Prelude.{◌≡◌, ◌≤◌, length};
ghost use Rattle.grammar.specs.Form.{first_form};
ghost use Rattle.grammar.specs.Words.{words};
ghost use Rattle.grammar.specs.Convert.{newest_words};
ghost use Rattle.grammar.specs.Reading.{read_words_in};
ghost use Rattle.grammar.specs.Laws.Words.{AreBytes};
ghost use Rattle.convert.specs.Newest.{wide_bytes};
ghost use Rattle.convert.specs.Converted.{Answered, ClearedFrom, Handed, Lent, lent_by};

use crate::widen::widen;
use sheet::answer::{examine, is_length};
use words::numbers::{Refusal, Work};
use words::sheet::Sheet;
use words::words::clear;
use writing::copy::copy_words;

// What a caller lends beside the work area.
#[derive(Drop)]
pub struct Buffer;

impl Buffer {
    pub const RESULT: usize = 32768;
}

// Where the newest words are written first: a call has eight words at least, and one more then.
#[derive(Drop)]
pub struct Wide;

impl Wide {
    pub const BYTES: usize = 36864;
}

// Refusal 2 is given where this is false.
fn are_lent(res: usize, work: usize) -> bool
    ensures { result ≡ lent_by res work }
{
    (Buffer::RESULT <= res) & (Work::BYTES <= work)
}

// Zeros from `at` on.
fn clear_from(s: &mut [u8], at: usize)
    requires { at ≤ length s.old }
    ensures { ClearedFrom s.old s.new at }
{
    s[at..].fill(0);
}

fn wide_area() -> [u8; Wide::BYTES]
    ensures { length result ≡ wide_bytes }
{
    [0; Wide::BYTES]
}

// The refusal, or how many words the sheet has in the newest form. They stand in front of the result then. Ids are judged where the
// newest words stand, which may be more than a sheet has.
fn convert_words(sheet: &[u8], res: &mut [u8], work: &mut [u8]) -> Result<usize, Refusal>
    requires { Lent sheet.now res.old work.old }
    ensures answered { Answered (newest_words (read_words_in first_form (words sheet.now))) res.new result }
    ensures are_bytes { AreBytes res.new }
    ensures lengths_stay { (length res.new ≡ length res.old) × (length work.new ≡ length work.old) }
{
    let mut wide = wide_area();
    let n = widen(sheet, &mut wide)?;
    examine(&wide[..4 * n], work)?;
    if Sheet::MOST_BYTES / 4 < n {
        return Err(Refusal::ResultTooLong);
    }
    copy_words(&wide, 0, res, 0, n);
    Ok(n)
}

// The answer to a sheet of good length, with zeros behind what the result holds. Not to be inlined: where a function tests its
// arguments in front of a large frame, LLVM's stack probe overwrites a register that still holds one of them.
#[inline(never)]
fn hand(sheet: &[u8], res: &mut [u8], work: &mut [u8]) -> Result<u32, Refusal>
    requires { Lent sheet.now res.old work.old }
    ensures { Handed sheet.now res.old work.old result res.new work.new }
{
    match convert_words(sheet, res, work) {
        Err(refusal) => {
            clear(res);
            clear(work);
            Err(refusal)
        }
        Ok(n) => {
            let length = 4 * n;
            clear_from(res, length);
            clear(work);
            Ok(length as u32)
        }
    }
}

// A sheet of the first form in the newest words: how many bytes of the result it takes. Lengths first: under refusals 1 and 2 nothing is
// touched.
pub fn convert(sheet: &[u8], res: &mut [u8], work: &mut [u8]) -> Result<u32, Refusal>
    ensures { Handed sheet.now res.old work.old result res.new work.new }
{
    if !is_length(sheet.len()) {
        return Err(Refusal::BadLength);
    }
    if !are_lent(res.len(), work.len()) {
        return Err(Refusal::ShortBuffer);
    }
    hand(sheet, res, work)
}
