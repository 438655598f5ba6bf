// The entries: total on all bytes and buffers (SPECIFICATION 3).
ghost use Rattle.std.specs.Prelude.{◌≤◌, length};
ghost use Rattle.grammar.specs.Corners.{rust, textbook};
ghost use Rattle.grammar.specs.Laws.Words.{AreBytes};
ghost use Rattle.analysis.specs.Corners.{corners_of};
ghost use Rattle.pass.specs.Handed.{ClearedFrom, Handed, Lent};

use crate::answer::Totals;
use crate::clearing::clear_from;
use crate::deliver::deliver;
use crate::lent::are_lent;
use analysis::corners::Corners;
use sheet::answer::is_length;
use words::numbers::Refusal;

// The bytes of a word, and of an entry.
#[derive(Drop)]
pub struct Bytes;

impl Bytes {
    pub const WORD: usize = 4;

    pub const ENTRY: usize = 16;
}

// Zeros from a place of each buffer on; nothing of the work area stays.
fn wipe(res: &mut [u8], trail: &mut [u8], work: &mut [u8], at: usize, to: usize)
    requires { (at ≤ length res.old) × (to ≤ length trail.old) }
    ensures { ClearedFrom res.old res.new at × ClearedFrom trail.old trail.new to
        × ClearedFrom work.old work.new 0 }
{
    clear_from(res, at);
    clear_from(trail, to);
    clear_from(work, 0);
}

// The answer to a sheet of good length, with zeros behind what the buffers hold. Not to be inlined: where a function tests its
// arguments in front of a large frame, LLVM's stack probe overwrites a register that still holds one of them.
#[inline(never)]
fn hand(
    sheet: &[u8],
    res: &mut [u8],
    trail: &mut [u8],
    work: &mut [u8],
    reading: Corners,
) -> Result<Totals, Refusal>
    requires { Lent sheet.now res.old trail.old work.old × AreBytes sheet.now }
    ensures { Handed (corners_of reading) sheet.now res.old trail.old work.old result
        res.new trail.new work.new }
{
    match deliver(sheet, res, trail, work, reading) {
        Err(refusal) => {
            wipe(res, trail, work, 0, 0);
            Err(refusal)
        }
        Ok(e) => {
            let at = Bytes::WORD * e.words;
            let to = Bytes::ENTRY * e.entries;
            wipe(res, trail, work, at, to);
            Ok(Totals {
                plans: e.plans,
                steps: e.steps,
                result: at as u32,
                trail: to as u32,
            })
        }
    }
}

// Lengths first: under refusals 1 and 2 nothing is touched.
fn call(
    sheet: &[u8],
    res: &mut [u8],
    trail: &mut [u8],
    work: &mut [u8],
    reading: Corners,
) -> Result<Totals, Refusal>
    ensures { Handed (corners_of reading) sheet.now res.old trail.old work.old result
        res.new trail.new work.new }
{
    if !is_length(sheet.len()) {
        return Err(Refusal::BadLength);
    }
    if !are_lent(res.len(), trail.len(), work.len()) {
        return Err(Refusal::ShortBuffer);
    }
    hand(sheet, res, trail, work, reading)
}

// The pass by the original's reading of left corners.
// Stays: there is an entry for each reading, as in the C interface. They differ in the reading alone, and `call` stands under both.
pub fn pass(
    sheet: &[u8],
    res: &mut [u8],
    trail: &mut [u8],
    work: &mut [u8],
) -> Result<Totals, Refusal>
    ensures { Handed rust sheet.now res.old trail.old work.old result
        res.new trail.new work.new }
{
    call(sheet, res, trail, work, Corners::Rust)
}

// The pass by the textbook's reading.
pub fn pass_textbook(
    sheet: &[u8],
    res: &mut [u8],
    trail: &mut [u8],
    work: &mut [u8],
) -> Result<Totals, Refusal>
    ensures { Handed textbook sheet.now res.old trail.old work.old result
        res.new trail.new work.new }
{
    call(sheet, res, trail, work, Corners::Textbook)
}
