// The sheet reader: any bytes are refused by a number (SPECIFICATION 4.1 to 4.6), or known to be one tree's encoding.
#![tactic(auto)]

pub mod answer;
mod counts;
mod judge;
pub mod refused;
pub mod trailer;

ghost use Rattle.std.specs.Prelude.{◌≡◌};
ghost use Rattle.sheet.specs.Answer.{ReadAs, read_lent, work_after};
ghost use Rattle.sheet.specs.Sizes.{SummedAs, numbers_of, ids_of, names_of, places_of};

use answer::{examine, is_length};
pub use answer::{Parts, Reading};
pub use counts::Sizes;
use counts::{counted, sheet_numbers};
use refused::refusal_numbers;
use words::numbers::{Refusal, Work};
use words::words::clear;

// Reads a sheet. The work area ends as it was under refusals 1 and 2, else all zeros.
pub fn read(sheet: &[u8], work: &mut [u8]) -> Result<Reading, Refusal>
    ensures read_as { ReadAs (read_lent sheet.now work.old) result }
    ensures work_after { work.new ≡ work_after sheet.now work.old }
{
    if !is_length(sheet.len()) {
        return Err(Refusal::BadLength);
    }
    if work.len() < Work::BYTES {
        return Err(Refusal::ShortBuffer);
    }
    let r = examine(sheet, work);
    clear(work);
    r
}

// What a sheet holds, or its refusal; the work area ends as after `read`.
pub fn summary(sheet: &[u8], work: &mut [u8]) -> Result<Sizes, Refusal>
    ensures summed_as { SummedAs (read_lent sheet.now work.old) result }
    ensures work_after { work.new ≡ work_after sheet.now work.old }
{
    let r = read(sheet, work)?;
    let n = r.rules.n;
    Ok(counted(sheet, r.parts, n))
}

// The whole answer in numbers, for callers in other languages; the work area ends as after `read`.
pub fn read_sheet(
    sheet: &[u8],
    work: &mut [u8],
    numbers: &mut [u32; 12],
    ids: &mut [u32; 128],
    names: &mut [u32; 128],
    places: &mut [u32; 128],
)
    ensures numbers_after { numbers.new ≡ numbers_of (read_lent sheet.now work.old) }
    ensures ids_after { ids.new ≡ ids_of (read_lent sheet.now work.old) }
    ensures names_after { names.new ≡ names_of (read_lent sheet.now work.old) }
    ensures places_after { places.new ≡ places_of (read_lent sheet.now work.old) }
    ensures work_after { work.new ≡ work_after sheet.now work.old }
{
    match read(sheet, work) {
        Err(refusal) => {
            *numbers = refusal_numbers(refusal);
            *ids = [0; 128];
            *names = [0; 128];
            *places = [0; 128];
        }
        Ok(r) => {
            let sizes = counted(sheet, r.parts, r.rules.n);
            *numbers = sheet_numbers(r.parts, sizes);
            ids.copy_from_slice(&r.rules.ids);
            names.copy_from_slice(&r.rules.names);
            places.copy_from_slice(&r.rules.places);
        }
    }
}
