// The conversion of a sheet of the first form, whose calls have two words: the same tree in the newest words.
#![tactic(auto)]

mod answer;
pub mod entry;
mod newest;
mod walk;
mod widen;

ghost use Rattle.convert.specs.Converted.{HandedOver};

use answer::told;

// The conversion for callers in other languages. The numbers are the refusal's or 0, and the length of the new sheet in bytes.
pub fn convert(sheet: &[u8], res: &mut [u8], work: &mut [u8], numbers: &mut [u32; 2])
    ensures { HandedOver sheet.now res.old work.old numbers.new res.new work.new }
{
    let a = entry::convert(sheet, res, work);
    *numbers = told(a);
}
