// The pass over one sheet (SPECIFICATION 1): the entries, as functions with a Result for an answer, and for callers in other languages.
#![tactic(auto)]

mod answer;
mod clearing;
mod deliver;
pub mod entry;
mod lent;

ghost use Rattle.grammar.specs.Corners.{rust, textbook};
ghost use Rattle.pass.specs.Handed.{HandedOver};

pub use answer::Totals;
use answer::told;

// The pass by the original's reading of left corners. The numbers are the refusal's or 0, plans, steps, and the bytes of result and
// trail.
// Stays: there is a function for each reading, since both are what the C interface exports.
pub fn pass(sheet: &[u8], res: &mut [u8], trail: &mut [u8], work: &mut [u8], numbers: &mut [u32; 5])
    ensures { HandedOver rust sheet.now res.old trail.old work.old
        numbers.new res.new trail.new work.new }
{
    let a = entry::pass(sheet, res, trail, work);
    *numbers = told(a);
}

// The pass by the textbook's reading.
pub fn pass_textbook(
    sheet: &[u8],
    res: &mut [u8],
    trail: &mut [u8],
    work: &mut [u8],
    numbers: &mut [u32; 5],
)
    ensures { HandedOver textbook sheet.now res.old trail.old work.old
        numbers.new res.new trail.new work.new }
{
    let a = entry::pass_textbook(sheet, res, trail, work);
    *numbers = told(a);
}
