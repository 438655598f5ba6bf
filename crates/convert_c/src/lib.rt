// The conversion for callers in C and Rust: the exported function is that of `convert`, with its contract.
#![tactic(auto)]

ghost use Rattle.convert.specs.Converted.{HandedOver};

// The same tree in the newest words. The numbers are the refusal's or 0, and the length of the new sheet in bytes.
#[unsafe(no_mangle)]
pub extern "C" fn convert(sheet: &[u8], res: &mut [u8], work: &mut [u8], numbers: &mut [u32; 2])
    ensures { HandedOver sheet.now res.old work.old numbers.new res.new work.new }
{
    convert::convert(sheet, res, work, numbers);
}
