// The pass for callers in C and Rust: the exported functions are those of `pass`, with their contracts.
#![tactic(auto)]

ghost use Rattle.grammar.specs.Corners.{rust, textbook};
ghost use Rattle.pass.specs.Handed.{HandedOver};

// The pass by the original's reading of left corners. The numbers are the refusal's or 0, plans, steps, and the bytes of result and
// trail.
#[unsafe(no_mangle)]
pub extern "C" fn pass(
    sheet: &[u8],
    res: &mut [u8],
    trail: &mut [u8],
    work: &mut [u8],
    numbers: &mut [u32; 5],
)
    ensures { HandedOver rust sheet.now res.old trail.old work.old
        numbers.new res.new trail.new work.new }
{
    pass::pass(sheet, res, trail, work, numbers);
}

// The pass by the textbook's reading.
#[unsafe(no_mangle)]
pub extern "C" fn pass_textbook(
    sheet: &[u8],
    res: &mut [u8],
    trail: &mut [u8],
    work: &mut [u8],
    numbers: &mut [u32; 5],
)
    ensures { HandedOver textbook sheet.now res.old trail.old work.old
        numbers.new res.new trail.new work.new }
{
    pass::pass_textbook(sheet, res, trail, work, numbers);
}
