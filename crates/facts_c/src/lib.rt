// The facts of a sheet for callers in C and Rust: the exported function is that of `facts`, with its contract.
#![tactic(auto)]

ghost use Rattle.sheet.specs.Answer.{read_lent, work_after};
ghost use Rattle.std.specs.Prelude.{◌≡◌};
ghost use Rattle.facts.specs.Told.{reading_of, Tells};

// What is found out about a sheet, for callers in other languages: of the rules in the order of the sheet, and of the
// cycles in theirs. The reading of left corners is the original's where `textbook` is 0. The work area ends as after `read`.
#[unsafe(no_mangle)]
pub extern "C" fn find_facts(
    sheet: &[u8],
    work: &mut [u8],
    textbook: u32,
    numbers: &mut [u32; 3],
    marks: &mut [u64; 4],
    calls: &mut [[u64; 2]; 128],
    corners: &mut [[u64; 2]; 128],
    cycles: &mut [[u64; 2]; 128],
)
    ensures tells { Tells (reading_of textbook) (read_lent sheet.now work.old) numbers.new
        marks.new calls.new corners.new cycles.new }
    ensures work_after { work.new ≡ work_after sheet.now work.old }
{
    facts::find_facts(
        sheet, work, textbook, numbers, marks, calls, corners, cycles,
    );
}
