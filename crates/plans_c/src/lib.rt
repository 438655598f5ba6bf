// The plans of a sheet for callers in C and Rust: the exported functions are those of `plans`, with their contracts.
#![tactic(auto)]

ghost use Rattle.std.specs.Prelude.{◌≡◌, length};
ghost use Rattle.sheet.specs.Answer.{read_lent, work_after};
ghost use Rattle.facts.specs.Told.{reading_of};
ghost use Rattle.plans.specs.Told.{NthTold, FirstTold};

// The decision for the nth cycle of a sheet, in numbers; 0 is the cycle with the least id. The reading of left corners is the
// original's where `textbook` is 0. Where there is a plan, its list is left in the work area; else that ends as after `read`.
#[unsafe(no_mangle)]
pub extern "C" fn plan_nth(
    sheet: &[u8],
    work: &mut [u8],
    textbook: u32,
    nth: u32,
    numbers: &mut [u32; 8],
    removable: &mut [u64; 2],
)
    ensures nth_told { NthTold (reading_of textbook) nth sheet.now (read_lent sheet.now work.old)
        (work_after sheet.now work.old) work.new numbers.new removable.new }
    ensures length_stays { length work.new ≡ length work.old }
{
    plans::plan_nth(sheet, work, textbook, nth, numbers, removable);
}

// The first cycle of a sheet that has a plan, in numbers, and the clauses by which the cycles in front of it were declined; else
// as above.
#[unsafe(no_mangle)]
pub extern "C" fn first_plan(
    sheet: &[u8],
    work: &mut [u8],
    textbook: u32,
    numbers: &mut [u32; 8],
    cycle: &mut [u64; 2],
    removable: &mut [u64; 2],
    clauses: &mut [u32; 128],
)
    ensures first_told { FirstTold (reading_of textbook) sheet.now (read_lent sheet.now work.old)
        (work_after sheet.now work.old) work.new numbers.new cycle.new
        removable.new clauses.new }
    ensures length_stays { length work.new ≡ length work.old }
{
    plans::first_plan(sheet, work, textbook, numbers, cycle, removable, clauses);
}
