// The plans of a sheet, for callers in other languages: the decision for one of its cycles, and the first plan, as
// `plan` makes them.
#![tactic(auto)]

mod first;
mod nth;
mod told;

ghost use Rattle.std.specs.Prelude.{◌≡◌, length};
ghost use Rattle.sheet.specs.Answer.{read_lent, work_after};
ghost use Rattle.facts.specs.Told.{reading_of};
ghost use Rattle.plans.specs.Told.{NthTold, FirstTold};

use crate::first::{choice_in, decide_first, members_in};
use crate::nth::decide_nth;
use crate::told::{leave, tell};
use analysis::ruled::Ruled;
use facts::reading_of;
use hub::preserved::Preserved;
use sheet::read;
use sheet::refused::refusal_numbers;
use words::sheet::Sheet;

// The decision for the nth cycle of a sheet, in numbers; 0 is the cycle with the least id. The reading of left corners is the
// original's where `textbook` is 0. Where there is a plan, its list is left in the work area; else that ends as after `read`.
pub fn plan_nth(
    sheet: &[u8],
    work: &mut [u8],
    textbook: u32,
    nth: u32,
    numbers: &mut [u32; 8],
    removable: &mut [u64; 2],
)
    ensures nth_told { NthTold (reading_of textbook) nth sheet.now (read_lent sheet.now work.old)
        (work_after sheet.now work.old) work.new numbers.new removable.new }
    ensures length_stays { length work.new ≡ length work.old }
{
    match read(sheet, work) {
        Err(refusal) => {
            *numbers = refusal_numbers(refusal);
            *removable = [0; 2];
        }
        Ok(r) => {
            let end = r.parts.rules_end();
            let to = r.parts.preserved_end();
            let s = Sheet { bytes: sheet, end };
            let g = Ruled {
                s: &s,
                rules: &r.rules,
            };
            let preserved = Preserved {
                ids: &sheet[4 * end..4 * to],
            };
            let decided = decide_nth(&g, &preserved, reading_of(textbook), nth, work);
            let choice = decided.choice;
            let t = tell(decided.cycles, choice);
            let told = t.numbers;
            let row = t.row;
            leave(choice, work);
            *numbers = told;
            *removable = row;
        }
    }
}

// The first cycle of a sheet that has a plan, in numbers, and the clauses by which the cycles in front of it were declined; else
// as above.
// Stays: what was read is opened as above. Each of its values borrows the one in front, so that a function for them would take what
// follows as a closure, and state of any closure what it may ask and what it answers.
pub fn first_plan(
    sheet: &[u8],
    work: &mut [u8],
    textbook: u32,
    numbers: &mut [u32; 8],
    cycle: &mut [u64; 2],
    removable: &mut [u64; 2],
    clauses: &mut [u32; 128],
)
    ensures first_told { FirstTold (reading_of textbook) sheet.now (read_lent sheet.now work.old)
        (work_after sheet.now work.old) work.new numbers.new cycle.new
        removable.new clauses.new }
    ensures length_stays { length work.new ≡ length work.old }
{
    match read(sheet, work) {
        Err(refusal) => {
            *numbers = refusal_numbers(refusal);
            *cycle = [0; 2];
            *removable = [0; 2];
            *clauses = [0; 128];
        }
        Ok(r) => {
            let end = r.parts.rules_end();
            let to = r.parts.preserved_end();
            let s = Sheet { bytes: sheet, end };
            let g = Ruled {
                s: &s,
                rules: &r.rules,
            };
            let preserved = Preserved {
                ids: &sheet[4 * end..4 * to],
            };
            let found = decide_first(&g, &preserved, reading_of(textbook), work);
            let declines = found.clauses;
            let answer = found.answer;
            let choice = choice_in(answer);
            let t = tell(found.declined, choice);
            let told = t.numbers;
            let row = t.row;
            leave(choice, work);
            *numbers = told;
            *cycle = members_in(answer);
            *removable = row;
            *clauses = declines;
        }
    }
}
