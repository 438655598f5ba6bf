// What is found out about a sheet, for callers in other languages: its facts and its cycles, as `analysis` and `reach` find
// them.
#![tactic(auto)]

ghost use Rattle.std.specs.Prelude.{◌≡◌, ◌≤◌, length, replicate};
ghost use Rattle.grammar.specs.Numbers.{work_bytes};
ghost use Rattle.sheet.specs.Answer.{read_lent, work_after, ReadAs};
ghost use Rattle.analysis.specs.Corners.{corners_of};
ghost use Rattle.analysis.specs.Rounds.{no_rows};
ghost use Rattle.facts.specs.Told.{reading_of, RulesTold, Tells};
ghost use Rattle.reach.specs.Listed.{CyclesIn};
ghost use Rattle.words.specs.Sheet.{text};

use analysis::corners::Corners;
use analysis::rounds::{Marks, Rows, find_rows};
use analysis::ruled::Ruled;
use reach::cycles::list_cycles;
use reach::rows::Row;
use sheet::refused::refusal_numbers;
use sheet::{Reading, read};
use words::numbers::Refusal;
use words::sheet::Sheet;
use words::words::clear;

// The reading that a caller in another language asks for: the original's by 0.
#[tactic(auto, using(crate::proofs::Laws::Told::readings))]
pub fn reading_of(textbook: u32) -> Corners
    ensures { corners_of result ≡ reading_of textbook }
{
    match textbook {
        0 => Corners::Rust,
        _ => Corners::Textbook,
    }
}

// The marks of all rules, and the number of cycles.
#[derive(Clone, Copy, Debug, PartialEq, Eq)]
struct Told {
    marks: Marks,
    cycles: u32,
}

// The reader has a frame of its own, which is gone before anything is told.
#[inline(never)]
fn read_alone(sheet: &[u8], work: &mut [u8]) -> Result<Reading, Refusal>
    ensures read_as { ReadAs (read_lent sheet.now work.old) result }
    ensures work_after { work.new ≡ work_after sheet.now work.old }
{
    read(sheet, work)
}

// The cycles, by the left corners of the rules. The rows that this takes by value stand on the stack here alone.
#[inline(never)]
fn list(g: &Ruled, rows: &Rows, cycles: &mut [[u64; Row::WORDS]; Row::RULES]) -> u32
    ensures { CyclesIn rows.now.corners g.now.rules.now.ids g.now.rules.now.n cycles.old cycles.new result }
{
    let ids = g.rules.ids;
    list_cycles(rows.corners, ids, g.rules.n as usize, cycles)
}

// The facts and cycles of rules that stand in a sheet; the cycles that are lent are zeros. The work area ends so too. It has a frame
// of its own, since its rows take 4 KB.
#[inline(never)]
fn tell(
    g: &Ruled,
    reading: Corners,
    calls: &mut [[u64; Row::WORDS]; Row::RULES],
    corners: &mut [[u64; Row::WORDS]; Row::RULES],
    cycles: &mut [[u64; Row::WORDS]; Row::RULES],
    work: &mut [u8],
) -> Told
    requires bounds { work_bytes ≤ length work.old }
    requires none { cycles.old ≡ no_rows }
    ensures rules_told { RulesTold (text g.now.s.now) g.now.s.now.end g.now.rules.now (corners_of reading) result.marks result.cycles
        calls.new corners.new cycles.new }
    ensures work_after { work.new ≡ replicate (length work.old) 0 }
{
    let mut rows = Rows::empty();
    let marks = find_rows(g, reading, &mut rows, work);
    let cycles = list(g, &rows, cycles);
    *calls = rows.calls;
    *corners = rows.corners;
    clear(work);
    Told { marks, cycles }
}

// What is found out about a sheet, for callers in other languages: of the rules in the order of the sheet, and of the
// cycles in theirs. The reading of left corners is the original's where `textbook` is 0. The work area ends as after `read`.
pub fn find_facts(
    sheet: &[u8],
    work: &mut [u8],
    textbook: u32,
    numbers: &mut [u32; 3],
    marks: &mut [u64; 4],
    calls: &mut [[u64; 2]; 128],
    corners: &mut [[u64; 2]; 128],
    cycles: &mut [[u64; 2]; 128],
)
    ensures tells { Tells (reading_of textbook) (read_lent sheet.now work.old) numbers.new
        marks.new calls.new corners.new cycles.new }
    ensures work_after { work.new ≡ work_after sheet.now work.old }
{
    *cycles = [[0; Row::WORDS]; Row::RULES];
    match read_alone(sheet, work) {
        Err(refusal) => {
            *numbers = refusal_numbers(refusal);
            *marks = [0; 4];
            *calls = [[0; Row::WORDS]; Row::RULES];
            *corners = [[0; Row::WORDS]; Row::RULES];
        }
        Ok(r) => {
            let end = r.parts.rules_end();
            let s = Sheet { bytes: sheet, end };
            let g = Ruled {
                s: &s,
                rules: &r.rules,
            };
            let t = tell(&g, reading_of(textbook), calls, corners, cycles, work);
            let nullable = t.marks.nullable;
            let stops = t.marks.stops;
            *numbers = [0, r.rules.n, t.cycles];
            *marks = [nullable[0], nullable[1], stops[0], stops[1]];
        }
    }
}
