// The listing of a sheet (SPECIFICATION 16.2), from standard input to standard output. A longer input is told by its first byte
// too many. What cannot be read or written is told on standard error, in a line that begins with the program's name.
#![tactic(auto)]

mod answer;
mod input;

use answer::{Told, list_answer};
use input::read_input;
use std::io::Error;
use words::numbers::Refusal;
use words::sheet::Sheet;

// Room for the longest listing.
#[derive(Drop)]
struct Text;

impl Text {
    const BYTES: usize = 270400;
}

// What cannot be read or written, and why. What standard error does not take is not told.
fn fail(rt: &impl Eprint, what: &str, error: Error) {
    let _ = rt.eprintln(format_args!("{what}: {error}"));
}

// What a refusal means (SPECIFICATION 4), in one sentence.
// Stays: these sentences are no `Display` for `Refusal`. A library of the project names nothing of std, and here the trait asks for one
// more type around the refusal, while they are told in one place.
fn meaning(refusal: Refusal) -> &'static str {
    match refusal {
        Refusal::BadLength =>
            "a sheet has at least 32 and at most 32,768 bytes, and a multiple of 4.",
        Refusal::ShortBuffer => "a buffer that the pass was lent is too short.",
        Refusal::BadTrailer =>
            "the trailer names no kind of unit, or its distances do not fit the sheet.",
        Refusal::BadRecord => {
            "a record is cut short or holds what it may not hold, or the preserved ids do not rise."
        }
        Refusal::SharedNumber => {
            "two rules share an id or a name, or two other nodes of one sort share an id."
        }
        Refusal::IdPastCounter => "an id is not below the counter of its sort.",
        Refusal::PlanTooLarge => {
            "a planned list has over 1,024 alternatives, 8,192 elements or 2,048 options."
        }
        Refusal::CounterPastEnd => "a plan would take a counter above 4,294,967,295.",
        Refusal::ResultTooLong => {
            "a plan would give a sheet of over 32,768 bytes or a trail of over 4,096 entries."
        }
    }
}

// The refusal by its number, and its meaning.
fn explain(rt: &impl Eprint, refusal: Refusal) {
    let number = u32::from(refusal);
    let meaning = meaning(refusal);
    let _ = rt.eprintln(format_args!("refused {number}: {meaning}"));
}

fn print(rt: &(impl Print + Eprint), sheet: &[u8]) {
    let mut text = [0; Text::BYTES];
    let Told { n, refusal } = list_answer(sheet, &mut text);
    if let Err(error) = rt.write_all(&text[..n]) {
        fail(rt, "listing: standard output cannot be written", error);
        return;
    }
    if let Some(refusal) = refusal {
        explain(rt, refusal);
    }
}

fn main(rt: HostRuntime) {
    let mut bytes = [0u8; Sheet::MOST_BYTES + 1];
    match read_input(&mut rt.stdin(), &mut bytes) {
        Err(error) => fail(&rt, "listing: standard input cannot be read", error),
        Ok(n) => print(&rt, &bytes[..n]),
    }
}
