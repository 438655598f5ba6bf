// A plan applied: its sizes are judged, the new sheet is composed in the work area, and copied to the result.
ghost use Rattle.std.specs.Prelude.{◌≡◌, ◌≤◌, length};
ghost use Rattle.grammar.specs.Numbers.{most_words};
ghost use Rattle.grammar.specs.Tree.{inner_depth};
ghost use Rattle.reference.specs.Numbers.{most_entries};
ghost use Rattle.planned.specs.Layout.{settled};
ghost use Rattle.sizes.specs.Sized.{Measured};
ghost use Rattle.words.specs.Sheet.{text};
ghost use Rattle.apply.specs.Applied.{Buffers, Applicable, AppliedOf, WordsAfter, EntriesAfter, RefusedBy};

use crate::judge::{ids_in, judge};
use crate::left::words_left;
use compose::compose::compose;
use copies::pen::Pen;
use drafts::draft::Draft;
use plan::plan::Plan;
use records::rules::Rules;
use sizes::measure::measure;
use sizes::sums::Measure;
use words::numbers::Refusal;
use words::sheet::Sheet;
use writing::copy::copy_words;
use writing::counters::Counters;

// The rules and counters of the sheet in the result, where its rules and its preserved ids end, in words, and how many entries the
// trail has.
#[derive(Clone, Copy, Debug, PartialEq, Eq)]
pub struct Applied {
    pub rules: Rules,
    pub counters: Counters,
    pub end: usize,
    pub to: usize,
    pub entries: usize,
}

// An entry's words, and those of a rule in front of its alternatives.
#[derive(Drop)]
pub struct Fixed;

impl Fixed {
    pub const ENTRY: usize = 4;

    pub const RULE: usize = 4;
}

// The words of the new sheet.
fn words_after(s: &Sheet, to: usize, rules: Rules, p: Plan, work: &[u8], m: Measure) -> usize
    requires applicable { Applicable s.now.bytes.now work.now s.now.end to rules p }
    requires measured { Measured inner_depth (settled (text s.now) s.now.end inner_depth work.now p.l) m }
    ensures { WordsAfter s.now.bytes.now work.now s.now.end to rules p result }
{
    let n = rules.n as usize;
    let row = p.removable;
    let front = words_left(s.bytes, s.end, rules, row, 0, p.hub);
    let rest = words_left(s.bytes, s.end, rules, row, p.hub + 1, n);
    front + (Fixed::RULE + m.words) + rest + (to - s.end) + Sheet::TRAILER_WORDS
}

// The new sheet of n words, composed and copied; the trail has so many entries then.
// Stays: result, trail and work area are three parameters, here and in `run` and `pass`. Of a lent struct of the three, two fields are wanted at
// once here, in `apply` and in `take_turn`, and Rattle's borrow checker does not cover that behind a reference. By value, callers that go
// on with the buffers would take it apart and make it anew.
fn put(
    res: &mut [u8],
    trail: &mut [u8],
    work: &mut [u8],
    before: Applied,
    p: Plan,
    n: usize,
    entries: usize,
) -> Applied
    requires buffers { Buffers res.old trail.old work.old × (before.entries ≤ most_entries) × (n ≤ most_words)
        × (before.end ≤ before.to) × (before.to ≤ most_words) }
    requires applicable { Applicable res.old work.old before.end before.to before.rules p
        × RefusedBy res.old work.old before.end before.to before.rules p before.counters before.entries 0 }
    requires words_after { WordsAfter res.old work.old before.end before.to before.rules p n
        × EntriesAfter res.old work.old before.end before.to before.rules p before.entries entries }
    ensures applied_of { AppliedOf res.old work.old before.end before.to before.rules before.counters p before.entries
        res.new trail.old trail.new (Ok result) }
    ensures lengths_stay { (length res.new ≡ length res.old)
        × (length trail.new ≡ length trail.old) × (length work.new ≡ length work.old) }
{
    let rules = before.rules;
    let counters = before.counters;
    let end = before.end;
    let to = before.to;
    let pen = Pen {
        to: Draft::FIRST,
        trail: Fixed::ENTRY * before.entries,
        counters,
    };
    let preserved = to - end;
    let k = compose(res, end, to, rules, p, work, trail, pen);
    copy_words(work, Draft::FIRST, res, 0, n);
    let left = k.rules;
    let behind = k.pen.counters;
    Applied {
        rules: left,
        counters: behind,
        end: k.end,
        to: k.end + preserved,
        entries,
    }
}

// The plan p for the sheet in the result, with what is known of it before; `room` are the words that the new sheet may have.
pub fn apply(
    res: &mut [u8],
    trail: &mut [u8],
    work: &mut [u8],
    before: Applied,
    room: usize,
    p: Plan,
) -> Result<Applied, Refusal>
    requires buffers { Buffers res.old trail.old work.old × (before.entries ≤ most_entries) × (room ≡ most_words) }
    requires applicable { Applicable res.old work.old before.end before.to before.rules p }
    ensures applied_of { AppliedOf res.old work.old before.end before.to before.rules before.counters p before.entries
        res.new trail.old trail.new result }
    ensures lengths_stay { (length res.new ≡ length res.old)
        × (length trail.new ≡ length trail.old) × (length work.new ≡ length work.old) }
{
    let rules = before.rules;
    let counters = before.counters;
    let end = before.end;
    let recorded = before.entries;
    let l = p.l;
    let s = Sheet { bytes: res, end };
    let m = measure(&s, work, l);
    let n = words_after(&s, before.to, rules, p, work, m);
    judge(counters, m, n, room, recorded)?;
    let entries = recorded + ids_in(m) + 1;
    Ok(put(res, trail, work, before, p, n, entries))
}
