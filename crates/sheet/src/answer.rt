// The reader's answer.
ghost use Rattle.std.specs.Prelude.{◌≡◌, ◌+◌, length, get_or};
ghost use Rattle.grammar.specs.Words.{words};
ghost use Rattle.grammar.specs.Parse.{got};
ghost use Rattle.grammar.specs.Reading.{is_length, judge, read_words};
ghost use Rattle.records.specs.Rules.{FoundRows};
ghost use Rattle.words.specs.Kinds.{unit_number};
ghost use Rattle.sheet.specs.Answer.{EndAt, Lent, ReadAs, reading_of};

use crate::judge::judge;
use crate::trailer::Trailer;
use ids::lists::is_rising;
use records::rules::{Rules, read_rules};
use words::numbers::{Refusal, UnitKind};
use words::sheet::Sheet;
use writing::counters::Counters;

// The sheet's parts: unit kind; the preserved list's place, in words, and how many ids it has; counters.
#[derive(Clone, Copy, Debug, PartialEq, Eq)]
pub struct Parts {
    pub kind: UnitKind,
    pub preserved: u32,
    pub count: u32,
    pub counters: Counters,
}

impl Parts {
    // Where the rules end and the preserved list begins, in words.
    pub fn rules_end(self) -> usize
        ensures { result ≡ self.preserved }
    {
        self.preserved as usize
    }

    // Where the preserved list ends, in words.
    pub fn preserved_end(self) -> usize
        ensures { result ≡ self.preserved + self.count }
    {
        self.preserved as usize + self.count as usize
    }
}

// What is read of a sheet.
#[derive(Clone, Copy, Debug, PartialEq, Eq)]
pub struct Reading {
    pub parts: Parts,
    pub rules: Rules,
}

// Refusal 1 is given where this is false.
pub fn is_length(n: usize) -> bool
    ensures { result ≡ is_length n }
{
    Sheet::LEAST_BYTES <= n && n <= Sheet::MOST_BYTES && n % 4 == 0
}

// Refusals 5 and 6, or the parts of the sheet; its records are good. The rules are lent, so that their arrays stand once.
fn judged(
    trailer: &Trailer,
    end: usize,
    kind: UnitKind,
    rules: &Rules,
    work: &mut [u8],
) -> Result<Parts, Refusal>
    requires lent { Lent trailer.now.bytes.now work.old × EndAt trailer.now.bytes.now trailer.now.at end }
    requires kind_is { unit_number kind ≡ get_or (words trailer.now.bytes.now) trailer.now.at 0 }
    requires found_rows { FoundRows (words trailer.now.bytes.now) end rules.now }
    ensures { (f : FoundRows (words trailer.now.bytes.now) end rules.now)
        → ReadAs (judge (words trailer.now.bytes.now) (got f.found.trees end)) (reading_of rules.now result) }
{
    let counters = trailer.counters();
    let sheet = Sheet {
        bytes: trailer.bytes,
        end,
    };
    judge(&sheet, *rules, counters, work)?;
    Ok(Parts {
        kind,
        preserved: end as u32,
        count: trailer.count(),
        counters,
    })
}

// The whole reading of a sheet, which may be longer than one that is handed in. Of the work area its length stays, and nothing else is known.
pub fn examine(s: &[u8], work: &mut [u8]) -> Result<Reading, Refusal>
    requires { Lent s.now work.old }
    ensures read_as { ReadAs (read_words (words s.now)) result }
    ensures length_stays { length work.new ≡ length work.old }
{
    let at = s.len() / 4 - Sheet::TRAILER_WORDS;
    let trailer = Trailer { bytes: s, at };
    let Some(kind) = trailer.kind() else {
        return Err(Refusal::BadTrailer);
    };
    let end = trailer.rules_end();
    let Some(rules) = read_rules(s, end) else {
        return Err(Refusal::BadRecord);
    };
    if !is_rising(&s[4 * end..4 * at]) {
        return Err(Refusal::BadRecord);
    }
    let parts = judged(&trailer, end, kind, &rules, work)?;
    Ok(Reading { parts, rules })
}
