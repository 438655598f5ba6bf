// The trailer of a sheet: its last words, which tell what unit it is, where its rules end, and what its ids are below.
ghost use Rattle.std.specs.Prelude.{◌≡◌, ◌+◌, ◌/◌, ◌≤◌, length, get_or};
ghost use Rattle.grammar.specs.Numbers.{trailer_words};
ghost use Rattle.grammar.specs.Words.{words};
ghost use Rattle.sheet.specs.Answer.{CountersAt, TrailerRead};

use words::numbers::UnitKind;
use words::words::word;
use writing::counters::Counters;

// The bytes of a sheet, and the word at which its trailer begins.
#[derive(Clone, Copy, Debug, PartialEq, Eq)]
pub struct Trailer<'a> {
    pub bytes: &'a [u8],
    pub at: usize,
    ghost last: { at + trailer_words ≡ length bytes.now / 4 },
}

impl Trailer<'_> {
    // The kind of unit that a good trailer names. Refusal 3 is given where there is none.
    pub fn kind(&self) -> Option<UnitKind>
        ensures { TrailerRead (words self.now.bytes.now) self.now.at result }
    {
        let kind = UnitKind::try_from(word(self.bytes, self.at)).ok()?;
        let first = word(self.bytes, self.at + 1);
        if first as usize != self.at {
            return None;
        }
        if first < self.count() {
            return None;
        }
        Some(kind)
    }

    // How many preserved ids there are.
    pub fn count(&self) -> u32
        ensures { result ≡ get_or (words self.now.bytes.now) (self.now.at + 2) 0 }
    {
        word(self.bytes, self.at + 2)
    }

    // Where the rules end: in front of the preserved ids, whose number the trailer has.
    pub fn rules_end(&self) -> usize
        requires { get_or (words self.now.bytes.now) (self.now.at + 2) 0 ≤ self.now.at }
        ensures { result + get_or (words self.now.bytes.now) (self.now.at + 2) 0 ≡ self.now.at }
    {
        self.at - self.count() as usize
    }

    // What the ids are below.
    pub fn counters(&self) -> Counters
        ensures { CountersAt (words self.now.bytes.now) self.now.at result }
    {
        Counters {
            alternative: word(self.bytes, self.at + 3),
            element: word(self.bytes, self.at + 4),
            label: word(self.bytes, self.at + 5),
            action: word(self.bytes, self.at + 6),
            predicate: word(self.bytes, self.at + 7),
        }
    }
}
