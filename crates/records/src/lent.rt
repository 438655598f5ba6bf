// What is read.
ghost use Rattle.std.specs.Prelude.{◌≡◌, ◌*◌, ◌≤◌, length};
ghost use Rattle.grammar.specs.Words.{words};
ghost use Rattle.grammar.specs.Read.{room};

use words::form::Form;

// A sheet's bytes, the word at which its rules end, up to which there are bytes, and the form in which they are read.
// Stays: this is no `Sheet`, since what is read here needs no room for a trailer behind its end.
#[derive(Clone, Copy, Debug, PartialEq, Eq)]
pub struct Records<'a> {
    pub bytes: &'a [u8],
    pub end: usize,
    pub form: Form,
    ghost within: { 4 * end ≤ length bytes.now },
}

impl Records<'_> {
    // n words stand between a place and the end.
    pub fn has_room(&self, n: usize, at: usize) -> bool
        ensures { result ≡ room (words self.now.bytes.now) self.now.end n at }
    {
        n <= self.end.saturating_sub(at)
    }
}
