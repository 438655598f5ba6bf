// The places of elements and of options that stand in the sheet, written to halves.
ghost use Rattle.std.specs.Prelude.{◌+◌, ◌*◌, ◌≤◌, length};
ghost use Rattle.grammar.specs.Numbers.{most_words};
ghost use Rattle.grammar.specs.Found.{FoundElements, FoundAlternative};
ghost use Rattle.splices.specs.Places.{PlacesPut, OptionPlacesPut, OptionCount, PartsAt};
ghost use Rattle.words.specs.Sheet.{text};

use ends::ends::element_end;
use planned::halves::put_half;
use words::sheet::Sheet;
use words::walk::alternative_head;
use words::words::word;

// The places of the n elements from `at` on, written from half `to` on; returned is where the elements end.
pub fn put_places(s: &Sheet, depth: u32, n: u32, at: usize, work: &mut [u8], to: usize) -> usize
    requires bounds { (s.now.end ≤ most_words) × (at ≤ s.now.end) }
    requires found_elements { FoundElements (text s.now) s.now.end depth n at }
    requires n_in_bounds { 2 * (to + n) ≤ length work.old }
    ensures { PlacesPut (text s.now) s.now.end depth n at work.old work.new to result }
{
    let mut p = at;
    for i in 0..n as usize {
        put_half(work, to + i, p as u16);
        p = element_end(s, depth, p);
    }
    p
}

// The places of n options from `at` on, written from half `to` on.
pub fn put_option_places(n: usize, at: usize, work: &mut [u8], to: usize)
    requires { (at + 2 * n ≤ most_words) × (2 * (to + n) ≤ length work.old) }
    ensures { OptionPlacesPut n at work.old work.new to }
{
    for i in 0..n {
        put_half(work, to + i, (at + 2 * i) as u16);
    }
}

// How many options the alternative at `at` has.
pub fn option_count(s: &Sheet, depth: u32, at: usize) -> usize
    requires bounds { at + 5 ≤ s.now.end }
    requires found_alternative { FoundAlternative (text s.now) s.now.end depth at }
    ensures { OptionCount (text s.now) s.now.end at result }
{
    word(s.bytes, at + 3) as usize
}

// How many elements and options an alternative has, and where its elements begin.
#[derive(Clone, Copy, Debug, PartialEq, Eq)]
pub struct Parts {
    pub count: u32,
    pub ne: usize,
    pub no: usize,
    pub first: usize,
}

pub fn parts_at(s: &Sheet, depth: u32, at: usize) -> Parts
    requires found_alternative { FoundAlternative (text s.now) s.now.end depth at }
    ensures { PartsAt (text s.now) s.now.end at result.count result.ne result.no result.first }
{
    let head = alternative_head(s, depth, at);
    let no = option_count(s, depth, at);
    Parts {
        count: head.count,
        ne: head.count as usize,
        no,
        first: head.first,
    }
}
