// The options of an alternative in hand, and those that a spliced alternative adds to them.
ghost use Rattle.std.specs.Prelude.{ℕ, ◌≡◌, List, ◌++◌, ◌+◌, ◌*◌, ◌<◌, ◌≤◌, length};
ghost use Rattle.grammar.specs.Numbers.{most_words};
ghost use Rattle.grammar.specs.Tree.{OptionDecl};
ghost use Rattle.grammar.specs.Words.{words};
ghost use Rattle.grammar.specs.Found.{FoundAlternative};
ghost use Rattle.planned.specs.Layout.{options_from, option_of, meaning};
ghost use Rattle.planned.specs.List.{Located, ListedIn};
ghost use Rattle.splices.specs.Moves.{OptionsAdded};
ghost use Rattle.planned.specs.Laws.Parts.{Copied};
ghost use Rattle.splices.specs.Options.{meets, GivenAt, standing_options, OptionsIn, PutIfNew, OptionsFit, OptionsPut};
ghost use Rattle.words.specs.Sheet.{text};

use crate::places::option_count;
use planned::halves::{half, move_halves, put_half};
use planned::list::Listed;
use words::sheet::Sheet;
use words::words::word;

// An option against others: none has its name; or the first that has it has the same value, or another.
// Stays: of its three cases an Option<bool> would name none, and `Some(false)` would be the one that refuses.
#[derive(Clone, Copy, Debug, PartialEq, Eq)]
pub enum Meets {
    New,
    Same,
    Other,
}

// Against n options, of which the i-th stands at `place(i)`.
fn meets_among<F: Fn(usize) -> usize>(s: &[u8], n: usize, place: F, name: u32, value: u32) -> Meets
    requires callable { (i : ℕ) → i < n → F.pre place i }
    requires in_bounds { (i p : ℕ) → i < n → F.post place i p → 4 * (p + 1) + 4 ≤ length s.now }
    ensures { (os : List OptionDecl) → length os ≡ n → GivenAt (words s.now) (F.post place) os
        → result ≡ meets os (record { name = name; value = value }) }
{
    for i in 0..n {
        let p = place(i);
        if word(s, p) == name {
            return if word(s, p + 1) == value {
                Meets::Same
            } else {
                Meets::Other
            };
        }
    }
    Meets::New
}

// Against n options listed from half `from` on.
fn meets_listed(
    s: &Sheet,
    depth: u32,
    work: &[u8],
    from: usize,
    n: usize,
    name: u32,
    value: u32,
) -> Meets
    requires { OptionsIn (text s.now) s.now.end depth work.now from n }
    ensures { result ≡ meets (options_from (text s.now) s.now.end depth work.now from n)
        (record { name = name; value = value }) }
{
    meets_among(
        s.bytes,
        n,
        |i| usize::from(half(work, from + i)),
        name,
        value,
    )
}

// Against n options that stand from `at` on.
fn meets_standing(s: &Sheet, depth: u32, at: usize, n: usize, name: u32, value: u32) -> Meets
    requires { at + 2 * n ≤ s.now.end }
    ensures { result ≡ meets (standing_options (text s.now) s.now.end depth at n) (record { name = name; value = value }) }
{
    meets_among(s.bytes, n, |i| at + 2 * i, name, value)
}

// Option j of the alternative at `at`, against those in hand, then against its own in front of it.
fn option_meets(s: &Sheet, depth: u32, work: &[u8], h: Listed, at: usize, j: usize) -> Meets
    requires bounds { OptionsIn (text s.now) s.now.end depth work.now h.o h.no }
    requires j_bound { at + 7 + 2 * j ≤ s.now.end }
    ensures { result ≡ meets (options_from (text s.now) s.now.end depth work.now h.o h.no
        ++ standing_options (text s.now) s.now.end depth (at + 5) j)
        (option_of (text s.now) s.now.end depth (at + 5 + 2 * j)) }
{
    let name = word(s.bytes, at + 5 + 2 * j);
    let value = word(s.bytes, at + 5 + 2 * j + 1);
    match meets_listed(s, depth, work, h.o, h.no, name, value) {
        Meets::New => meets_standing(s, depth, at + 5, j, name, value),
        met => met,
    }
}

// How many options the alternative at `at` adds to those in hand; none where two of one name have two values.
pub fn options_added(s: &Sheet, depth: u32, work: &[u8], h: Listed, at: usize) -> Option<usize>
    requires bounds { Located work.now h × ListedIn (text s.now) s.now.end depth work.now h }
    requires found_alternative { FoundAlternative (text s.now) s.now.end depth at }
    ensures { OptionsAdded (text s.now) s.now.end depth at
        (meaning (text s.now) s.now.end depth work.now h).options result }
{
    let n = option_count(s, depth, at);
    let mut added: usize = 0;
    for j in 0..n {
        match option_meets(s, depth, work, h, at, j) {
            Meets::New => added += 1,
            Meets::Same => {}
            Meets::Other => return None,
        }
    }
    Some(added)
}

// Option j of the alternative at `at` is listed at half `to`, if it is new; returned is where the next one comes.
fn put_if_new(
    s: &Sheet,
    depth: u32,
    work: &mut [u8],
    h: Listed,
    at: usize,
    j: usize,
    to: usize,
) -> usize
    requires bounds { OptionsIn (text s.now) s.now.end depth work.old h.o h.no }
    requires j_bound { (at + 7 + 2 * j ≤ s.now.end) × (s.now.end ≤ most_words) × (2 * (to + 1) ≤ length work.old) }
    ensures { PutIfNew (meets (options_from (text s.now) s.now.end depth work.old h.o h.no
        ++ standing_options (text s.now) s.now.end depth (at + 5) j)
        (option_of (text s.now) s.now.end depth (at + 5 + 2 * j)))
        work.old work.new (at + 5 + 2 * j) to result }
{
    match option_meets(s, depth, work, h, at, j) {
        Meets::New => {
            put_half(work, to, (at + 5 + 2 * j) as u16);
            to + 1
        }
        Meets::Same | Meets::Other => to,
    }
}

// From half `to` on stand the options in hand; behind them come those that the alternative at `at` adds. Returned is where they end.
fn put_new_options(s: &Sheet, depth: u32, work: &mut [u8], h: Listed, at: usize, to: usize) -> usize
    requires bounds { (s.now.end ≤ most_words) × Located work.old h
        × OptionsIn (text s.now) s.now.end depth work.old h.o h.no }
    requires found_alternative { FoundAlternative (text s.now) s.now.end depth at × (to ≤ h.o) }
    requires options_fit { OptionsFit (text s.now) s.now.end depth at work.old h to × Copied work.old work.old h.o to h.no }
    ensures { OptionsPut (text s.now) s.now.end depth at h work.old work.new to result }
{
    let n = option_count(s, depth, at);
    let mut t = to + h.no;
    for j in 0..n {
        t = put_if_new(s, depth, work, h, at, j, t);
    }
    t
}

// The options in hand, and those that the alternative at `at` adds, listed from half `to` on; returned is where they end.
pub fn put_options(s: &Sheet, depth: u32, work: &mut [u8], h: Listed, at: usize, to: usize) -> usize
    requires bounds { (s.now.end ≤ most_words) × Located work.old h
        × OptionsIn (text s.now) s.now.end depth work.old h.o h.no }
    requires found_alternative { FoundAlternative (text s.now) s.now.end depth at × (to ≤ h.o) }
    requires options_fit { OptionsFit (text s.now) s.now.end depth at work.old h to }
    ensures { OptionsPut (text s.now) s.now.end depth at h work.old work.new to result }
{
    move_halves(work, h.o, to, h.no);
    put_new_options(s, depth, work, h, at, to)
}
