// A satellite's alternatives in place of an element of the alternative in hand, on top of the stack.
ghost use Rattle.std.specs.Prelude.{◌≡◌, ◌+◌, ◌-◌, ◌<◌, ◌≤◌};
ghost use Rattle.grammar.specs.Numbers.{most_words};
ghost use Rattle.grammar.specs.Tree.{inner_depth};
ghost use Rattle.grammar.specs.Found.{FoundElements, FoundAlternative, FoundRule};
ghost use Rattle.words.specs.Room.{Room};
ghost use Rattle.planned.specs.List.{Laid, HasRoom, Located};
ghost use Rattle.splices.specs.Moves.{Spliceable, PushedSplice};
ghost use Rattle.planned.specs.Laws.Kept.{with_top};
ghost use Rattle.splices.specs.Splice.{ElementsPut, HandIn, PartsFit, PartsPut, OneFits, OnePut, AllFit, AllPut};
ghost use Rattle.words.specs.Sheet.{text};

use crate::options::put_options;
use crate::places::{parts_at, put_places};
use planned::halves::move_halves;
use planned::hand::place;
use planned::list::{Cursor, Listed, Sizes};
use planned::record::put_head;
use words::numbers::Block;
use words::sheet::Sheet;

// The elements in hand, with the n from `at` on in place of the one at an index, listed from half `to` on; returned is where
// those end.
fn put_elements(
    s: &Sheet,
    work: &mut [u8],
    h: Listed,
    index: usize,
    count: u32,
    at: usize,
    to: usize,
) -> usize
    requires bounds { (s.now.end ≤ most_words) × Located work.old h × (index < h.ne) }
    requires found_elements { FoundElements (text s.now) s.now.end inner_depth count at × (at ≤ s.now.end)
        × (to + (h.ne - 1 + count) ≤ h.e) }
    ensures { ElementsPut (text s.now) s.now.end inner_depth h index count at work.old work.new to result }
{
    let next = index + 1;
    let mid = to + index;
    let back = mid + count as usize;
    let rest = h.ne - next;
    move_halves(work, h.e, to, index);
    let r = put_places(s, Block::DEPTH, count, at, work, mid);
    move_halves(work, h.e + next, back, rest);
    r
}

// The next alternative of the satellite, and where its record comes.
#[derive(Clone, Copy, Debug, PartialEq, Eq)]
struct Spot {
    at: usize,
    to: Cursor,
}

// How many elements a record has, and where its options end; and where the elements end that were taken from the sheet.
#[derive(Clone, Copy, Debug, PartialEq, Eq)]
struct Ends {
    at: usize,
    ne: usize,
    back: usize,
}

// Elements and options of what the alternative at `at` becomes, from two halves on.
fn put_parts(
    s: &Sheet,
    work: &mut [u8],
    h: Listed,
    index: usize,
    at: usize,
    e: usize,
    to: usize,
) -> Ends
    requires bounds { (s.now.end ≤ most_words) × HandIn (text s.now) s.now.end inner_depth h index work.old }
    requires found_alternative { FoundAlternative (text s.now) s.now.end inner_depth at × (to ≤ h.o) }
    requires parts_fit { PartsFit (text s.now) s.now.end inner_depth h at work.old e to }
    ensures { PartsPut (text s.now) s.now.end inner_depth h index at work.old work.new
        e to result.at result.ne result.back }
{
    let p = parts_at(s, Block::DEPTH, at);
    let ne = h.ne - 1 + p.ne;
    let next = put_elements(s, work, h, index, p.count, p.first, e);
    let back = put_options(s, Block::DEPTH, work, h, at, to);
    Ends { at: next, ne, back }
}

// What the alternative at `f.at` becomes, as a record; returned is what comes next.
fn put_one(s: &Sheet, work: &mut [u8], h: Listed, index: usize, f: Spot) -> Spot
    requires bounds { (s.now.end ≤ most_words) × HandIn (text s.now) s.now.end inner_depth h index work.old }
    requires found_alternative { FoundAlternative (text s.now) s.now.end inner_depth f.at }
    requires one_fits { OneFits (text s.now) s.now.end inner_depth h f.at work.old f.to.a f.to.e f.to.o }
    ensures a_value { result.to.a ≡ f.to.a + 1 }
    ensures one_put { OnePut (text s.now) s.now.end inner_depth h index f.at work.old work.new
        f.to.a f.to.e f.to.o result.to.e result.to.o result.at }
{
    let options = Sizes::FIRST_OPTION + f.to.o;
    let next = f.to.a + 1;
    let slot = place(h.slot);
    let r = put_parts(s, work, h, index, f.at, f.to.e, options);
    let origin = f.at as u16;
    put_head(work, f.to.a, slot, origin, r.ne, r.back - options);
    Spot {
        at: r.at,
        to: Cursor {
            a: next,
            e: f.to.e + r.ne,
            o: r.back - Sizes::FIRST_OPTION,
        },
    }
}

// What the n alternatives from `f.at` on become, as records on the stack of l.
fn put_all(
    s: &Sheet,
    work: &mut [u8],
    l: Sizes,
    h: Listed,
    index: usize,
    n: usize,
    f: Spot,
) -> Sizes
    requires bounds { (s.now.end ≤ most_words) × HandIn (text s.now) s.now.end inner_depth h index work.old }
    requires all_fit { AllFit (text s.now) s.now.end inner_depth h index n f.at work.old f.to.a f.to.e f.to.o l.top.e l.top.o }
    ensures value { result ≡ with_top l f.to.a f.to.e f.to.o }
    ensures all_put { AllPut (text s.now) s.now.end inner_depth h index n f.at work.old work.new
        f.to.a f.to.e f.to.o l.top.e l.top.o }
{
    let mut p = f;
    for _ in 0..n {
        p = put_one(s, work, h, index, p);
    }
    Sizes { top: f.to, ..l }
}

// How many alternatives, elements and options a splice comes to.
// Stays: no `Cursor`, though that has three numbers by these names too. A size is how much, and is added up and held to limits; a
// cursor is where, and a size is taken off it.
#[derive(Clone, Copy, Debug, Default, PartialEq, Eq)]
pub struct Size {
    pub a: usize,
    pub e: usize,
    pub o: usize,
}

// The alternatives of the rule at `at`, each in place of the element at an index of the alternative in hand, come on top of the
// stack.
pub fn push_splice(
    s: &Sheet,
    work: &mut [u8],
    l: Sizes,
    h: Listed,
    index: usize,
    at: usize,
    z: Size,
) -> Sizes
    requires bounds { (s.now.end ≤ most_words) × (at + 4 ≤ s.now.end) × FoundRule (text s.now) s.now.end at }
    requires laid { Laid work.old l × HasRoom l z.a z.e z.o × HandIn (text s.now) s.now.end inner_depth h index work.old }
    requires spliceable { Spliceable (text s.now) s.now.end inner_depth at work.old h index z.a z.e z.o }
    ensures { PushedSplice (text s.now) s.now.end inner_depth at work.old work.new
        l result h index z.a z.e z.o }
{
    let f = Spot {
        at: at + 4,
        to: Cursor {
            a: l.top.a - z.a,
            e: l.top.e - z.e,
            o: l.top.o - z.o,
        },
    };
    put_all(s, work, l, h, index, z.a, f)
}
