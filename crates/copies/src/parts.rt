// Copies of single records: an element's head, the payload of a leaf, an alternative's head.
ghost use Rattle.std.specs.Prelude.{◌≡◌, ◌∷◌, ◌+◌, ◌-◌, ◌*◌, ◌≤◌, length, get_or, take, drop};
ghost use Rattle.grammar.specs.Words.{words};
ghost use Rattle.words.specs.Room.{Room};
ghost use Rattle.writing.specs.Wrote.{Wrote};
ghost use Rattle.words.specs.Kinds.{kind_number, sort_number};
ghost use Rattle.copies.specs.Reasons.{counter_of};
ghost use Rattle.copies.specs.Heads.{LabelRoom, LabelGiven, HeadRoom, HeadCopied, packed_if};
ghost use Rattle.copies.specs.Heads.{MarkedRoom, BehindRoom, CopiedBehind, MarkedCopied, LeafRoom, LeafCopied, CountCopied};
ghost use Rattle.words.specs.Sheet.{text};

use crate::pen::{Drawing, Given, Pen, Reason, fresh, write_words};
use planned::list::Item;
use words::numbers::{Kind, Sort};
use words::sheet::Sheet;
use words::walk::Head;
use words::words::word;
use writing::copy::{copy_words, write};

// The word that packs an element's kind with its quantifier, or the kind alone.
fn packed(s: &[u8], at: usize, plain: bool) -> u32
    requires { 4 * (at + 1) ≤ length s.now }
    ensures { result ≡ packed_if plain (get_or (words s.now) at 0) }
{
    let w = word(s, at);
    if plain {
        return w % Kind::END;
    }
    w
}

// A fresh id for the label whose two words stand from `at` on, or 0 where there is none.
// Stays: this is no method of `Drawing`, for the reason that `fresh` (pen) has.
fn label_id(s: &[u8], at: usize, trail: &mut [u8], pen: Pen) -> Given
    requires { (4 * (at + 2) ≤ length s.now) × LabelRoom (get_or (words s.now) (at + 1) 0) trail.old pen }
    ensures { LabelGiven (words s.now) at trail.old trail.new pen result.id result.pen }
{
    if word(s, at + 1) == 0 {
        return Given { id: 0, pen };
    }
    let owner = word(s, at);
    let reason = u32::from(Reason::BlockBoundary);
    fresh(trail, pen, Sort::Label, reason, owner)
}

// The words of an element's head, of which three are given.
// Stays: this is no method of `Drawing`. It writes no entry and moves no pen, which as a method it would say in four clauses more.
fn write_head(
    s: &[u8],
    at: usize,
    payload: usize,
    id: u32,
    packed: u32,
    label: u32,
    out: &mut [u8],
    to: usize,
)
    requires { (at + 6 ≤ payload) × (4 * payload ≤ length s.now) × (4 * (to + (payload - at)) ≤ length out.old) }
    ensures { Wrote out.old out.new to
        (id ∷ get_or (words s.now) (at + 1) 0 ∷ packed ∷ label
        ∷ take (payload - (at + 4)) (drop (at + 4) (words s.now))) }
{
    let carried = word(s, at + 1);
    write_words(out, to, &[id, carried, packed, label]);
    copy_words(s, at + 4, out, to + 4, payload - (at + 4));
}

// An id just given, and the words that stand behind the old one.
// Stays: this is no method of `Drawing`. It writes no entry, which as a method it would say in three clauses more; and it begins at the
// pen that the id came with, which is not yet the drawing's.
fn copy_behind(s: &[u8], at: usize, there: usize, given: Given, out: &mut [u8]) -> Pen
    requires { BehindRoom s.now at there out.old given }
    ensures { CopiedBehind (words s.now) at there given out.old out.new result }
{
    let pen = given.pen;
    let to = pen.to + (there - at);
    write(out, pen.to, given.id);
    copy_words(s, at + 1, out, pen.to + 1, there - (at + 1));
    Pen { to, ..pen }
}

impl Drawing<'_> {
    // An element's head, with fresh ids for it and its label.
    pub(crate) fn copy_head(&mut self, s: &Sheet, e: Item, payload: usize)
        requires { (payload ≤ s.now.end) × HeadRoom (text s.now) e.at payload self.old.out.now self.old.trail.now self.old.pen }
        ensures same_out { self.old.out.ghost_name ≡ self.new.out.ghost_name }
        ensures same_trail { self.old.trail.ghost_name ≡ self.new.trail.ghost_name }
        ensures copied { HeadCopied (text s.now) s.now.end e.at payload e.plain self.old.out.now self.new.out.now
            self.old.trail.now self.new.trail.now self.old.pen self.new.pen }
    {
        let pen = self.pen;
        let at = e.at;
        let to = pen.to + (payload - at);
        let packed = packed(s.bytes, at + 2, e.plain);
        let owner = word(s.bytes, at);
        let reason = u32::from(Reason::BlockBoundary);
        let given = fresh(self.trail, pen, Sort::Element, reason, owner);
        let first = given.pen;
        let named = label_id(s.bytes, at + 3, self.trail, first);
        write_head(
            s.bytes, at, payload, given.id, packed, named.id, self.out, pen.to,
        );
        let behind = named.pen;
        self.pen = Pen { to, ..behind };
    }

    // What begins with an id of a sort, up to a place, with a fresh id: an action, a predicate, or the head of a block's alternative up to
    // its first element.
    pub(crate) fn copy_marked(&mut self, s: &Sheet, at: usize, there: usize, sort: Sort)
        requires bounds { there ≤ s.now.end }
        requires marked_room { MarkedRoom (counter_of sort self.old.pen.counters) at there
            self.old.out.now self.old.trail.now self.old.pen }
        ensures same_out { self.old.out.ghost_name ≡ self.new.out.ghost_name }
        ensures same_trail { self.old.trail.ghost_name ≡ self.new.trail.ghost_name }
        ensures copied { MarkedCopied (sort_number sort) (counter_of sort self.old.pen.counters) (text s.now) at there
            self.old.out.now self.new.out.now self.old.trail.now self.new.trail.now self.old.pen self.new.pen }
    {
        let owner = word(s.bytes, at);
        let reason = u32::from(Reason::BlockBoundary);
        let given = fresh(self.trail, self.pen, sort, reason, owner);
        self.pen = copy_behind(s.bytes, at, there, given, self.out);
    }

    // The payload of an element that is no block, up to where it ends.
    pub(crate) fn copy_leaf(&mut self, s: &Sheet, head: Head, there: usize)
        requires { (there ≤ s.now.end)
            × LeafRoom (kind_number head.kind) head.payload there self.old.out.now self.old.trail.now self.old.pen }
        ensures same_out { self.old.out.ghost_name ≡ self.new.out.ghost_name }
        ensures same_trail { self.old.trail.ghost_name ≡ self.new.trail.ghost_name }
        ensures copied { LeafCopied (text s.now) s.now.end (kind_number head.kind) head.payload there self.old.out.now self.new.out.now
            self.old.trail.now self.new.trail.now self.old.pen self.new.pen }
    {
        let at = head.payload;
        match head.kind {
            Kind::Action => self.copy_marked(s, at, there, Sort::Action),
            Kind::Predicate => self.copy_marked(s, at, there, Sort::Predicate),
            _ => {
                copy_words(s.bytes, at, self.out, self.pen.to, there - at);
                self.pen.to += there - at;
            }
        }
    }

    // How many alternatives a block has.
    pub(crate) fn copy_count(&mut self, n: u32)
        requires { 4 * (self.old.pen.to + 1) ≤ length self.old.out.now }
        ensures same_out { self.old.out.ghost_name ≡ self.new.out.ghost_name }
        ensures same_trail { self.old.trail.ghost_name ≡ self.new.trail.ghost_name }
        ensures same_entries { self.old.trail.now ≡ self.new.trail.now }
        ensures copied { CountCopied n self.old.out.now self.new.out.now self.old.pen self.new.pen }
    {
        write(self.out, self.pen.to, n);
        self.pen.to += 1;
    }
}
