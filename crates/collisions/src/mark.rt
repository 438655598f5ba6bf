// What stands around a call in a planned alternative is marked in the two sets of names.
ghost use Rattle.std.specs.Prelude.{◌≡◌, ◌+◌, ◌<◌, ◌≤◌};
ghost use Rattle.std.proofs.Common.{rules};
ghost use Rattle.grammar.specs.Numbers.{block_kind, most_words};
ghost use Rattle.grammar.specs.Tree.{inner_depth};
ghost use Rattle.grammar.specs.Found.{FoundElement, HeadAt};
ghost use Rattle.planned.specs.Layout.{meaning};
ghost use Rattle.planned.specs.List.{Located, ListedIn};
ghost use Rattle.collisions.specs.Names.{Ordered, Kept, kept_refl, kept_trans};
ghost use Rattle.collisions.specs.Names as names;
ghost use Rattle.collisions.specs.Walks.{noting_past_block, noting_past_alternative};
ghost use Rattle.collisions.specs.Walks.{LeafSeen, FoundReference, FoundReferences, ItemsWalked};
ghost use Rattle.collisions.specs.Mark.{Marks, marks_of, mark_leaf, marking, LabelMarked, ReferenceMarked, ReferencesMarked, MarkedAround};
ghost use Rattle.words.specs.Kinds.{kind_number};
ghost use Rattle.words.specs.Sheet.{text};

use crate::names::{Set, clear_both, put};
use crate::references::reference_count;
use planned::list::Listed;
use planned::read::item;
use words::numbers::{Block, ReferenceKind};
use words::sheet::Sheet;
use words::visit::{Visitor, walk_element};
use words::walk::Head;
use words::words::word;

// What marks, in the sets of the work area, and whether something referred to the name that is sought.
#[derive(Drop)]
struct Marker<'a> {
    name: u32,
    work: &'a mut [u8],
    dangling: bool,
}

impl Marker<'_> {
    // The label of the element at `at`.
    fn mark_label(&mut self, s: &Sheet, depth: u32, at: usize)
        requires bounds { (at + 6 ≤ s.now.end) × Ordered (text s.now) s.now.end self.old.work.now }
        requires found_element { FoundElement (text s.now) s.now.end depth at }
        ensures same_buffer { self.old.work.ghost_name ≡ self.new.work.ghost_name }
        ensures same_name { self.old.name ≡ self.new.name }
        ensures same_dangling { self.old.dangling ≡ self.new.dangling }
        ensures marked { LabelMarked (text s.now) s.now.end at self.old.work.now self.new.work.now }
    {
        let name = word(s.bytes, at + 4);
        if name == 0 {
            return;
        }
        put(s, self.work, Set::Labels, at + 4);
    }

    // The reference at `at`; all but those of the last kind bind.
    fn mark_reference(&mut self, s: &Sheet, at: usize)
        requires bounds { (0 < at) × (at + 2 ≤ s.now.end) × Ordered (text s.now) s.now.end self.old.work.now }
        requires found_reference { FoundReference (text s.now) s.now.end at }
        ensures same_buffer { self.old.work.ghost_name ≡ self.new.work.ghost_name }
        ensures same_name { self.old.name ≡ self.new.name }
        ensures marked { Kept (text s.now) s.now.end self.old.work.now self.new.work.now × ReferenceMarked self.old.name
            (text s.now) s.now.end at (marks_of (text s.now) self.old.work.now self.old.dangling) (at + 2)
            (marks_of (text s.now) self.new.work.now self.new.dangling) }
    {
        let to = word(s.bytes, at + 1);
        self.dangling |= self.name == to;
        let Ok(kind) = ReferenceKind::try_from(word(s.bytes, at)) else {
            return;
        };
        match kind {
            ReferenceKind::Attribute | ReferenceKind::Qualified => {
                put(s, self.work, Set::References, at + 1);
            }
            ReferenceKind::NonLocal => {}
        }
    }

    // n references from `at` on.
    fn mark_references(&mut self, s: &Sheet, n: u32, at: usize)
        requires bounds { (0 < at) × (at ≤ s.now.end) × Ordered (text s.now) s.now.end self.old.work.now }
        requires found_references { FoundReferences (text s.now) s.now.end n at }
        ensures same_buffer { self.old.work.ghost_name ≡ self.new.work.ghost_name }
        ensures same_name { self.old.name ≡ self.new.name }
        ensures marked { Kept (text s.now) s.now.end self.old.work.now self.new.work.now × ReferencesMarked self.old.name
            (text s.now) s.now.end n at (marks_of (text s.now) self.old.work.now self.old.dangling)
            (marks_of (text s.now) self.new.work.now self.new.dangling) }
    {
        for i in 0..n {
            self.mark_reference(s, at + 2 * (i as usize));
        }
    }

    // An element that is no block.
    fn mark_leaf(&mut self, s: &Sheet, depth: u32, at: usize, head: Head)
        requires bounds { Ordered (text s.now) s.now.end self.old.work.now }
        requires head_at { HeadAt (text s.now) s.now.end at (kind_number head.kind) head.payload × (kind_number head.kind ≡ block_kind → ⊥)
            × FoundElement (text s.now) s.now.end depth at }
        ensures same_buffer { self.old.work.ghost_name ≡ self.new.work.ghost_name }
        ensures same_name { self.old.name ≡ self.new.name }
        ensures marked { Kept (text s.now) s.now.end self.old.work.now self.new.work.now × LeafSeen
            (text s.now) s.now.end (kind_number head.kind) head.payload (mark_leaf self.old.name)
            (marks_of (text s.now) self.old.work.now self.old.dangling) (marks_of (text s.now) self.new.work.now self.new.dangling) }
    {
        let n = reference_count(s, depth, at, head);
        if n != 0 {
            self.mark_references(s, n, head.payload + 2);
        }
    }

    // The elements of a planned alternative from one index up to another.
    fn mark_items(&mut self, s: &Sheet, x: Listed, from: usize, to: usize)
        requires bounds { Located self.old.work.now x × (from ≤ to) × (to ≤ x.ne) }
        requires ordered { Ordered (text s.now) s.now.end self.old.work.now
            × ListedIn (text s.now) s.now.end inner_depth self.old.work.now x }
        ensures same_buffer { self.old.work.ghost_name ≡ self.new.work.ghost_name }
        ensures same_name { self.old.name ≡ self.new.name }
        ensures marked { Kept (text s.now) s.now.end self.old.work.now self.new.work.now × ItemsWalked (marking self.old.name) inner_depth
            (meaning (text s.now) s.now.end inner_depth self.old.work.now x).elements from to
            (marks_of (text s.now) self.old.work.now self.old.dangling)
            (marks_of (text s.now) self.new.work.now self.new.dangling) }
    {
        for i in from..to {
            let work = &mut *self.work;
            let e = item(work, x, i);
            walk_element(self, s, Block::DEPTH, e.at);
        }
    }
}

impl Visitor for Marker<'_> {
    ghost State = { Marks };

    ghost steps = { λ ws v. marking v.name };

    ghost state = { λ ws d v. marks_of ws v.work.now v.dangling };

    ghost Fits = { λ ws end d at v. Ordered ws end v.work.now };

    ghost Kept = { λ ws end a b. (a.work.ghost_name ≡ b.work.ghost_name) × (a.name ≡ b.name) × names.Kept ws end a.work.now b.work.now };

    fn leaf(&mut self, s: &Sheet, depth: u32, at: usize, head: Head) {
        self.mark_label(s, depth, at);
        self.mark_leaf(s, depth, at, head);
    }

    fn enter_block(&mut self, s: &Sheet, depth: u32, at: usize, _head: Head) {
        self.mark_label(s, depth, at);
    }

    fn enter_alternative(&mut self, _s: &Sheet, _depth: u32, _at: usize) {}

    ghost laws = { Prim.search (rules, noting_past_block, noting_past_alternative, kept_refl, kept_trans) };
}

// All elements of a planned alternative but the one at an index are marked, and nothing else. The answer says whether one of
// them refers to a name.
pub fn mark_around(s: &Sheet, work: &mut [u8], x: Listed, index: usize, name: u32) -> bool
    requires bounds { (s.now.end ≤ most_words) × Located work.old x × (index < x.ne) }
    requires listed_in { ListedIn (text s.now) s.now.end inner_depth work.old x }
    ensures { MarkedAround (text s.now) s.now.end inner_depth
        (meaning (text s.now) s.now.end inner_depth work.old x).elements index name
        work.old work.new result }
{
    clear_both(work);
    let mut marker = Marker {
        name,
        work,
        dangling: false,
    };
    marker.mark_items(s, x, 0, index);
    marker.mark_items(s, x, index + 1, x.ne);
    marker.dangling
}
