// Whether an alternative of a satellite collides with the elements around its call: one walk over it, against the sets of
// names that are marked.
ghost use Rattle.std.specs.Prelude.{◌≡◌, ◌+◌, ◌≤◌};
ghost use Rattle.std.proofs.Common.{rules};
ghost use Rattle.grammar.specs.Numbers.{block_kind};
ghost use Rattle.grammar.specs.Tree.{inner_depth};
ghost use Rattle.grammar.specs.Found.{FoundElement, FoundAlternative, HeadAt};
ghost use Rattle.collisions.specs.Names.{labels_bit, references_bit, has_name, Ordered};
ghost use Rattle.collisions.specs.Walks.{noting_past_block, noting_past_alternative, LabelSeen, LeafSeen};
ghost use Rattle.collisions.specs.declared.clash.Clash.{Clash};
ghost use Rattle.collisions.specs.Clash.{clash_label, clash_leaf, comparing, NameBound, ClashesAt};
ghost use Rattle.words.specs.Kinds.{kind_number};
ghost use Rattle.words.specs.Sheet.{text};

use crate::names::{Names, Set};
use words::numbers::{Block, Kind};
use words::sheet::Sheet;
use words::visit::{Visitor, walk_alternative};
use words::walk::Head;
use words::words::word;

// Whether a label's name is in the set of labels, and whether a bound name is in the set of references.
#[derive(Clone, Copy, Debug, Default, PartialEq, Eq)]
pub struct Clash {
    pub label: bool,
    pub binding: bool,
}

// What compares with the sets in the work area, and what it has found.
#[derive(Drop)]
struct Comparer<'a> {
    work: &'a [u8],
    found: Clash,
}

impl Comparer<'_> {
    // The label of the element at `at`.
    fn see_label(&mut self, s: &Sheet, depth: u32, at: usize)
        requires bounds { (at + 6 ≤ s.now.end) × Ordered (text s.now) s.now.end self.old.work.now }
        requires found_element { FoundElement (text s.now) s.now.end depth at }
        ensures same_names { self.old.work.now ≡ self.new.work.now }
        ensures seen { LabelSeen (text s.now) at
            (clash_label (has_name (text s.now) self.old.work.now labels_bit)
            (has_name (text s.now) self.old.work.now references_bit)) self.old.found self.new.found }
    {
        let name = word(s.bytes, at + 4);
        if name == 0 {
            return;
        }
        let names = Names { s, work: self.work };
        self.found.label |= names.has(Set::Labels, name);
        self.found.binding |= names.has(Set::References, name);
    }

    // A name that a call or a token binds.
    fn bind(&mut self, s: &Sheet, name: u32)
        requires { Ordered (text s.now) s.now.end self.old.work.now }
        ensures same_names { self.old.work.now ≡ self.new.work.now }
        ensures bound { NameBound (text s.now) self.old.work.now name self.old.found self.new.found }
    {
        let names = Names { s, work: self.work };
        self.found.binding |= names.has(Set::References, name);
    }

    // An element that is no block.
    fn see_leaf(&mut self, s: &Sheet, depth: u32, at: usize, head: Head)
        requires bounds { Ordered (text s.now) s.now.end self.old.work.now }
        requires head_at { HeadAt (text s.now) s.now.end at (kind_number head.kind) head.payload × (kind_number head.kind ≡ block_kind → ⊥)
            × FoundElement (text s.now) s.now.end depth at }
        ensures same_names { self.old.work.now ≡ self.new.work.now }
        ensures seen { LeafSeen (text s.now) s.now.end (kind_number head.kind) head.payload
            (clash_leaf (has_name (text s.now) self.old.work.now references_bit)) self.old.found self.new.found }
    {
        match head.kind {
            Kind::Call | Kind::Token => self.bind(s, word(s.bytes, head.payload)),
            _ => {}
        }
    }
}

impl Visitor for Comparer<'_> {
    ghost State = { Clash };

    ghost steps = { λ ws v. comparing ws v.work.now };

    ghost state = { λ ws d v. v.found };

    ghost Fits = { λ ws end d at v. Ordered ws end v.work.now };

    ghost Kept = { λ ws end a b. a.work.now ≡ b.work.now };

    fn leaf(&mut self, s: &Sheet, depth: u32, at: usize, head: Head) {
        self.see_label(s, depth, at);
        self.see_leaf(s, depth, at, head);
    }

    fn enter_block(&mut self, s: &Sheet, depth: u32, at: usize, _head: Head) {
        self.see_label(s, depth, at);
    }

    fn enter_alternative(&mut self, _s: &Sheet, _depth: u32, _at: usize) {}

    ghost laws = { Prim.search (rules, noting_past_block, noting_past_alternative) };
}

// Whether the alternative at `at` collides with what is marked.
pub fn clash_at(s: &Sheet, work: &[u8], at: usize) -> Clash
    requires bounds { Ordered (text s.now) s.now.end work.now }
    requires found_alternative { FoundAlternative (text s.now) s.now.end inner_depth at }
    ensures { ClashesAt (text s.now) s.now.end inner_depth at work.now result }
{
    let mut comparer = Comparer {
        work,
        found: Clash::default(),
    };
    walk_alternative(&mut comparer, s, Block::DEPTH, at);
    comparer.found
}
