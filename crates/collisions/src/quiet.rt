// Whether a planned alternative is quiet: nothing in it has a label or a reference, so that nothing can collide with it.
ghost use Rattle.std.specs.Prelude.{◌≡◌, Bool, ◌+◌, ◌*◌, ◌≤◌, length};
ghost use Rattle.std.proofs.Common.{rules};
ghost use Rattle.grammar.specs.Numbers.{block_kind};
ghost use Rattle.grammar.specs.Tree.{inner_depth};
ghost use Rattle.grammar.specs.Words.{words};
ghost use Rattle.grammar.specs.Found.{FoundElement, HeadAt};
ghost use Rattle.planned.specs.Shown.{meant};
ghost use Rattle.collisions.specs.Walks.{noting_past_block, noting_past_alternative, LabelSeen, LeafSeen};
ghost use Rattle.collisions.specs.Quiet.{is_quiet, noisy_label, noisy_leaf, listening};
ghost use Rattle.words.specs.Kinds.{kind_number};
ghost use Rattle.words.specs.Sheet.{text};

use crate::references::reference_count;
use planned::shown::Shown;
use words::numbers::Block;
use words::sheet::Sheet;
use words::visit::{Visitor, walk_element};
use words::walk::Head;
use words::words::word;

// Whether there was a label or a reference so far.
#[derive(Drop)]
struct Listener {
    noisy: bool,
}

impl Listener {
    // The label of the element at `at`.
    fn see_label(&mut self, s: &[u8], at: usize)
        requires { 4 * (at + 6) ≤ length s.now }
        ensures { LabelSeen (words s.now) at noisy_label self.old.noisy self.new.noisy }
    {
        self.noisy |= word(s, at + 4) != 0;
    }

    // An element that is no block.
    fn see_leaf(&mut self, s: &Sheet, depth: u32, at: usize, head: Head)
        requires head_at { HeadAt (text s.now) s.now.end at (kind_number head.kind) head.payload × (kind_number head.kind ≡ block_kind → ⊥)
            × FoundElement (text s.now) s.now.end depth at }
        ensures { LeafSeen (text s.now) s.now.end (kind_number head.kind) head.payload noisy_leaf self.old.noisy self.new.noisy }
    {
        self.noisy |= reference_count(s, depth, at, head) != 0;
    }
}

// Stays: the three visitors of this crate take a label, and at a leaf what is in it; how, is each one's own, as are its state, what fits and
// what stays. One visitor over a trait of these two would have that trait state the eight members of `Visitor` once more for it.
impl Visitor for Listener {
    ghost State = { Bool };

    ghost steps = { λ ws v. listening };

    ghost state = { λ ws d v. v.noisy };

    ghost Fits = { λ ws end d at v. Unit {0} };

    ghost Kept = { λ ws end a b. Unit {0} };

    fn leaf(&mut self, s: &Sheet, depth: u32, at: usize, head: Head) {
        self.see_label(s.bytes, at);
        self.see_leaf(s, depth, at, head);
    }

    fn enter_block(&mut self, s: &Sheet, _depth: u32, at: usize, _head: Head) {
        self.see_label(s.bytes, at);
    }

    fn enter_alternative(&mut self, _s: &Sheet, _depth: u32, _at: usize) {}

    ghost laws = { Prim.search (rules, noting_past_block, noting_past_alternative) };
}

// Whether nothing in a planned alternative has a label or a reference.
pub fn is_quiet(a: &Shown) -> bool
    ensures { result ≡ is_quiet inner_depth (meant a.now).elements }
{
    let mut listener = Listener { noisy: false };
    for i in 0..a.x.ne {
        walk_element(&mut listener, a.s, Block::DEPTH, a.item(i).at);
    }
    !listener.noisy
}
