// The fresh ids that a copy of an element takes, counted by sort in one walk over what is in it.
ghost use Rattle.std.specs.Prelude.{◌≡◌, ◌+◌, ◌*◌, ◌<◌, ◌≤◌, ◌^◌, length};
ghost use Rattle.grammar.specs.Words.{words};
ghost use Rattle.grammar.specs.Found.{FoundElement};
ghost use Rattle.grammar.specs.Fold.{ElementWalked};
ghost use Rattle.sizes.specs.Tally.{ids_in, counting, OwnCounted, AlternativeCounted};
ghost use Rattle.sizes.specs.declared.tally.Tally.{Tally};
ghost use Rattle.std.proofs.Common.{rules};
ghost use Rattle.words.specs.Kinds.{kind_number};
ghost use Rattle.words.specs.Sheet.{text};

use words::numbers::Kind;
use words::sheet::Sheet;
use words::visit::{Visitor, walk_element};
use words::walk::Head;
use words::words::word;

// How many ids of each sort.
// Stays: the fields are by sort, as those of `Counters` (writing), which says why.
#[derive(Clone, Copy, Debug, Default, PartialEq, Eq)]
pub struct Tally {
    pub alternatives: usize,
    pub elements: usize,
    pub labels: usize,
    pub actions: usize,
    pub predicates: usize,
}

// Past what was walked, and what was counted.
#[derive(Clone, Copy, Debug, PartialEq, Eq)]
pub struct Passed {
    pub at: usize,
    pub tally: Tally,
}

// The ids of an element itself.
fn with_own(s: &[u8], at: usize, kind: Kind, t: Tally) -> Tally
    requires { (4 * (at + 6) ≤ length s.now) × (ids_in t < 2 ^ 32) }
    ensures { OwnCounted (words s.now) at (kind_number kind) t result }
{
    let label = usize::from(word(s, at + 4) != 0);
    let action = usize::from(kind == Kind::Action);
    let predicate = usize::from(kind == Kind::Predicate);
    Tally {
        elements: t.elements + 1,
        labels: t.labels + label,
        actions: t.actions + action,
        predicates: t.predicates + predicate,
        ..t
    }
}

// The id of an alternative.
fn with_alternative(t: Tally) -> Tally
    requires { ids_in t < 2 ^ 32 }
    ensures { AlternativeCounted t result }
{
    Tally {
        alternatives: t.alternatives + 1,
        ..t
    }
}

impl Visitor for Tally {
    ghost State = { Tally };

    ghost steps = { λ ws v. counting };

    ghost state = { λ ws d t. t };

    // There are fewer ids than words.
    ghost Fits = { λ ws end d at t. ids_in t ≤ at };

    ghost Kept = { λ ws end a b. Unit {0} };

    fn leaf(&mut self, s: &Sheet, _depth: u32, at: usize, head: Head) {
        *self = with_own(s.bytes, at, head.kind, *self);
    }

    fn enter_block(&mut self, s: &Sheet, _depth: u32, at: usize, head: Head) {
        *self = with_own(s.bytes, at, head.kind, *self);
    }

    fn enter_alternative(&mut self, _s: &Sheet, _depth: u32, _at: usize) {
        *self = with_alternative(*self);
    }

    ghost laws = { Prim.search rules };
}

// The element at `at`, with all that is in it.
pub fn element(s: &Sheet, depth: u32, at: usize, t: Tally) -> Passed
    requires bounds { ids_in t ≤ at }
    requires found_element { FoundElement (text s.now) s.now.end depth at }
    ensures { (ids_in result.tally ≤ result.at)
        × ElementWalked counting (text s.now) s.now.end depth at t result.at result.tally }
{
    let mut tally = t;
    let there = walk_element(&mut tally, s, depth, at);
    Passed { at: there, tally }
}
