// One walk for all that is to be done in a tree that stands in a sheet: a visitor says what. An element and a block are passed
// by each other.
ghost use Rattle.std.specs.Prelude.{◌≡◌, ℕ, List, ◌+◌, ◌-◌, ◌≤◌};
ghost use Rattle.grammar.specs.Numbers.{block_kind};
ghost use Rattle.grammar.specs.Tree.{inner_depth};
ghost use Rattle.grammar.specs.Found.{FoundElement, FoundElements, FoundAlternative, FoundAlternatives, FoundRule, FoundRules, HeadAt};
ghost use Rattle.grammar.specs.Fold.{Steps, ElementWalked, ElementsWalked, AlternativeWalked, AlternativesWalked};
ghost use Rattle.grammar.specs.Fold.{RuleWalked, RulesWalked};
ghost use Rattle.words.specs.Visit.{LeafPassed, BlockEntered, AlternativeEntered, VisitorLaws};
ghost use Rattle.words.specs.Kinds.{kind_number};
ghost use Rattle.words.specs.Sheet.{text};

use crate::numbers::{Block, Kind};
use crate::sheet::Sheet;
use crate::walk::{Head, alternative_head, element_head, leaf_end};
use crate::words::word;

// What is done at each leaf, block and alternative of a walk. Behind a block or an alternative the walk goes on with nothing
// done there; a level that falls again follows from the depth.
pub trait Visitor {
    // The state of the fold that the walk is.
    ghost State: { Type 0 };

    // The fold's steps, in a sheet of certain words, and the state of a visitor at a depth.
    ghost steps: { List ℕ → Self → Steps Self.State };

    ghost state: { List ℕ → ℕ → Self → Self.State };

    // What holds in a sheet that ends at a word, at a depth and a place; and what a visit leaves as it was.
    ghost Fits: { List ℕ → ℕ → ℕ → ℕ → Self → Type 0 };

    ghost Kept: { List ℕ → ℕ → Self → Self → Type 0 };

    // The element at `at`, which is no block.
    fn leaf(&mut self, s: &Sheet, depth: u32, at: usize, head: Head)
        requires bounds { Self.Fits (text s.now) s.now.end depth at self.old }
        requires head_at { HeadAt (text s.now) s.now.end at (kind_number head.kind) head.payload × (kind_number head.kind ≡ block_kind → ⊥)
            × FoundElement (text s.now) s.now.end depth at }
        ensures { Self.Kept (text s.now) s.now.end self.old self.new × Self.Fits (text s.now) s.now.end depth (at + 6) self.new
            × LeafPassed (Self.steps (text s.now) self.old) (text s.now) s.now.end at head.payload
            (Self.state (text s.now) depth self.old) (Self.state (text s.now) depth self.new) };

    // The head of the element at `at`, which is a block.
    fn enter_block(&mut self, s: &Sheet, depth: u32, at: usize, head: Head)
        requires bounds { Self.Fits (text s.now) s.now.end depth at self.old × (1 ≤ depth) }
        requires head_at { HeadAt (text s.now) s.now.end at (kind_number head.kind) head.payload × (kind_number head.kind ≡ block_kind)
            × FoundElement (text s.now) s.now.end depth at }
        ensures { Self.Kept (text s.now) s.now.end self.old self.new × Self.Fits (text s.now) s.now.end (depth - 1) (at + 6) self.new
            × BlockEntered (Self.steps (text s.now) self.old) (text s.now) s.now.end at head.payload
            (Self.state (text s.now) depth self.old) (Self.state (text s.now) (depth - 1) self.new) };

    // The head of the alternative at `at`.
    fn enter_alternative(&mut self, s: &Sheet, depth: u32, at: usize)
        requires bounds { Self.Fits (text s.now) s.now.end depth at self.old × (at + 5 ≤ s.now.end) }
        requires found_alternative { FoundAlternative (text s.now) s.now.end depth at }
        ensures { Self.Kept (text s.now) s.now.end self.old self.new × Self.Fits (text s.now) s.now.end depth (at + 5) self.new
            × AlternativeEntered (Self.steps (text s.now) self.old) (text s.now) s.now.end at depth
            (Self.state (text s.now) depth self.old) (Self.state (text s.now) depth self.new) };

    ghost laws: { VisitorLaws Self.steps Self.state Self.Fits Self.Kept };
}

// The element at `at`, with all that is in it; returned is where it ends.
#[cycle(tree)]
#[inline]
pub fn walk_element<V: Visitor>(v: &mut V, s: &Sheet, depth: u32, at: usize) -> usize
    requires bounds { V.Fits (text s.now) s.now.end depth at v.old }
    requires found_element { FoundElement (text s.now) s.now.end depth at }
    ensures { V.Kept (text s.now) s.now.end v.old v.new × V.Fits (text s.now) s.now.end depth result v.new
        × ElementWalked (V.steps (text s.now) v.old) (text s.now) s.now.end depth at
        (V.state (text s.now) depth v.old) result (V.state (text s.now) depth v.new) }
{
    let head = element_head(s, depth, at);
    match head.kind {
        Kind::Block => {
            v.enter_block(s, depth, at, head);
            let count = word(s.bytes, head.payload);
            walk_alternatives(v, s, depth - 1, count, head.payload + 1)
        }
        _ => {
            v.leaf(s, depth, at, head);
            leaf_end(s, depth, at, head)
        }
    }
}

// n elements from `at` on.
#[cycle(tree)]
#[inline]
pub fn walk_elements<V: Visitor>(v: &mut V, s: &Sheet, depth: u32, n: u32, at: usize) -> usize
    requires bounds { V.Fits (text s.now) s.now.end depth at v.old × (at ≤ s.now.end) }
    requires found_elements { FoundElements (text s.now) s.now.end depth n at }
    ensures { V.Kept (text s.now) s.now.end v.old v.new × V.Fits (text s.now) s.now.end depth result v.new
        × ElementsWalked (V.steps (text s.now) v.old) (text s.now) s.now.end depth n at
        (V.state (text s.now) depth v.old) result (V.state (text s.now) depth v.new) }
{
    let mut p = at;
    for _ in 0..n {
        p = walk_element(v, s, depth, p);
    }
    p
}

// The alternative at `at`, with all that is in it.
#[cycle(tree)]
#[inline]
pub fn walk_alternative<V: Visitor>(v: &mut V, s: &Sheet, depth: u32, at: usize) -> usize
    requires bounds { V.Fits (text s.now) s.now.end depth at v.old }
    requires found_alternative { FoundAlternative (text s.now) s.now.end depth at }
    ensures { V.Kept (text s.now) s.now.end v.old v.new × V.Fits (text s.now) s.now.end depth result v.new
        × AlternativeWalked (V.steps (text s.now) v.old) (text s.now) s.now.end depth at
        (V.state (text s.now) depth v.old) result (V.state (text s.now) depth v.new) }
{
    let inner = alternative_head(s, depth, at);
    v.enter_alternative(s, depth, at);
    walk_elements(v, s, depth, inner.count, inner.first)
}

// n alternatives from `at` on: a block. The call for a block is the one that stays a call, so that a leaf takes none.
#[cycle(tree)]
#[inline(never)]
pub fn walk_alternatives<V: Visitor>(v: &mut V, s: &Sheet, depth: u32, n: u32, at: usize) -> usize
    requires bounds { V.Fits (text s.now) s.now.end depth at v.old × (at ≤ s.now.end) }
    requires found_alternatives { FoundAlternatives (text s.now) s.now.end depth n at }
    ensures { V.Kept (text s.now) s.now.end v.old v.new × V.Fits (text s.now) s.now.end depth result v.new
        × AlternativesWalked (V.steps (text s.now) v.old) (text s.now) s.now.end depth n at
        (V.state (text s.now) depth v.old) result (V.state (text s.now) depth v.new) }
{
    let mut p = at;
    for _ in 0..n {
        p = walk_alternative(v, s, depth, p);
    }
    p
}

// The body of the rule at `at`.
pub fn walk_rule<V: Visitor>(v: &mut V, s: &Sheet, at: usize) -> usize
    requires bounds { V.Fits (text s.now) s.now.end inner_depth at v.old × (at + 4 ≤ s.now.end) }
    requires found_rule { FoundRule (text s.now) s.now.end at }
    ensures { V.Kept (text s.now) s.now.end v.old v.new × V.Fits (text s.now) s.now.end inner_depth result v.new
        × RuleWalked (V.steps (text s.now) v.old) (text s.now) s.now.end at
        (V.state (text s.now) inner_depth v.old) result (V.state (text s.now) inner_depth v.new) }
{
    let count = word(s.bytes, at + 3);
    walk_alternatives(v, s, Block::DEPTH, count, at + 4)
}

// The bodies of n rules from `at` on.
pub fn walk_rules<V: Visitor>(v: &mut V, s: &Sheet, n: u32, at: usize) -> usize
    requires bounds { V.Fits (text s.now) s.now.end inner_depth at v.old × (at ≤ s.now.end) }
    requires found_rules { FoundRules (text s.now) s.now.end n at }
    ensures { V.Kept (text s.now) s.now.end v.old v.new × V.Fits (text s.now) s.now.end inner_depth result v.new
        × RulesWalked (V.steps (text s.now) v.old) (text s.now) s.now.end n at
        (V.state (text s.now) inner_depth v.old) result (V.state (text s.now) inner_depth v.new) }
{
    let mut p = at;
    for _ in 0..n {
        p = walk_rule(v, s, p);
    }
    p
}
