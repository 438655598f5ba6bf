// One walk over alternatives and elements: what is seen in them.
// Stays: this is no visitor of the common walk (words::visit). That has no step behind a block or an alternative, at which this one joins
// what was seen in front of it with what was seen in it. With two such steps in the trait its eight visitors would each state and show
// that they do nothing there, and this one would keep what was seen in front, which lies in the frames of its calls now, in rows by depth.
ghost use Rattle.std.specs.Prelude.{◌≤◌};
ghost use Rattle.grammar.specs.Found.{FoundElement, FoundElements, FoundAlternative, FoundAlternatives};
ghost use Rattle.grammar.specs.Fold.{ElementWalked, ElementsWalked, AlternativeWalked, AlternativesWalked};
ghost use Rattle.analysis.specs.Survey.{view_of, seen_of, surveying};
ghost use Rattle.words.specs.Sheet.{text};

use crate::known::Known;
use crate::leaf::{Seen, see_leaf, see_symbol, skips_at};
use words::numbers::Kind;
use words::sheet::Sheet;
use words::walk::{alternative_head, element_head, leaf_end};
use words::words::word;

// The element at `at`, a block with all that is in it. Most are tokens, which are seen here, without a call.
#[cycle(tree)]
pub fn element(s: &Sheet, v: &Known, depth: u32, at: usize, t: &mut Seen) -> usize
    requires { FoundElement (text s.now) s.now.end depth at }
    ensures { ElementWalked (surveying (view_of v.now)) (text s.now) s.now.end depth at (seen_of t.old) result (seen_of t.new) }
{
    let head = element_head(s, depth, at);
    match head.kind {
        Kind::Token => {
            see_symbol(v.reading, skips_at(s.bytes, at), t);
            leaf_end(s, depth, at, head)
        }
        _ => other_element(s, v, depth, at, t),
    }
}

// The same of any element, in a function of its own so that `element` stays small.
#[cycle(tree)]
fn other_element(s: &Sheet, v: &Known, depth: u32, at: usize, t: &mut Seen) -> usize
    requires { FoundElement (text s.now) s.now.end depth at }
    ensures { ElementWalked (surveying (view_of v.now)) (text s.now) s.now.end depth at (seen_of t.old) result (seen_of t.new) }
{
    let head = element_head(s, depth, at);
    let skips = skips_at(s.bytes, at);
    match head.kind {
        Kind::Block => {
            let count = word(s.bytes, head.payload);
            let seeks = t.seeks;
            let null = t.null;
            t.null = false;
            let there = alternatives(s, v, depth - 1, count, head.payload + 1, t);
            let empty = skips | t.null;
            t.seeks = seeks & empty;
            t.null = null & empty;
            there
        }
        _ => {
            see_leaf(s, v, head, skips, t);
            leaf_end(s, depth, at, head)
        }
    }
}

// n elements from `at` on.
#[cycle(tree)]
fn elements(s: &Sheet, v: &Known, depth: u32, n: u32, at: usize, t: &mut Seen) -> usize
    requires bounds { at ≤ s.now.end }
    requires found_elements { FoundElements (text s.now) s.now.end depth n at }
    ensures { ElementsWalked (surveying (view_of v.now)) (text s.now) s.now.end depth n at (seen_of t.old) result (seen_of t.new) }
{
    let mut p = at;
    for _ in 0..n {
        p = element(s, v, depth, p, t);
    }
    p
}

// The alternative at `at`.
#[cycle(tree)]
pub fn alternative(s: &Sheet, v: &Known, depth: u32, at: usize, t: &mut Seen) -> usize
    requires { FoundAlternative (text s.now) s.now.end depth at }
    ensures { AlternativeWalked (surveying (view_of v.now)) (text s.now) s.now.end depth at (seen_of t.old) result (seen_of t.new) }
{
    let head = alternative_head(s, depth, at);
    let seeks = t.seeks;
    let null = t.null;
    t.null = true;
    let there = elements(s, v, depth, head.count, head.first, t);
    t.seeks = seeks;
    t.null = null | t.null;
    there
}

// n alternatives from `at` on: a block.
#[cycle(tree)]
fn alternatives(s: &Sheet, v: &Known, depth: u32, n: u32, at: usize, t: &mut Seen) -> usize
    requires bounds { at ≤ s.now.end }
    requires found_alternatives { FoundAlternatives (text s.now) s.now.end depth n at }
    ensures { AlternativesWalked (surveying (view_of v.now)) (text s.now) s.now.end depth n at (seen_of t.old) result (seen_of t.new) }
{
    let mut p = at;
    for _ in 0..n {
        p = alternative(s, v, depth, p, t);
    }
    p
}
