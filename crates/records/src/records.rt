// Whether a record stands between a place and the end of the rules, and where it stops.
ghost use Rattle.std.specs.Prelude.{◌≡◌, ℕ, ◌+◌, ◌-◌, ◌*◌, ◌<◌, ◌≤◌, ◌^◌, length, Option};
ghost use Rattle.grammar.specs.Tree.{ElementHead};
ghost use Rattle.grammar.specs.Words.{words};
ghost use Rattle.grammar.specs.Read.{is_name, is_label, action_of, option_at, reference_at, body_at, call_at_in, token_at, leaf_at_in};
ghost use Rattle.grammar.specs.Read.{head_at, payload_at_in, element_at_in, alternative_at_in, block_at_in};
ghost use Rattle.grammar.specs.Parse.{many};
ghost use Rattle.words.specs.Kinds.{kind_number};
ghost use Rattle.records.specs.Lent.{form, text};
ghost use Rattle.records.specs.Step.{is_fixed, named, repeated, step_of};

use crate::lent::Records;
use words::numbers::{AlternativeFlag, Kind, Name, Quantifier, ReferenceKind};
use words::words::word;

pub fn is_name(w: u32) -> bool
    ensures { result ≡ is_name w }
{
    Name::LEAST <= w && w <= Name::MOST
}

fn is_label(id: u32, name: u32) -> bool
    ensures { result ≡ is_label id name }
{
    is_name(name) || (name == 0 && id == 0)
}

// A name in the first of n words.
fn named_at(s: &Records, n: usize, at: usize) -> Option<usize>
    requires { 1 ≤ n }
    ensures { result ≡ step_of (named (text s.now) s.now.end n at) }
{
    if !s.has_room(n, at) {
        return None;
    }
    is_name(word(s.bytes, at)).then_some(at + n)
}

// n records, one after the other.
#[tactic(auto, using(crate::proofs::Laws::Steps::lefts))]
fn many<F: Fn(usize) -> Option<usize>>(one: F, n: u32, at: usize) -> Option<usize>
    requires { F.IsAlwaysCallable one }
    ensures { (step : ℕ → Option ℕ) → ((x : ℕ) (r : Option ℕ) → x < 2 ^ 64 → F.post one x r → r ≡ step x)
        → result ≡ repeated step n at }
{
    let mut p = at;
    for _ in 0..n {
        p = one(p)?;
    }
    Some(p)
}

#[tactic(auto, using(crate::proofs::Laws::Records::names))]
fn option_at(s: &Records, at: usize) -> Option<usize>
    ensures { result ≡ step_of (option_at (text s.now) s.now.end at) }
{
    named_at(s, 2, at)
}

fn options_at(s: &Records, n: u32, at: usize) -> Option<usize>
    ensures { result ≡ step_of (many (option_at (text s.now) s.now.end) n at) }
{
    many(|p| option_at(s, p), n, at)
}

#[tactic(auto, using(crate::proofs::Laws::Records::shorts, crate::proofs::Laws::Records::references))]
fn reference_at(s: &Records, at: usize) -> Option<usize>
    ensures { result ≡ step_of (reference_at (text s.now) s.now.end at) }
{
    if !s.has_room(2, at) {
        return None;
    }
    if ReferenceKind::try_from(word(s.bytes, at)).is_err() {
        return None;
    }
    if is_name(word(s.bytes, at + 1)) {
        return Some(at + 2);
    }
    None
}

fn references_at(s: &Records, n: u32, at: usize) -> Option<usize>
    ensures { result ≡ step_of (many (reference_at (text s.now) s.now.end) n at) }
{
    many(|p| reference_at(s, p), n, at)
}

// The payload of an action; a predicate's is the same.
#[tactic(auto, using(crate::proofs::Laws::Records::shorts, crate::proofs::Laws::Records::references))]
fn body_at(s: &Records, at: usize) -> Option<usize>
    ensures { result ≡ step_of (body_at (text s.now) s.now.end action_of at) }
{
    if !s.has_room(2, at) {
        return None;
    }
    references_at(s, word(s.bytes, at + 1), at + 2)
}

#[tactic(auto, using(crate::proofs::Laws::Records::names))]
fn call_at(s: &Records, at: usize) -> Option<usize>
    ensures { result ≡ step_of (call_at_in (form s.now) (text s.now) s.now.end at) }
{
    named_at(s, s.form.call_words(), at)
}

#[tactic(auto, using(crate::proofs::Laws::Records::names))]
fn token_at(s: &Records, at: usize) -> Option<usize>
    ensures { result ≡ step_of (token_at (text s.now) s.now.end at) }
{
    named_at(s, 1, at)
}

#[tactic(auto, using(crate::proofs::Laws::Records::leaves))]
fn leaf_at(s: &Records, kind: Kind, at: usize) -> Option<usize>
    ensures { result ≡ step_of (leaf_at_in (form s.now) (text s.now) s.now.end (kind_number kind) at) }
{
    match kind {
        Kind::Epsilon | Kind::Terminal | Kind::EndOfInput => Some(at),
        Kind::Call => call_at(s, at),
        Kind::Token => token_at(s, at),
        Kind::Action | Kind::Predicate => body_at(s, at),
        _ => None,
    }
}

// Quantifier and label in the fixed words of an element.
#[tactic(auto, using(crate::proofs::Laws::Trees::heads))]
fn is_head(s: &[u8], at: usize) -> bool
    requires { 4 * (at + 6) ≤ length s.now }
    ensures { result ≡ is_fixed (words s.now) at }
{
    if Quantifier::try_from(word(s, at + 2) / Kind::END).is_err() {
        return false;
    }
    is_label(word(s, at + 3), word(s, at + 4))
}

// An element's fixed words and options, where the fixed words have room.
#[tactic(auto, using(crate::proofs::Laws::Trees::heads))]
fn head_at(s: &Records, at: usize) -> Option<usize>
    requires { 6 ≤ s.now.end - at }
    ensures { result ≡ step_of (head_at (text s.now) s.now.end at) }
{
    if is_head(s.bytes, at) {
        return options_at(s, word(s.bytes, at + 5), at + 6);
    }
    None
}

#[tactic(auto, using(crate::proofs::Laws::Trees::trees))]
#[cycle(tree)]
fn payload_at(s: &Records, depth: u32, kind: Kind, at: usize) -> Option<usize>
    ensures { (h : ElementHead)
        → result ≡ step_of
        (payload_at_in (form s.now) (text s.now) s.now.end (block_at_in (form s.now) (text s.now) s.now.end depth)
        h (kind_number kind) at) }
{
    match kind {
        Kind::Block => block_at(s, depth, at),
        _ => leaf_at(s, kind, at),
    }
}

#[tactic(auto, using(crate::proofs::Laws::Trees::trees))]
#[cycle(tree)]
fn element_at(s: &Records, depth: u32, at: usize) -> Option<usize>
    ensures { result ≡ step_of (element_at_in (form s.now) (text s.now) s.now.end
        (block_at_in (form s.now) (text s.now) s.now.end depth) at) }
{
    if !s.has_room(6, at) {
        return None;
    }
    let kind = Kind::try_from(word(s.bytes, at + 2) % Kind::END).ok()?;
    let p = head_at(s, at)?;
    payload_at(s, depth, kind, p)
}

// Stays: this loop is its own, as that of alternatives is: a closure for `many` would state the contract of what it calls once more,
// and put two more frames on the stack at each depth.
#[cycle(tree)]
fn elements_at(s: &Records, depth: u32, n: u32, at: usize) -> Option<usize>
    ensures { result ≡ step_of (many (element_at_in (form s.now) (text s.now) s.now.end
        (block_at_in (form s.now) (text s.now) s.now.end depth)) n at) }
{
    let mut p = at;
    for _ in 0..n {
        p = element_at(s, depth, p)?;
    }
    Some(p)
}

#[tactic(auto, using(crate::proofs::Laws::Trees::trees))]
#[cycle(tree)]
fn alternative_at(s: &Records, depth: u32, at: usize) -> Option<usize>
    ensures { result ≡ step_of (alternative_at_in (form s.now) (text s.now) s.now.end
        (block_at_in (form s.now) (text s.now) s.now.end depth) at) }
{
    if !s.has_room(5, at) {
        return None;
    }
    if AlternativeFlag::MOST < word(s.bytes, at + 2) {
        return None;
    }
    let n = word(s.bytes, at + 4);
    let p = options_at(s, word(s.bytes, at + 3), at + 5)?;
    elements_at(s, depth, n, p)
}

#[cycle(tree)]
fn alternatives_at(s: &Records, depth: u32, n: u32, at: usize) -> Option<usize>
    ensures { result ≡ step_of (many (alternative_at_in (form s.now) (text s.now) s.now.end
        (block_at_in (form s.now) (text s.now) s.now.end depth)) n at) }
{
    let mut p = at;
    for _ in 0..n {
        p = alternative_at(s, depth, p)?;
    }
    Some(p)
}

// The count and the alternatives of a block that may nest blocks less than `depth` deep.
#[tactic(auto, using(crate::proofs::Laws::Trees::trees))]
#[cycle(tree)]
pub fn block_at(s: &Records, depth: u32, at: usize) -> Option<usize>
    ensures { result ≡ step_of (block_at_in (form s.now) (text s.now) s.now.end depth at) }
{
    if depth == 0 {
        return None;
    }
    if !s.has_room(1, at) {
        return None;
    }
    alternatives_at(s, depth - 1, word(s.bytes, at), at + 1)
}
