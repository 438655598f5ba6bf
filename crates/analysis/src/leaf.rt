// What is seen at one leaf of a body: a call, a symbol, or what takes no input.
ghost use Rattle.std.specs.Prelude.{◌≡◌, ◌+◌, ◌*◌, ◌<◌, ◌≤◌, length, get_or};
ghost use Rattle.grammar.specs.Numbers.{rule_limit};
ghost use Rattle.grammar.specs.Words.{words};
ghost use Rattle.analysis.specs.Corners.{corners_of};
ghost use Rattle.analysis.specs.Survey.{view_of, seen_of, into, unseen, skipping, past_call, SymbolSeen, NameSeen, LeafSeen};
ghost use Rattle.words.specs.Kinds.{kind_number};
ghost use Rattle.words.specs.Sheet.{text};

use crate::corners::Corners;
use crate::known::Known;
use reach::rows::{Row, add_if, has, with};
use words::numbers::{Kind, Quantifier};
use words::sheet::Sheet;
use words::walk::Head;
use words::words::word;

// What a walk has seen: the rules that are called, the left corners among them, whether something stops inlining, whether left
// corners are still sought, and whether all in front is nullable.
#[derive(Clone, Copy, Debug, PartialEq, Eq)]
pub struct Seen {
    pub calls: [u64; Row::WORDS],
    pub corners: [u64; Row::WORDS],
    pub stops: bool,
    pub seeks: bool,
    pub null: bool,
}

impl Seen {
    // Nothing yet.
    #[tactic(auto, using(crate::proofs::Laws::Seen::begun))]
    pub fn begin(null: bool) -> Seen
        ensures { seen_of result ≡ into null unseen }
    {
        Seen {
            calls: [0; Row::WORDS],
            corners: [0; Row::WORDS],
            stops: false,
            seeks: true,
            null,
        }
    }
}

// A call of rule i, which can be empty or not.
#[tactic(auto, using(crate::proofs::Laws::Seen::call_seen))]
fn see_call(i: usize, empty: bool, t: &mut Seen)
    requires { i < rule_limit }
    ensures { seen_of t.new ≡ past_call (seen_of t.old) i empty }
{
    let calls = with(t.calls, i);
    let corners = add_if(t.corners, i, t.seeks);
    t.calls.copy_from_slice(&calls);
    t.corners.copy_from_slice(&corners);
    t.seeks &= empty;
    t.null &= empty;
}

// A token, or a name that is no rule's.
pub fn see_symbol(reading: Corners, skips: bool, t: &mut Seen)
    ensures { SymbolSeen (corners_of reading) skips t.old t.new }
{
    t.seeks &= reading.passes_symbols() & skips;
    t.null &= skips;
}

// A call of a name: of a rule, or of a symbol.
fn see_name(v: &Known, name: u32, skips: bool, t: &mut Seen)
    ensures { NameSeen (view_of v.now) name skips (seen_of t.old) (seen_of t.new) }
{
    match v.names.look_up(v.table, name) {
        None => see_symbol(v.reading, skips, t),
        Some(i) => {
            let empty = skips | has(v.nullable, i);
            see_call(i, empty, t);
        }
    }
}

// An element that is no block, whose payload stands at `head.payload`.
#[tactic(auto, using(crate::proofs::Laws::Seen::leaves))]
pub fn see_leaf(s: &Sheet, v: &Known, head: Head, skips: bool, t: &mut Seen)
    requires { head.payload ≤ s.now.end }
    ensures { LeafSeen (view_of v.now) (text s.now) s.now.end (kind_number head.kind) head.payload skips (seen_of t.old) (seen_of t.new) }
{
    match head.kind {
        Kind::Call => see_name(v, word(s.bytes, head.payload), skips, t),
        Kind::Token | Kind::Terminal | Kind::Block => see_symbol(v.reading, skips, t),
        Kind::Epsilon | Kind::EndOfInput => {}
        Kind::Action | Kind::Predicate => t.stops = true,
    }
}

// Whether the quantifier of the element at `at` lets it be left out.
#[tactic(auto, using(crate::proofs::Laws::Walks::no_skips))]
pub fn skips_at(s: &[u8], at: usize) -> bool
    requires { 4 * (at + 6) ≤ length s.now }
    ensures { result ≡ skipping (get_or (words s.now) (at + 2) 0) }
{
    matches!(
        Quantifier::try_from(word(s, at + 2) / Kind::END),
        Ok(
            Quantifier::OptionalGreedy
                | Quantifier::OptionalNongreedy
                | Quantifier::ZeroOrMoreGreedy
                | Quantifier::ZeroOrMoreNongreedy
        )
    )
}
