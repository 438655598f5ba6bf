// The corner of a planned alternative (SPECIFICATION 8.2 to 8.5): the first element that is significant decides.
ghost use Rattle.std.specs.Prelude.{◌≡◌, ◌+◌, ◌*◌, ◌<◌, ◌≤◌, length};
ghost use Rattle.grammar.specs.Tree.{inner_depth};
ghost use Rattle.grammar.specs.Words.{words};
ghost use Rattle.grammar.specs.Found.{FoundElement};
ghost use Rattle.planned.specs.List.{Located, ListedIn};
ghost use Rattle.steps.specs.Corner.{bare_at, quantifier_at, met_member, CallMet, ItemMet, CornerAt};
ghost use Rattle.words.specs.Kinds.{quantifier_number};
ghost use Rattle.words.specs.Sheet.{text};

use crate::cycle::Cycle;
use planned::list::{Item, Listed};
use planned::read::item;
use reach::rows::has;
use words::numbers::{Block, Kind, Quantifier};
use words::sheet::Sheet;
use words::walk::element_head;
use words::words::word;

// Where a member is met: the element's index, and the member's place.
#[derive(Clone, Copy, Debug, PartialEq, Eq)]
pub struct Place {
    pub index: usize,
    pub target: usize,
}

// What decides about an alternative, and where a member is met.
// Stays: each of the four cases has a meaning of its own in SPECIFICATION 8.2 to 8.5, and they are those of the definition.
#[derive(Clone, Copy, Debug, PartialEq, Eq)]
pub enum Corner {
    Settled,
    Blocked,
    Optional(Place),
    Satellite(Place),
}

// Without label, arguments and options.
fn is_bare(s: &[u8], at: usize, payload: usize) -> bool
    requires { (4 * (at + 6) ≤ length s.now) × (4 * (payload + 2) ≤ length s.now) }
    ensures { result ≡ bare_at (words s.now) at payload }
{
    word(s, at + 4) == 0 && word(s, payload + 1) == 0 && word(s, at + 5) == 0
}

// A call of a member: split, left as it is, spliced, or in the way.
fn meet_member(bare: bool, quantifier: Quantifier, p: Place, hub: usize) -> Corner
    ensures { result ≡ met_member bare (quantifier_number quantifier) p hub }
{
    match quantifier {
        Quantifier::OptionalGreedy if bare => Corner::Optional(p),
        Quantifier::Once if p.target == hub => Corner::Settled,
        Quantifier::Once if bare => Corner::Satellite(p),
        _ => Corner::Blocked,
    }
}

// A call of a name, at an index; one of no rule, or of a rule outside the cycle, is settled.
fn meet_call(c: &Cycle, index: usize, name: u32, bare: bool, quantifier: Quantifier) -> Corner
    ensures { CallMet c.now.names.list.now c.now index name bare (quantifier_number quantifier) result }
{
    let members = c.members;
    match c.names.scan(name) {
        Some(target) if has(members, target) => {
            meet_member(bare, quantifier, Place { index, target }, c.hub)
        }
        _ => Corner::Settled,
    }
}

// The quantifier of an element of the list.
fn quantifier_of(s: &Sheet, x: Item) -> Quantifier
    requires bounds { x.at + 6 ≤ s.now.end }
    requires found_element { FoundElement (text s.now) s.now.end inner_depth x.at }
    ensures { quantifier_number result ≡ quantifier_at (text s.now) x.at x.plain }
{
    if x.plain {
        return Quantifier::Once;
    }
    let number = word(s.bytes, x.at + 2) / Kind::END;
    Quantifier::try_from(number).unwrap()
}

// The element at an index of the list: nothing, where it takes no input.
fn meet_item(s: &Sheet, c: &Cycle, index: usize, x: Item) -> Option<Corner>
    requires { FoundElement (text s.now) s.now.end inner_depth x.at }
    ensures { ItemMet c.now.names.list.now c.now (text s.now) s.now.end inner_depth index x.at x.plain result }
{
    let head = element_head(s, Block::DEPTH, x.at);
    let kind = head.kind;
    let payload = head.payload;
    match kind {
        Kind::Epsilon | Kind::Action | Kind::Predicate => None,
        Kind::Call => {
            let bare = is_bare(s.bytes, x.at, payload);
            let quantifier = quantifier_of(s, x);
            Some(meet_call(c, index, word(s.bytes, payload), bare, quantifier))
        }
        Kind::Token | Kind::Terminal | Kind::Block | Kind::EndOfInput => Some(Corner::Settled),
    }
}

// The corner of an alternative that is listed. It is looked for in each turn, so that no call is wanted: with one, a list that is stopped
// by refusal 7 takes a sixth longer.
// Stays: sheet, work area and list entry are no `Shown` here: tried, and such a list took a thirtieth longer, both times inlined.
#[inline(always)]
pub fn find_corner(s: &Sheet, work: &[u8], x: Listed, c: &Cycle) -> Corner
    requires { Located work.now x × ListedIn (text s.now) s.now.end inner_depth work.now x }
    ensures { CornerAt c.now.names.list.now c.now (text s.now) s.now.end inner_depth work.now x result }
{
    for i in 0..x.ne {
        if let Some(met) = meet_item(s, c, i, item(work, x, i)) {
            return met;
        }
    }
    Corner::Settled
}
