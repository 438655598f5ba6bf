// Tests of one element of the planned list, and of the elements of an alternative.
ghost use Rattle.std.specs.Prelude.{◌≡◌, ◌||◌, ◌+◌, ◌/◌, ◌≤◌, get_or, eqb};
ghost use Rattle.grammar.specs.Numbers.{once, kind_end};
ghost use Rattle.grammar.specs.Found.{FoundElement};
ghost use Rattle.grammar.specs.Tree.{inner_depth};
ghost use Rattle.reference.specs.Walks.{is_epsilon_only};
ghost use Rattle.planned.specs.Shown.{meant};
ghost use Rattle.rewritable.specs.Items.{is_call_of, gives_arguments, starts_with_call, may_be_rewritten, ItemTested};
ghost use Rattle.words.specs.Sheet.{text};

use planned::list::Item;
use planned::shown::Shown;
use words::numbers::{Block, Kind, Quantifier};
use words::sheet::Sheet;
use words::walk::element_head;
use words::words::word;

// Whether the quantifier of an element is 0, as it is once it was made plain.
#[tactic(auto, using(crate::proofs::Laws::Items::never_once))]
fn is_one(s: &Sheet, e: Item) -> bool
    requires { e.at + 6 ≤ s.now.end }
    ensures { result ≡ (e.plain || eqb (get_or (text s.now) (e.at + 2) 0 / kind_end) once) }
{
    if e.plain {
        return true;
    }
    matches!(
        Quantifier::try_from(word(s.bytes, e.at + 2) / Kind::END),
        Ok(Quantifier::Once)
    )
}

// Whether an element is a call of a name, with quantifier 0.
fn is_call_of(s: &Sheet, name: u32, e: Item) -> bool
    requires { FoundElement (text s.now) s.now.end inner_depth e.at }
    ensures { ItemTested (text s.now) s.now.end inner_depth e.at e.plain (is_call_of name) result }
{
    let head = element_head(s, Block::DEPTH, e.at);
    match head.kind {
        Kind::Call => is_one(s, e) && word(s.bytes, head.payload) == name,
        _ => false,
    }
}

// Whether such a call gives arguments.
fn gives_arguments(s: &Sheet, name: u32, e: Item) -> bool
    requires { FoundElement (text s.now) s.now.end inner_depth e.at }
    ensures { ItemTested (text s.now) s.now.end inner_depth e.at e.plain (gives_arguments name) result }
{
    is_call_of(s, name, e) && word(s.bytes, element_head(s, Block::DEPTH, e.at).payload + 1) != 0
}

// Whether an element is epsilon, an action or a predicate.
fn is_silent(s: &Sheet, e: Item) -> bool
    requires { FoundElement (text s.now) s.now.end inner_depth e.at }
    ensures { ItemTested (text s.now) s.now.end inner_depth e.at e.plain is_epsilon_only result }
{
    matches!(
        element_head(s, Block::DEPTH, e.at).kind,
        Kind::Epsilon | Kind::Action | Kind::Predicate
    )
}

// Whether an alternative begins with a call of a name.
pub fn starts_with_call(a: &Shown, name: u32) -> bool
    ensures { result ≡ starts_with_call name (meant a.now).elements }
{
    a.x.ne != 0 && is_call_of(a.s, name, a.item(0))
}

// Whether an alternative gives the hub no arguments, and is more than epsilon, actions and predicates.
pub fn may_be_rewritten(a: &Shown, name: u32) -> bool
    ensures { result ≡ may_be_rewritten name (meant a.now).elements }
{
    let mut silent = true;
    for i in 0..a.x.ne {
        let e = a.item(i);
        if gives_arguments(a.s, name, e) {
            return false;
        }
        silent &= is_silent(a.s, e);
    }
    !silent
}
