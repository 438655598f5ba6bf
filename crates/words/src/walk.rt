// The walking layer: where the parts of a tree that stands in a sheet begin and end.
ghost use Rattle.std.specs.Prelude.{◌≡◌, ◌+◌, ◌*◌, ◌<◌, ◌≤◌, ◌^◌};
ghost use Rattle.grammar.specs.Numbers.{block_kind};
ghost use Rattle.grammar.specs.Found.{FoundElement, FoundAlternative, HeadAt, AlternativeAt, LeafEnd};
ghost use Rattle.grammar.specs.Found.{FoundElementIn, FoundAlternativeIn, LeafEndIn};
ghost use Rattle.words.specs.Form.{form_of};
ghost use Rattle.words.specs.Kinds.{kind_number};
ghost use Rattle.words.specs.Sheet.{text};

use crate::form::Form;
use crate::numbers::Kind;
use crate::sheet::Sheet;
use crate::words::word;

// That a record is found at a place, and what its head is, are clauses, here and in all that walks.
// Stays: these are no ghost fields. A walk goes from place to place, so each call would make a value of sheet, place and
// depth or head, and show of it what it shows for the clause. The prover takes a found record as a ghost field only with a proof that
// there is one tree at a place at most, or in ∥ ∥₁; both were tried.

// Where an element's payload begins, and its kind.
#[derive(Clone, Copy, Debug, PartialEq, Eq)]
pub struct Head {
    pub kind: Kind,
    pub payload: usize,
}

// Where an alternative's elements begin, and how many there are.
#[derive(Clone, Copy, Debug, PartialEq, Eq)]
pub struct Elements {
    pub count: u32,
    pub first: usize,
}

// A record's options are two words each.
fn past_options(from: usize, n: u32) -> usize
    requires { from < 2 ^ 32 }
    ensures { result ≡ from + 2 * n }
{
    from + 2 * (n as usize)
}

// Each of these three takes a form, and is there for the newest. A head has the same words in every form: the form only says which
// record it is that stands there.
pub fn element_head_in(form: Form, s: &Sheet, depth: u32, at: usize) -> Head
    requires bounds { at + 6 ≤ s.now.end }
    requires found_element { FoundElementIn (form_of form) (text s.now) s.now.end depth at }
    ensures { HeadAt (text s.now) s.now.end at (kind_number result.kind) result.payload }
{
    let number = word(s.bytes, at + 2) % Kind::END;
    let kind = Kind::try_from(number).unwrap();
    let payload = past_options(at + 6, word(s.bytes, at + 5));
    Head { kind, payload }
}

pub fn element_head(s: &Sheet, depth: u32, at: usize) -> Head
    requires bounds { at + 6 ≤ s.now.end }
    requires found_element { FoundElement (text s.now) s.now.end depth at }
    ensures { HeadAt (text s.now) s.now.end at (kind_number result.kind) result.payload }
{
    element_head_in(Form::NEWEST, s, depth, at)
}

pub fn alternative_head_in(form: Form, s: &Sheet, depth: u32, at: usize) -> Elements
    requires bounds { at + 5 ≤ s.now.end }
    requires found_alternative { FoundAlternativeIn (form_of form) (text s.now) s.now.end depth at }
    ensures { AlternativeAt (text s.now) s.now.end at result.count result.first }
{
    let count = word(s.bytes, at + 4);
    let first = past_options(at + 5, word(s.bytes, at + 3));
    Elements { count, first }
}

pub fn alternative_head(s: &Sheet, depth: u32, at: usize) -> Elements
    requires bounds { at + 5 ≤ s.now.end }
    requires found_alternative { FoundAlternative (text s.now) s.now.end depth at }
    ensures { AlternativeAt (text s.now) s.now.end at result.count result.first }
{
    alternative_head_in(Form::NEWEST, s, depth, at)
}

// Where an element that is no block ends.
pub fn leaf_end_in(form: Form, s: &Sheet, depth: u32, at: usize, head: Head) -> usize
    requires head_at { (HeadAt (text s.now) s.now.end at (kind_number head.kind) head.payload) × (kind_number head.kind ≡ block_kind → ⊥) }
    requires found_element { FoundElementIn (form_of form) (text s.now) s.now.end depth at }
    ensures { LeafEndIn (form_of form) (text s.now) s.now.end depth at head.payload result }
{
    let payload = head.payload;
    match head.kind {
        Kind::Call => payload + form.call_words(),
        Kind::Token => payload + 1,
        Kind::Action | Kind::Predicate => past_options(payload + 2, word(s.bytes, payload + 1)),
        Kind::Epsilon | Kind::Terminal | Kind::Block | Kind::EndOfInput => payload,
    }
}

pub fn leaf_end(s: &Sheet, depth: u32, at: usize, head: Head) -> usize
    requires head_at { (HeadAt (text s.now) s.now.end at (kind_number head.kind) head.payload) × (kind_number head.kind ≡ block_kind → ⊥) }
    requires found_element { FoundElement (text s.now) s.now.end depth at }
    ensures { LeafEnd (text s.now) s.now.end depth at head.payload result }
{
    leaf_end_in(Form::NEWEST, s, depth, at, head)
}
