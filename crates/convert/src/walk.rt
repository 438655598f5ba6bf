// The rules of a sheet of the first form, written in the newest words: each call has a word more, 0 for no precedence.
ghost use Rattle.std.specs.Prelude.{◌≡◌, ◌+◌, ◌≤◌};
ghost use Rattle.grammar.specs.Form.{first_form};
ghost use Rattle.grammar.specs.Tree.{inner_depth};
ghost use Rattle.grammar.specs.Found.{FoundElementIn, FoundElementsIn, FoundAlternativeIn, FoundAlternativesIn, FoundRuleIn, FoundRulesIn};
ghost use Rattle.words.specs.Sheet.{text};
ghost use Rattle.convert.specs.Widened.{Roomy, Copied, Ended, ElementWidened, ElementsWidened, AlternativeWidened, AlternativesWidened};
ghost use Rattle.convert.specs.Widened.{RuleWidened, RulesWidened};

use words::form::Form;
use words::numbers::{Block, Kind};
use words::sheet::Sheet;
use words::walk::{alternative_head_in, element_head_in, leaf_end_in};
use words::words::word;
use writing::copy::{copy_words, write};

// The next word that is read, and the next that is written.
#[derive(Clone, Copy, Debug, PartialEq, Eq)]
pub struct Place {
    pub at: usize,
    pub to: usize,
}

// The words up to a place, as they are.
fn copy_up_to(s: &Sheet, there: usize, wide: &mut [u8], p: Place) -> Place
    requires bounds { (p.at ≤ there) × (there ≤ s.now.end) }
    requires roomy { Roomy s.now.end wide.old p }
    ensures copied { Copied (text s.now) there wide.old wide.new p result }
    ensures roomy { Roomy s.now.end wide.new result }
{
    let n = there - p.at;
    copy_words(s.bytes, p.at, wide, p.to, n);
    Place {
        at: there,
        to: p.to + n,
    }
}

// A call up to its end, and no precedence.
fn widen_call(s: &Sheet, there: usize, wide: &mut [u8], p: Place) -> Place
    requires bounds { (p.at + 8 ≤ there) × (there ≤ s.now.end) }
    requires roomy { Roomy s.now.end wide.old p }
    ensures { Ended (text s.now) there wide.old wide.new p result }
{
    let end = copy_up_to(s, there, wide, p);
    write(wide, end.to, 0);
    Place {
        at: end.at,
        to: end.to + 1,
    }
}

// The element at a place.
#[cycle(tree)]
fn widen_element(s: &Sheet, depth: u32, wide: &mut [u8], p: Place) -> Place
    requires roomy { Roomy s.now.end wide.old p }
    requires found_element { FoundElementIn first_form (text s.now) s.now.end depth p.at }
    ensures { ElementWidened (text s.now) s.now.end depth p wide.old wide.new result }
{
    let head = element_head_in(Form::FIRST, s, depth, p.at);
    match head.kind {
        Kind::Block => {
            let count = word(s.bytes, head.payload);
            let inner = copy_up_to(s, head.payload + 1, wide, p);
            widen_alternatives(s, depth - 1, count, wide, inner)
        }
        Kind::Call => {
            let there = leaf_end_in(Form::FIRST, s, depth, p.at, head);
            widen_call(s, there, wide, p)
        }
        _ => {
            let there = leaf_end_in(Form::FIRST, s, depth, p.at, head);
            copy_up_to(s, there, wide, p)
        }
    }
}

// n elements from a place on.
#[cycle(tree)]
fn widen_elements(s: &Sheet, depth: u32, n: u32, wide: &mut [u8], from: Place) -> Place
    requires roomy { Roomy s.now.end wide.old from }
    requires found_elements { FoundElementsIn first_form (text s.now) s.now.end depth n from.at }
    ensures { ElementsWidened (text s.now) s.now.end depth n from wide.old wide.new result }
{
    let mut p = from;
    for _ in 0..n {
        p = widen_element(s, depth, wide, p);
    }
    p
}

// The alternative at a place.
#[cycle(tree)]
fn widen_alternative(s: &Sheet, depth: u32, wide: &mut [u8], p: Place) -> Place
    requires roomy { Roomy s.now.end wide.old p }
    requires found_alternative { FoundAlternativeIn first_form (text s.now) s.now.end depth p.at }
    ensures { AlternativeWidened (text s.now) s.now.end depth p wide.old wide.new result }
{
    let head = alternative_head_in(Form::FIRST, s, depth, p.at);
    let inner = copy_up_to(s, head.first, wide, p);
    widen_elements(s, depth, head.count, wide, inner)
}

// n alternatives from a place on: a block.
#[cycle(tree)]
fn widen_alternatives(s: &Sheet, depth: u32, n: u32, wide: &mut [u8], from: Place) -> Place
    requires roomy { Roomy s.now.end wide.old from }
    requires found_alternatives { FoundAlternativesIn first_form (text s.now) s.now.end depth n from.at }
    ensures { AlternativesWidened (text s.now) s.now.end depth n from wide.old wide.new result }
{
    let mut p = from;
    for _ in 0..n {
        p = widen_alternative(s, depth, wide, p);
    }
    p
}

// The rule at a place.
fn widen_rule(s: &Sheet, wide: &mut [u8], p: Place) -> Place
    requires roomy { Roomy s.now.end wide.old p }
    requires found_rule { FoundRuleIn first_form (text s.now) s.now.end p.at }
    ensures { RuleWidened (text s.now) s.now.end p wide.old wide.new result }
{
    let count = word(s.bytes, p.at + 3);
    let inner = copy_up_to(s, p.at + 4, wide, p);
    widen_alternatives(s, Block::DEPTH, count, wide, inner)
}

// n rules from a place on.
pub fn widen_rules(s: &Sheet, n: u32, wide: &mut [u8], from: Place) -> Place
    requires roomy { Roomy s.now.end wide.old from }
    requires found_rules { FoundRulesIn first_form (text s.now) s.now.end n from.at }
    ensures { RulesWidened (text s.now) s.now.end n from wide.old wide.new result }
{
    let mut p = from;
    for _ in 0..n {
        p = widen_rule(s, wide, p);
    }
    p
}
