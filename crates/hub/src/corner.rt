// Whether an alternative begins outside a cycle, and which members have one that does (SPECIFICATION 7.1, 7.2).
ghost use Rattle.std.specs.Prelude.{◌≡◌, ◌+◌, ◌<◌, ◌≤◌};
ghost use Rattle.grammar.specs.Tree.{inner_depth};
ghost use Rattle.grammar.specs.Found.{FoundElements, FoundAlternatives, FoundRule};
ghost use Rattle.hub.specs.Corner.{NameSettles, Settles, AnySettles, IsCandidate, Candidates};
ghost use Rattle.words.specs.Kinds.{kind_number};
ghost use Rattle.words.specs.Sheet.{text};

use crate::cycle::Cycle;
use analysis::ruled::Ruled;
use ends::ends::alternative_end;
use reach::rows::{Row, collect, has};
use words::numbers::{Block, Kind};
use words::sheet::Sheet;
use words::walk::{alternative_head, element_head, leaf_end};
use words::words::word;

// A call of a name in front: what is no rule is outside, a rule outside only if it takes input.
fn name_settles(c: &Cycle, name: u32) -> bool
    ensures { NameSettles c.now name result }
{
    let members = c.members;
    let nullable = c.nullable;
    c.names
        .scan(name)
        .is_none_or(|i| !has(members, i) & !has(nullable, i))
}

// n elements from `at` on: the first that is significant decides.
fn settled_outside(s: &Sheet, c: &Cycle, n: u32, at: usize) -> bool
    requires bounds { at ≤ s.now.end }
    requires found_elements { FoundElements (text s.now) s.now.end inner_depth n at }
    ensures { Settles c.now (text s.now) s.now.end inner_depth n at result }
{
    let mut p = at;
    for _ in 0..n {
        let head = element_head(s, Block::DEPTH, p);
        match head.kind {
            Kind::Epsilon | Kind::Action | Kind::Predicate => {
                p = leaf_end(s, Block::DEPTH, p, head);
            }
            Kind::Call => return name_settles(c, word(s.bytes, head.payload)),
            Kind::Token | Kind::Terminal | Kind::Block | Kind::EndOfInput => return true,
        }
    }
    true
}

// n alternatives from `at` on: one is enough.
fn any_settled(s: &Sheet, c: &Cycle, n: u32, at: usize) -> bool
    requires bounds { at ≤ s.now.end }
    requires found_alternatives { FoundAlternatives (text s.now) s.now.end inner_depth n at }
    ensures { AnySettles c.now (text s.now) s.now.end inner_depth n at result }
{
    let mut p = at;
    for _ in 0..n {
        let head = alternative_head(s, Block::DEPTH, p);
        if settled_outside(s, c, head.count, head.first) {
            return true;
        }
        p = alternative_end(s, Block::DEPTH, p);
    }
    false
}

// Rule i, which stands at `at`: a member with an alternative that begins outside.
fn is_candidate(s: &Sheet, c: &Cycle, i: usize, at: usize) -> bool
    requires bounds { (i < c.now.names.n) × (at + 4 ≤ s.now.end) }
    requires found_rule { FoundRule (text s.now) s.now.end at }
    ensures { IsCandidate c.now (text s.now) s.now.end i at result }
{
    let members = c.members;
    has(members, i) && any_settled(s, c, word(s.bytes, at + 3), at + 4)
}

// Every rule looked at.
pub fn candidates(g: &Ruled, c: &Cycle) -> [u64; Row::WORDS]
    requires bounds { c.now.names.n ≡ g.now.rules.now.n }
    ensures { Candidates c.now (text g.now.s.now) g.now.s.now.end g.now.rules.now.places g.now.rules.now.n result }
{
    let places = g.rules.places;
    collect(c.names.n, |i| is_candidate(g.s, c, i, places[i] as usize))
}
