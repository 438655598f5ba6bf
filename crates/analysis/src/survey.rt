// One walk over a rule's body (SPECIFICATION 6, 7.5): the rules that it calls, its left corners, whether something in it
// stops inlining, and whether it is nullable by what is known so far.
ghost use Rattle.std.specs.Prelude.{◌+◌, ◌≤◌};
ghost use Rattle.grammar.specs.Tree.{inner_depth};
ghost use Rattle.grammar.specs.Found.{FoundAlternative, FoundAlternatives, FoundRule};
ghost use Rattle.analysis.specs.Survey.{view_of, seen_of, OutermostWalked, BodyWalked};
ghost use Rattle.analysis.specs.Facts.{Surveyed};
ghost use Rattle.words.specs.Sheet.{text};

use crate::known::Known;
use crate::leaf::Seen;
use crate::walk::alternative;
use reach::rows::Row;
use words::numbers::Block;
use words::sheet::Sheet;
use words::words::word;

// The outermost alternative at `at`, whose label stops inlining.
fn outermost(s: &Sheet, v: &Known, at: usize, t: &mut Seen) -> usize
    requires { FoundAlternative (text s.now) s.now.end inner_depth at × (at + 5 ≤ s.now.end) }
    ensures { OutermostWalked (view_of v.now) (text s.now) s.now.end at (seen_of t.old) result (seen_of t.new) }
{
    let there = alternative(s, v, Block::DEPTH, at, t);
    t.stops |= word(s.bytes, at + 2) != 0;
    there
}

// n outermost alternatives from `at` on.
fn body(s: &Sheet, v: &Known, n: u32, at: usize, t: &mut Seen) -> usize
    requires bounds { at ≤ s.now.end }
    requires found_alternatives { FoundAlternatives (text s.now) s.now.end inner_depth n at }
    ensures { BodyWalked (view_of v.now) (text s.now) s.now.end n at (seen_of t.old) result (seen_of t.new) }
{
    let mut p = at;
    for _ in 0..n {
        p = outermost(s, v, p, t);
    }
    p
}

// What a survey finds of a rule.
#[derive(Clone, Copy, Debug, PartialEq, Eq)]
pub struct Survey {
    pub calls: [u64; Row::WORDS],
    pub corners: [u64; Row::WORDS],
    pub stops: bool,
    pub nullable: bool,
}

// The rule at `at`.
pub fn survey_rule(s: &Sheet, v: &Known, at: usize) -> Survey
    requires bounds { at + 4 ≤ s.now.end }
    requires found_rule { FoundRule (text s.now) s.now.end at }
    ensures { Surveyed (view_of v.now) (text s.now) s.now.end at result }
{
    let mut t = Seen::begin(false);
    let count = word(s.bytes, at + 3);
    let flags = word(s.bytes, at + 2);
    body(s, v, count, at + 4, &mut t);
    Survey {
        calls: t.calls,
        corners: t.corners,
        stops: t.stops | (flags != 0),
        nullable: t.null,
    }
}
