// One step decided whole (SPECIFICATION 8.6 to 8.9); nothing is written but names in the sets.
ghost use Rattle.std.specs.Prelude.{◌≡◌, false, ◌+◌, ◌<◌, ◌≤◌};
ghost use Rattle.grammar.specs.Numbers.{most_words};
ghost use Rattle.grammar.specs.Tree.{inner_depth};
ghost use Rattle.grammar.specs.Found.{FoundRule};
ghost use Rattle.planned.specs.Layout.{meaning};
ghost use Rattle.planned.specs.List.{Located, InHand, ListedIn};
ghost use Rattle.steps.specs.Step.{splits, RuleNamed, RuleUnreferring, PreparedFor, DecidedAt};
ghost use Rattle.words.specs.Sheet.{text};

use crate::decide::{Clause, splice_size};
use collisions::mark::mark_around;
use collisions::quiet::is_quiet;
use planned::list::Listed;
use planned::shown::Shown;
use splices::splice::Size;
use words::sheet::Sheet;

// Whether nothing around an element can collide; or the decline, since a reference there would dangle. Sets of names are made only
// where anything is labelled or refers.
// Stays: the answer is no `Option<Names>`. A `Names` lends a sheet and a work area of its own, while a satellite is counted by those beside
// it, also where there are no names; that the two are the same would be a clause in place of `Searchable`.
fn prepare(s: &Sheet, work: &mut [u8], h: Listed, index: usize, name: u32) -> Result<bool, Clause>
    requires bounds { (s.now.end ≤ most_words) × Located work.old h × (index < h.ne) }
    requires listed_in { ListedIn (text s.now) s.now.end inner_depth work.old h }
    ensures { PreparedFor (text s.now) s.now.end inner_depth
        (meaning (text s.now) s.now.end inner_depth work.old h).elements index name
        work.old work.new result }
{
    if is_quiet(&Shown { s, work, x: h }) {
        return Ok(true);
    }
    if mark_around(s, work, h, index, name) {
        return Err(Clause::DanglingReference);
    }
    Ok(false)
}

// What a step does: the alternative is split at an optional call, or the alternatives of a satellite come in place of its call.
#[derive(Clone, Copy, Debug, PartialEq, Eq)]
pub enum Step {
    Split,
    Splice,
}

// A call at which a step is made: its index among the elements of the alternative, and the name and the place of the rule.
#[derive(Clone, Copy, Debug, PartialEq, Eq)]
pub struct Call {
    pub index: usize,
    pub name: u32,
    pub at: usize,
    pub step: Step,
}

// What takes the place of a call in the alternative in hand: how much would be pushed, or the clause of a decline.
pub fn decide(s: &Sheet, work: &mut [u8], h: Listed, k: Call) -> Result<Size, Clause>
    requires bounds { (s.now.end ≤ most_words) × Located work.old h × InHand h × (k.index < h.ne) }
    requires listed_in { ListedIn (text s.now) s.now.end inner_depth work.old h }
    requires found_rule { FoundRule (text s.now) s.now.end k.at × (k.at + 4 ≤ s.now.end)
        × RuleNamed (text s.now) s.now.end inner_depth k.at k.name }
    requires rule_unreferring { splits k.step ≡ false → RuleUnreferring (text s.now) s.now.end inner_depth k.at }
    ensures { DecidedAt (text s.now) s.now.end inner_depth k.at work.old work.new h k.index (splits k.step) result }
{
    let quiet = prepare(s, work, h, k.index, k.name)?;
    match k.step {
        Step::Split => Ok(Size {
            a: 2,
            e: 2 * h.ne - 1,
            o: 2 * h.no,
        }),
        Step::Splice => splice_size(&Shown { s, work, x: h }, quiet, k.at),
    }
}
