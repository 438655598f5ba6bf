// Where an element or an alternative ends, with all that is in it.
ghost use Rattle.std.specs.Prelude.{◌≤◌};
ghost use Rattle.grammar.specs.Found.{FoundElement, FoundElements, FoundAlternative};
ghost use Rattle.grammar.specs.Fold.{ElementWalked, ElementsWalked, AlternativeWalked};
ghost use Rattle.ends.specs.Ends.{skipping};
ghost use Rattle.std.proofs.Common.{rules};
ghost use Rattle.words.specs.Sheet.{text};

use words::sheet::Sheet;
use words::visit::{Visitor, walk_alternative, walk_element, walk_elements};
use words::walk::Head;

// Does nothing anywhere.
#[derive(Drop)]
struct Skip;

impl Visitor for Skip {
    ghost State = { Unit {0} };

    ghost steps = { λ ws v. skipping };

    ghost state = { λ ws d v. tt };

    ghost Fits = { λ ws end d at v. Unit {0} };

    ghost Kept = { λ ws end a b. Unit {0} };

    fn leaf(&mut self, _s: &Sheet, _depth: u32, _at: usize, _head: Head) {}

    fn enter_block(&mut self, _s: &Sheet, _depth: u32, _at: usize, _head: Head) {}

    fn enter_alternative(&mut self, _s: &Sheet, _depth: u32, _at: usize) {}

    ghost laws = { Prim.search rules };
}

pub fn element_end(s: &Sheet, depth: u32, at: usize) -> usize
    requires found_element { FoundElement (text s.now) s.now.end depth at }
    ensures { ElementWalked skipping (text s.now) s.now.end depth at tt result tt }
{
    walk_element(&mut Skip, s, depth, at)
}

// n elements from `at` on.
pub fn elements_end(s: &Sheet, depth: u32, n: u32, at: usize) -> usize
    requires bounds { at ≤ s.now.end }
    requires found_elements { FoundElements (text s.now) s.now.end depth n at }
    ensures { ElementsWalked skipping (text s.now) s.now.end depth n at tt result tt }
{
    walk_elements(&mut Skip, s, depth, n, at)
}

pub fn alternative_end(s: &Sheet, depth: u32, at: usize) -> usize
    requires found_alternative { FoundAlternative (text s.now) s.now.end depth at }
    ensures { AlternativeWalked skipping (text s.now) s.now.end depth at tt result tt }
{
    walk_alternative(&mut Skip, s, depth, at)
}
