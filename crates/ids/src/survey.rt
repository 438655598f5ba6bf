// One walk over all bodies: how many alternatives and elements they have, and of the ids of each sort how far they
// reach and whether they rise.
ghost use Rattle.std.specs.Prelude.{◌≡◌, ◌+◌, ◌*◌, ◌%◌, ◌<◌, ◌≤◌, ◌^◌, length, get_or};
ghost use Rattle.std.proofs.Common.{rules};
ghost use Rattle.grammar.specs.Numbers.{kind_end};
ghost use Rattle.grammar.specs.Words.{words};
ghost use Rattle.grammar.specs.Found.{FoundRules};
ghost use Rattle.ids.specs.Ids.{own_of, seeing, seeing_past_block, seeing_past_alternative};
ghost use Rattle.ids.specs.Survey.{seen, tracked, OwnSeen, AlternativeSeen, surveyed, Surveyed};
ghost use Rattle.ids.specs.declared.survey.Survey.{Survey};
ghost use Rattle.words.specs.Kinds.{kind_number};
ghost use Rattle.words.specs.Sheet.{text};

use crate::ids::own_id;
use words::numbers::Sort;
use words::sheet::Sheet;
use words::visit::{Visitor, walk_rules};
use words::walk::Head;
use words::words::word;

// Ids of one sort: past the largest, and whether one was not larger than all in front of it.
#[derive(Clone, Copy, Debug, PartialEq, Eq, Default)]
pub struct Track {
    pub top: u64,
    pub falls: bool,
}

impl Track {
    // One id more.
    fn see(&mut self, id: u32)
        ensures { self.new ≡ seen self.old id }
    {
        let id = u64::from(id);
        if self.top <= id {
            self.top = id + 1;
        } else {
            self.falls = true;
        }
    }

    // One id more, where there is one.
    fn see_own(&mut self, id: Option<u32>)
        ensures { self.new ≡ tracked self.old (own_of id) }
    {
        if let Some(id) = id {
            self.see(id);
        }
    }
}

// How many alternatives and elements there are, and the ids of each sort.
// Stays: the fields are by sort, as those of `Counters` (writing), which says why.
#[derive(Clone, Copy, Debug, PartialEq, Eq, Default)]
pub struct Survey {
    pub alternatives: u32,
    pub elements: u32,
    pub alternative: Track,
    pub element: Track,
    pub label: Track,
    pub action: Track,
    pub predicate: Track,
}

impl Survey {
    // An element's own ids.
    fn see_own(&mut self, s: &[u8], at: usize, head: Head)
        requires at_in_bounds { (4 * (at + 6) ≤ length s.now) × (4 * head.payload + 4 ≤ length s.now) }
        requires kind_is { kind_number head.kind ≡ get_or (words s.now) (at + 2) 0 % kind_end }
        requires few { self.old.elements < 2 ^ 31 }
        ensures { OwnSeen (words s.now) at head.payload self.old self.new }
    {
        self.elements += 1;
        self.element.see_own(own_id(s, Sort::Element, at, head));
        self.label.see_own(own_id(s, Sort::Label, at, head));
        self.action.see_own(own_id(s, Sort::Action, at, head));
        self.predicate.see_own(own_id(s, Sort::Predicate, at, head));
    }

    // An alternative's id.
    fn see_alternative(&mut self, s: &[u8], at: usize)
        requires { (4 * at + 4 ≤ length s.now) × (self.old.alternatives < 2 ^ 31) }
        ensures { AlternativeSeen (words s.now) at self.old self.new }
    {
        self.alternatives += 1;
        self.alternative.see(word(s, at));
    }
}

impl Visitor for Survey {
    ghost State = { Survey };

    ghost steps = { λ ws v. seeing surveyed };

    ghost state = { λ ws d v. v };

    // There are fewer alternatives and elements than words.
    ghost Fits = { λ ws end d at v. (v.alternatives ≤ at) × (v.elements ≤ at) };

    ghost Kept = { λ ws end a b. Unit {0} };

    fn leaf(&mut self, s: &Sheet, _depth: u32, at: usize, head: Head) {
        self.see_own(s.bytes, at, head);
    }

    fn enter_block(&mut self, s: &Sheet, _depth: u32, at: usize, head: Head) {
        self.see_own(s.bytes, at, head);
    }

    fn enter_alternative(&mut self, s: &Sheet, _depth: u32, at: usize) {
        self.see_alternative(s.bytes, at);
    }

    ghost laws = { Prim.search (rules, seeing_past_block, seeing_past_alternative) };
}

// What is to be known of all the ids in the bodies of n rules.
pub fn survey_all(s: &Sheet, n: u32) -> Survey
    requires found_rules { FoundRules (text s.now) s.now.end n 0 }
    ensures { Surveyed (text s.now) s.now.end n result }
{
    let mut survey = Survey::default();
    walk_rules(&mut survey, s, n, 0);
    survey
}
