// The ids of one sort, collected from a tree that stands in a sheet.
ghost use Rattle.std.specs.Prelude.{◌≡◌, ℕ, List, [], ◌∷◌, ◌+◌, ◌*◌, ◌%◌, ◌≤◌, length, get_or, take};
ghost use Rattle.grammar.specs.Numbers.{kind_end};
ghost use Rattle.grammar.specs.Words.{words};
ghost use Rattle.grammar.specs.Found.{FoundRules};
ghost use Rattle.std.proofs.Common.{rules};
ghost use Rattle.ids.specs.Ids.{seeing_past_block, seeing_past_alternative};
ghost use Rattle.ids.specs.Ids.{own_of, own_ids, alternative_id, seeing, behind, Pushed, CollectedSort};
ghost use Rattle.words.specs.Kinds.{kind_number, sort_number};
ghost use Rattle.words.specs.Sheet.{text};

use words::numbers::{Kind, Sort};
use words::sheet::Sheet;
use words::visit::{Visitor, walk_rules};
use words::walk::Head;
use words::words::{put_word, word};

// The id of one sort that an element has itself.
#[inline]
pub(crate) fn own_id(s: &[u8], sort: Sort, at: usize, head: Head) -> Option<u32>
    requires bounds { (4 * (at + 6) ≤ length s.now) × (4 * head.payload + 4 ≤ length s.now) }
    requires kind_is { kind_number head.kind ≡ get_or (words s.now) (at + 2) 0 % kind_end }
    ensures { own_of result ≡ own_ids (words s.now) at head.payload (sort_number sort) }
{
    match sort {
        Sort::Element => Some(word(s, at)),
        Sort::Label if word(s, at + 4) != 0 => Some(word(s, at + 3)),
        Sort::Action if head.kind == Kind::Action => Some(word(s, head.payload)),
        Sort::Predicate if head.kind == Kind::Predicate => Some(word(s, head.payload)),
        _ => None,
    }
}

// What collects the ids of one sort: `out` words stand there.
#[derive(Drop)]
struct Collector<'a> {
    sort: Sort,
    work: &'a mut [u8],
    out: usize,
}

impl Collector<'_> {
    // One id more, behind those that stand there.
    #[tactic(auto, using(crate::proofs::Laws::Ids::pushed))]
    fn push(&mut self, id: u32)
        requires { 4 * self.old.out + 4 ≤ length self.old.work.now }
        ensures { Pushed self.old self.new (id ∷ []) }
    {
        put_word(self.work, self.out, id);
        self.out += 1;
    }

    // An element's own id, where it has one of the sort.
    fn put_own(&mut self, s: &[u8], at: usize, head: Head)
        requires bounds { (4 * (at + 6) ≤ length s.now) × (4 * head.payload + 4 ≤ length s.now)
            × (4 * self.old.out + 4 ≤ length self.old.work.now) }
        requires kind_is { kind_number head.kind ≡ get_or (words s.now) (at + 2) 0 % kind_end }
        ensures { Pushed self.old self.new (own_ids (words s.now) at head.payload (sort_number self.old.sort)) }
    {
        if let Some(id) = own_id(s, self.sort, at, head) {
            self.push(id);
        }
    }

    // An alternative's id, where alternatives are the sort.
    #[tactic(auto, using(crate::proofs::Laws::Ids::alternatives))]
    fn put_alternative(&mut self, s: &[u8], at: usize)
        requires { (4 * at + 4 ≤ length s.now) × (4 * self.old.out + 4 ≤ length self.old.work.now) }
        ensures { Pushed self.old self.new (alternative_id (words s.now) at (sort_number self.old.sort)) }
    {
        if self.sort == Sort::Alternative {
            self.push(word(s, at));
        }
    }
}

impl Visitor for Collector<'_> {
    ghost State = { List ℕ };

    ghost steps = { λ ws v. seeing (behind (sort_number v.sort)) };

    ghost state = { λ ws d v. take v.out (words v.work.now) };

    // There are fewer ids than words.
    ghost Fits = { λ ws end d at v. (v.out ≤ at) × (4 * end + 4 ≤ length v.work.now) };

    ghost Kept = { λ ws end a b. (a.work.ghost_name ≡ b.work.ghost_name) × (a.sort ≡ b.sort) };

    fn leaf(&mut self, s: &Sheet, _depth: u32, at: usize, head: Head) {
        self.put_own(s.bytes, at, head);
    }

    fn enter_block(&mut self, s: &Sheet, _depth: u32, at: usize, head: Head) {
        self.put_own(s.bytes, at, head);
    }

    fn enter_alternative(&mut self, s: &Sheet, _depth: u32, at: usize) {
        self.put_alternative(s.bytes, at);
    }

    ghost laws = { Prim.search (rules, seeing_past_block, seeing_past_alternative) };
}

// All ids of one sort, written from the first word on; returned is how many there are.
fn collect_sort(s: &Sheet, n: u32, sort: Sort, work: &mut [u8]) -> usize
    requires bounds { 4 * s.now.end + 4 ≤ length work.old }
    requires found_rules { FoundRules (text s.now) s.now.end n 0 }
    ensures { CollectedSort (text s.now) s.now.end n (sort_number sort) (words work.new) result }
{
    let mut collector = Collector { sort, work, out: 0 };
    walk_rules(&mut collector, s, n, 0);
    collector.out
}

// The same of the sort that has a number. Where none has it, there are no such ids.
pub fn collect(s: &Sheet, n: u32, number: u32, work: &mut [u8]) -> usize
    requires bounds { 4 * s.now.end + 4 ≤ length work.old }
    requires found_rules { FoundRules (text s.now) s.now.end n 0 }
    ensures { CollectedSort (text s.now) s.now.end n number (words work.new) result }
{
    match Sort::try_from(number) {
        Ok(sort) => collect_sort(s, n, sort, work),
        Err(_) => 0,
    }
}
