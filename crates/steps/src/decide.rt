// What is decided of a step before anything is written (SPECIFICATION 8.6 to 8.9): references that would dangle, then for each
// alternative of the satellite labels, bindings, options; and what would be pushed.
ghost use Rattle.std.specs.Prelude.{◌≡◌, ◌+◌, ◌<◌, ◌≤◌, ◌^◌};
ghost use Rattle.grammar.specs.Numbers.{most_words};
ghost use Rattle.grammar.specs.Tree.{inner_depth};
ghost use Rattle.grammar.specs.Found.{FoundAlternative, FoundRule};
ghost use Rattle.steps.specs.Decide.{clause_of, Searchable, CollisionAt, OneAt, IsCounted, SmallSize, HandFits};
ghost use Rattle.steps.specs.Decide.{AlternativeCounted, RuleSized};
ghost use Rattle.words.specs.Sheet.{text};

use collisions::clash::clash_at;
use ends::ends::alternative_end;
use planned::list::Listed;
use planned::shown::Shown;
use splices::options::options_added;
use splices::splice::Size;
use words::numbers::Block;
use words::sheet::Sheet;
use words::walk::alternative_head;
use words::words::word;

// Why a cycle is left as it is (SPECIFICATION 10).
#[derive(Clone, Copy, Debug, PartialEq, Eq)]
pub enum Clause {
    NoHub,
    HubWithArguments,
    SatelliteNotInlinable,
    Budget,
    DanglingReference,
    BlockedCorner,
    LabelCollision,
    BindingCollision,
    OptionCollision,
    NoSteps,
    NotDirectlyRewritable,
}

// The number by which it is told.
impl From<Clause> for u32 {
    ghost use Rattle.reference.specs.Substitute.{clause_number};

    ghost from_gives = { λ clause number. number ≡ clause_number (clause_of clause) };

    #[tactic(auto, unfolding(reference::specs::Substitute::clause_number))]
    fn from(clause: Clause) -> u32 {
        match clause {
            Clause::NoHub => 1,
            Clause::HubWithArguments => 2,
            Clause::SatelliteNotInlinable => 3,
            Clause::Budget => 4,
            Clause::DanglingReference => 5,
            Clause::BlockedCorner => 6,
            Clause::LabelCollision => 7,
            Clause::BindingCollision => 8,
            Clause::OptionCollision => 9,
            Clause::NoSteps => 10,
            Clause::NotDirectlyRewritable => 11,
        }
    }
}

// Whether the names in the alternative at `at` collide with those around the element that it would replace.
// Stays: `quiet` is a flag, of which `Searchable` is a clause (step.rt says why at `prepare`).
#[tactic(auto, using(crate::proofs::Laws::Decide::collides))]
fn collision(s: &Sheet, work: &[u8], quiet: bool, at: usize) -> Result<(), Clause>
    requires bounds { Searchable (text s.now) s.now.end work.now quiet }
    requires found_alternative { FoundAlternative (text s.now) s.now.end inner_depth at }
    ensures { CollisionAt (text s.now) s.now.end inner_depth at work.now quiet result }
{
    if quiet {
        return Ok(());
    }
    let c = clash_at(s, work, at);
    if c.label {
        return Err(Clause::LabelCollision);
    }
    if c.binding {
        return Err(Clause::BindingCollision);
    }
    Ok(())
}

// The alternative at `at` in place of an element of the one in hand: how many options it adds, or the clause of a decline.
fn splice_one(h: &Shown, quiet: bool, at: usize) -> Result<usize, Clause>
    requires bounds { (h.now.s.now.end ≤ most_words) × Searchable (text h.now.s.now) h.now.s.now.end h.now.work.now quiet }
    requires found_alternative { FoundAlternative (text h.now.s.now) h.now.s.now.end inner_depth at }
    ensures { OneAt (text h.now.s.now) h.now.s.now.end inner_depth at h.now.work.now h.now.x quiet result }
{
    collision(h.s, h.work, quiet, at)?;
    options_added(h.s, Block::DEPTH, h.work, h.x, at).ok_or(Clause::OptionCollision)
}

// One alternative more, with so many elements and options.
// Stays: that a size is small is a clause and no ghost field, since `is_within` (turns) compares any two sizes.
pub fn counted(z: Size, ne: usize, no: usize) -> Size
    requires { SmallSize z × (ne < 2 ^ 62) × (no < 2 ^ 62) }
    ensures { IsCounted z ne no result }
{
    Size {
        a: z.a + 1,
        e: z.e + ne,
        o: z.o + no,
    }
}

// The alternative at `at` is counted, which adds so many options.
#[tactic(auto, using(crate::proofs::Laws::Added::counts))]
fn count_one(s: &Sheet, h: Listed, at: usize, more: usize, z: Size) -> Size
    requires bounds { (s.now.end ≤ most_words) × HandFits h × (at + 5 ≤ s.now.end) × (more ≤ most_words) }
    requires small_size { SmallSize z }
    requires found_alternative { FoundAlternative (text s.now) s.now.end inner_depth at }
    ensures { AlternativeCounted (text s.now) s.now.end inner_depth at h more z result }
{
    let head = alternative_head(s, Block::DEPTH, at);
    let ne = h.ne - 1 + head.count as usize;
    counted(z, ne, h.no + more)
}

// Every alternative of the rule at `at` in place of an element of the one in hand: what would be pushed; the first decline ends it.
pub fn splice_size(h: &Shown, quiet: bool, at: usize) -> Result<Size, Clause>
    requires bounds { (h.now.s.now.end ≤ most_words) × HandFits h.now.x }
    requires searchable { Searchable (text h.now.s.now) h.now.s.now.end h.now.work.now quiet }
    requires found_rule { FoundRule (text h.now.s.now) h.now.s.now.end at × (at + 4 ≤ h.now.s.now.end) }
    ensures { RuleSized (text h.now.s.now) h.now.s.now.end inner_depth at h.now.work.now h.now.x quiet result }
{
    let s = h.s;
    let mut z = Size::default();
    let n = word(s.bytes, at + 3);
    let mut p = at + 4;
    for _ in 0..n {
        let more = splice_one(h, quiet, p)?;
        z = count_one(s, h.x, p, more, z);
        p = alternative_end(s, Block::DEPTH, p);
    }
    Ok(z)
}
