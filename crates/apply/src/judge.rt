// Whether a plan may be applied (SPECIFICATION 4.8, then 4.9): counters, then words and entries.
ghost use Rattle.std.specs.Prelude.{◌≡◌, ◌+◌, ◌≤◌, ◌^◌, ltb};
ghost use Rattle.reference.specs.Numbers.{counter_end, most_entries};
ghost use Rattle.sizes.specs.Sized.{Under};
ghost use Rattle.sizes.specs.Tally.{ids_in};
ghost use Rattle.writing.specs.Taken.{counters_of};
ghost use Rattle.apply.specs.Judged.{AllLast, Judged};

use sizes::sums::Measure;
use words::numbers::Refusal;
use writing::counters::Counters;

// What refusals 8 and 9 exclude.
#[derive(Drop)]
pub struct Limit;

impl Limit {
    // A counter is below this.
    pub const COUNTER: usize = 4294967296;

    // The trail has no more entries.
    pub const ENTRIES: usize = 4096;
}

// Whether a counter stays below its end.
fn lasts(counter: u32, more: usize) -> bool
    requires { more ≤ 2 ^ 27 }
    ensures { result ≡ ltb (counter + more) counter_end }
{
    counter as usize + more < Limit::COUNTER
}

// Whether all do.
#[tactic(auto, using(crate::proofs::Laws::Judged::all_last_lem))]
fn all_last(c: Counters, m: Measure) -> bool
    requires { Under m (2 ^ 27) }
    ensures { AllLast (counters_of c) m result }
{
    lasts(c.alternative, m.tally.alternatives)
        & lasts(c.element, m.tally.elements)
        & lasts(c.label, m.tally.labels)
        & lasts(c.action, m.tally.actions)
        & lasts(c.predicate, m.tally.predicates)
}

// How many fresh ids there are.
pub fn ids_in(m: Measure) -> usize
    requires { Under m (2 ^ 27) }
    ensures { result ≡ ids_in m.tally }
{
    m.tally.alternatives + m.tally.elements + m.tally.labels + m.tally.actions + m.tally.predicates
}

// Refusal 8 or 9, or none: of the counters, of the words that the new sheet has and may have, and of the entries recorded already.
#[tactic(auto, using(crate::proofs::Laws::Judged::judgements))]
pub fn judge(
    c: Counters,
    m: Measure,
    words: usize,
    room: usize,
    recorded: usize,
) -> Result<(), Refusal>
    requires { Under m (2 ^ 27) × (recorded ≤ most_entries) }
    ensures { Judged (counters_of c) m words room recorded result }
{
    if !all_last(c, m) {
        return Err(Refusal::CounterPastEnd);
    }
    if room < words {
        return Err(Refusal::ResultTooLong);
    }
    if Limit::ENTRIES < recorded + ids_in(m) + 1 {
        return Err(Refusal::ResultTooLong);
    }
    Ok(())
}
