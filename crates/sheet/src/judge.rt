// Refusals 5 and 6: ids and names that two share, and ids that are not below their counter.
ghost use Rattle.std.specs.Prelude.{◌≡◌, ◌&&◌, ◌+◌, ◌*◌, ◌<◌, ◌≤◌, length, take};
ghost use Rattle.grammar.specs.Numbers.{rule_limit};
ghost use Rattle.grammar.specs.Ids.{is_distinct, is_below};
ghost use Rattle.grammar.specs.Lists.{distinct};
ghost use Rattle.grammar.specs.Found.{FoundRules};
ghost use Rattle.records.specs.Rules.{FoundRows};
ghost use Rattle.writing.specs.Taken.{counters_of};
ghost use Rattle.ids.specs.Survey.{RisesApart, Surveyed, SortDistinct, PartsDistinct, BodiesDistinct, all_under};
ghost use Rattle.sheet.specs.Verdict.{verdict};
ghost use Rattle.words.specs.Kinds.{sort_number};
ghost use Rattle.words.specs.Sheet.{text};

use ids::ids::collect;
use ids::lists::{is_distinct, put_row};
use ids::survey::{Survey, Track, survey_all};
use records::rules::Rules;
use words::numbers::{Refusal, Sort};
use words::sheet::Sheet;
use writing::counters::Counters;

// Whether no two numbers of a row are equal.
#[tactic(auto, using(grammar::specs::Laws::Words::words_take))]
fn row_is_distinct(row: &[u32], work: &mut [u8]) -> bool
    requires { 4 * length row.now ≤ length work.old }
    ensures { result ≡ distinct row.now }
{
    put_row(row, work);
    is_distinct(&mut work[..4 * row.len()])
}

// Whether no two rules share an id, and no two a name.
fn rows_are_distinct(rules: Rules, work: &mut [u8]) -> bool
    requires { (rules.n ≤ length rules.ids) × (rules.n ≤ length rules.names) × (4 * rules.n ≤ length work.old) }
    ensures { result ≡ (distinct (take rules.n rules.ids) && distinct (take rules.n rules.names)) }
{
    let n = rules.n as usize;
    row_is_distinct(&rules.ids[..n], work) && row_is_distinct(&rules.names[..n], work)
}

// Whether no two ids of one sort are equal: those that rise are not, the others are collected and sorted.
#[tactic(auto, using(grammar::specs::Laws::Words::words_take))]
fn sort_is_distinct(s: &Sheet, n: u32, sort: Sort, track: Track, work: &mut [u8]) -> bool
    requires bounds { 4 * s.now.end + 4 ≤ length work.old }
    requires found_rules { FoundRules (text s.now) s.now.end n 0 × RisesApart (text s.now) s.now.end n (sort_number sort) track.falls }
    ensures { SortDistinct (text s.now) s.now.end n (sort_number sort) result }
{
    if !track.falls {
        return true;
    }
    let k = collect(s, n, u32::from(sort), work);
    is_distinct(&mut work[..4 * k])
}

// Labels, actions and predicates.
fn parts_are_distinct(s: &Sheet, n: u32, v: Survey, work: &mut [u8]) -> bool
    requires bounds { 4 * s.now.end + 4 ≤ length work.old }
    requires found_rules { FoundRules (text s.now) s.now.end n 0 × Surveyed (text s.now) s.now.end n v }
    ensures { PartsDistinct (text s.now) s.now.end n result }
{
    sort_is_distinct(s, n, Sort::Label, v.label, work)
        && sort_is_distinct(s, n, Sort::Action, v.action, work)
        && sort_is_distinct(s, n, Sort::Predicate, v.predicate, work)
}

fn bodies_are_distinct(s: &Sheet, n: u32, v: Survey, work: &mut [u8]) -> bool
    requires bounds { 4 * s.now.end + 4 ≤ length work.old }
    requires found_rules { FoundRules (text s.now) s.now.end n 0 × Surveyed (text s.now) s.now.end n v }
    ensures { BodiesDistinct (text s.now) s.now.end n result }
{
    sort_is_distinct(s, n, Sort::Alternative, v.alternative, work)
        && sort_is_distinct(s, n, Sort::Element, v.element, work)
        && parts_are_distinct(s, n, v, work)
}

fn bodies_are_below(v: Survey, counters: Counters) -> bool
    ensures { result ≡ all_under v (counters_of counters) }
{
    v.alternative.top <= u64::from(counters.alternative)
        && v.element.top <= u64::from(counters.element)
        && v.label.top <= u64::from(counters.label)
        && v.action.top <= u64::from(counters.action)
        && v.predicate.top <= u64::from(counters.predicate)
}

// Refusals 5 and 6, of good rules, whose rows are given; the work area is left in any state.
pub fn judge(s: &Sheet, rules: Rules, counters: Counters, work: &mut [u8]) -> Result<(), Refusal>
    requires bounds { (4 * (s.now.end + rule_limit) ≤ length work.old) }
    requires found_rows { FoundRows (text s.now) s.now.end rules }
    ensures { (f : FoundRows (text s.now) s.now.end rules)
        → result ≡ verdict (is_distinct f.found.trees) (is_below (counters_of counters) f.found.trees) }
{
    let n = rules.n;
    let v = survey_all(s, n);
    if !rows_are_distinct(rules, work) {
        return Err(Refusal::SharedNumber);
    }
    if !bodies_are_distinct(s, n, v, work) {
        return Err(Refusal::SharedNumber);
    }
    if !bodies_are_below(v, counters) {
        return Err(Refusal::IdPastCounter);
    }
    Ok(())
}
