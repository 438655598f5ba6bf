// The rows of all rules with the places of the rules that are gone taken out, from the highest down.
ghost use Rattle.std.specs.Prelude.{◌≡◌, ◌+◌, ◌<◌, ◌≤◌};
ghost use Rattle.grammar.specs.Numbers.{rule_limit};
ghost use Rattle.renew.specs.Less.{before, after, RowsLess};
ghost use Rattle.renew.specs.Fewer.{PlaceLess, PlaceLessIf, RulesLess};

use crate::less::without_place;
use crate::renew::Renewed;
use analysis::rounds::{Marks, Rows};
use plan::ground::Ground;
use reach::rows::{Row, has};

// Where the rule at place i stood before place k was taken out.
#[tactic(auto, using(crate::proofs::Laws::Less::befores))]
fn place_before(k: usize, i: usize) -> usize
    requires { i < rule_limit }
    ensures { (result ≡ before k i) × (result ≤ i + 1) }
{
    if i < k {
        return i;
    }
    i + 1
}

// Where the rule at place i stands when place k is taken out.
#[tactic(auto, using(crate::proofs::Laws::Less::afters))]
fn place_after(k: usize, i: usize) -> usize
    ensures { result ≡ after k i }
{
    if k < i {
        return i - 1;
    }
    i
}

// Each row without place k, and the row of rule k left out.
#[tactic(auto, using(crate::proofs::Laws::Less::lessening), unfolding(crate::specs::Less::before))]
fn rows_less(rows: &mut [[u64; Row::WORDS]; Row::RULES], n: usize, k: usize)
    requires { (k < n) × (n ≤ rule_limit) }
    ensures { RowsLess n k rows.old rows.new }
{
    for i in 0..n - 1 {
        let from = place_before(k, i);
        rows[i] = without_place(rows[from], k);
    }
}

// All without place k.
fn place_less(m: Renewed, n: usize, k: usize, rows: &mut Rows) -> Renewed
    requires k_lt_n { (k < n) × (n ≤ rule_limit) }
    ensures { PlaceLess rows.old.calls rows.old.corners m rows.new.calls rows.new.corners result n k }
{
    rows_less(&mut rows.calls, n, k);
    rows_less(&mut rows.corners, n, k);
    let ground = m.ground;
    let marks = Marks {
        nullable: without_place(ground.marks.nullable, k),
        stops: without_place(ground.marks.stops, k),
    };
    let kept = without_place(ground.kept, k);
    Renewed {
        ground: Ground { marks, kept },
        hub: place_after(k, m.hub),
    }
}

// All without place k, if rule k is gone.
fn place_less_if(
    gone: [u64; Row::WORDS],
    m: Renewed,
    n: usize,
    k: usize,
    rows: &mut Rows,
) -> Renewed
    requires k_lt_n { (k < n) × (n ≤ rule_limit) }
    ensures { PlaceLessIf rows.old.calls rows.old.corners m rows.new.calls rows.new.corners result gone n k }
{
    if has(gone, k) {
        return place_less(m, n, k, rows);
    }
    m
}

// All without the places of the rules that are gone.
pub fn rules_less(gone: [u64; Row::WORDS], m: Renewed, n: usize, rows: &mut Rows) -> Renewed
    requires few_rules { n ≤ rule_limit }
    ensures { RulesLess rows.old.calls rows.old.corners m rows.new.calls rows.new.corners result gone n }
{
    let mut t = m;
    for k in (0..n).rev() {
        let u = place_less_if(gone, t, n, k, rows);
        t = u;
    }
    t
}
