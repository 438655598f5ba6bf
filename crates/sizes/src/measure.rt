// The settled alternatives of the planned list measured: what applying the plan will write of them.
ghost use Rattle.std.specs.Prelude.{◌≤◌};
ghost use Rattle.grammar.specs.Numbers.{most_words};
ghost use Rattle.grammar.specs.Tree.{inner_depth};
ghost use Rattle.grammar.specs.Found.{FoundElement};
ghost use Rattle.planned.specs.Layout.{settled};
ghost use Rattle.planned.specs.List.{Laid, AllIn};
ghost use Rattle.planned.specs.Shown.{meant};
ghost use Rattle.sizes.specs.Sized.{ElementSized, ElementsSized, AlternativeSized, Measured};
ghost use Rattle.words.specs.Sheet.{text};

use crate::sums::Measure;
use crate::tally::{Tally, element};
use planned::list::{Cursor, Mark, Sizes};
use planned::read::read_settled;
use planned::shown::Shown;
use words::numbers::Block;
use words::sheet::Sheet;

// The copy of the element at `at`.
fn measure_element(s: &Sheet, at: usize) -> Measure
    requires bounds { s.now.end ≤ most_words }
    requires found_element { FoundElement (text s.now) s.now.end inner_depth at }
    ensures { ElementSized (text s.now) s.now.end inner_depth at result }
{
    let r = element(s, Block::DEPTH, at, Tally::default());
    Measure {
        tally: r.tally,
        words: r.at - at,
    }
}

// The copies of the elements of an alternative that is listed.
fn measure_elements(a: &Shown) -> Measure
    requires { a.now.s.now.end ≤ most_words }
    ensures { ElementsSized inner_depth (meant a.now).elements result }
{
    let mut m = Measure::default();
    for i in 0..a.x.ne {
        m = m.add(measure_element(a.s, a.item(i).at));
    }
    m
}

// An alternative that is listed. One that is still what filled its slot keeps its ids.
fn measure_alternative(a: &Shown) -> Measure
    requires { a.now.s.now.end ≤ most_words }
    ensures { AlternativeSized inner_depth (meant a.now) result }
{
    let m = measure_elements(a);
    let words = 5 + 2 * a.x.no + m.words;
    if a.x.slot < Mark::BIT {
        let tally = Tally {
            alternatives: m.tally.alternatives + 1,
            ..m.tally
        };
        return Measure { tally, words };
    }
    let tally = Tally::default();
    Measure { tally, words }
}

// The settled alternatives, for a hub's own body.
// Stays: they are read with a cursor, for what `read_settled` (planned) tells of an iterator.
pub fn measure(s: &Sheet, work: &[u8], l: Sizes) -> Measure
    requires bounds { s.now.end ≤ most_words }
    requires laid { Laid work.now l × AllIn (text s.now) s.now.end inner_depth work.now l }
    ensures { Measured inner_depth (settled (text s.now) s.now.end inner_depth work.now l) result }
{
    let mut m = Measure::default();
    let mut c = Cursor::default();
    for _ in 0..l.out.a {
        let r = read_settled(work, l, c);
        m = m.add(measure_alternative(&Shown { s, work, x: r.x }));
        c = r.next;
    }
    m
}
