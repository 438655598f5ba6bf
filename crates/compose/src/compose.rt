// The whole sheet: its rules, the preserved ids, and the trailer.
ghost use Rattle.std.specs.Prelude.{◌≡◌, ◌≤◌};
ghost use Rattle.grammar.specs.Words.{words};
ghost use Rattle.words.specs.Room.{Room};
ghost use Rattle.heads.specs.Front.{compose_at};
ghost use Rattle.compose.specs.Compose.{Applies, ComposedAs};

use crate::last::write_end;
use crate::rules::compose_rules;
use analysis::ruled::Ruled;
use copies::pen::Pen;
use drafts::draft::Draft;
use plan::plan::Plan;
use records::rules::Rules;
use words::sheet::Sheet;

// The pen behind the new sheet, its rules, and where these end, counted in words from its first.
#[derive(Clone, Copy, Debug, PartialEq, Eq)]
pub struct Composed {
    pub pen: Pen,
    pub rules: Rules,
    pub end: usize,
}

// By the plan in the work area, for the sheet whose rules end at `end` and whose trailer stands at `to`.
// Stays: this takes the bytes and their end, which its one caller has. The `Sheet` would be made there where it is made here.
pub fn compose(
    s: &[u8],
    end: usize,
    to: usize,
    rules: Rules,
    p: Plan,
    work: &mut [u8],
    trail: &mut [u8],
    pen: Pen,
) -> Composed
    requires bounds { Room s.now to × (end ≤ to) × (pen.to ≡ compose_at) }
    requires applies { Applies (words s.now) end to rules p work.old trail.old pen }
    ensures { ComposedAs (words s.now) end to rules p work.old work.new
        trail.old trail.new pen result }
{
    let none = Rules::empty();
    let mut d = Draft { rules: none, pen };
    let sheet = Sheet { bytes: s, end };
    let g = Ruled {
        s: &sheet,
        rules: &rules,
    };
    compose_rules(&g, p, work, trail, &mut d);
    let behind = d.pen;
    let last = write_end(&sheet, to, work, behind);
    Composed {
        pen: last,
        rules: d.rules,
        end: behind.to - Draft::FIRST,
    }
}
