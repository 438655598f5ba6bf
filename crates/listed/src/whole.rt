// The whole text of an answer.
ghost use Rattle.std.specs.Prelude.{◌/◌, ◌≤◌, length};
ghost use Rattle.listed.specs.Listed.{listed_refusal};
ghost use Rattle.listed.specs.Put.{Filled};
ghost use Rattle.listed.specs.Ready.{Held, Recorded, JoinedPut, most_text};

use crate::entries::list_entries;
use crate::rules::list_rules;
use crate::text::Text;
use sheet::trailer::Trailer;
use words::sheet::Sheet;

// The line of a refusal. Here and below the text is lent by a caller, of which the front is filled.
// Stays: the refusal is told by its number. The line is promised for every number, and with the enum the function would ask for one of
// nine. The answer is how much of the text is filled, here, below and in `listing`, and no slice of it: `Filled` says what stands behind
// that too, and a slice would keep the text borrowed.
pub fn list_refused(number: u32, text: &mut [u8]) -> usize
    ensures { Filled text.old text.new result (listed_refusal number) most_text }
{
    let mut out = Text { bytes: text, n: 0 };
    out.line(b"refused", &[number]);
    out.n
}

// The sheet and the trail that the pass hands back, cut to their lengths, with its plans and steps.
pub fn list_joined(res: &[u8], trail: &[u8], plans: u32, steps: u32, text: &mut [u8]) -> usize
    requires { Held res.now (length res.now / 4) × Recorded trail.now (length trail.now / 16) }
    ensures { JoinedPut res.now trail.now (length res.now / 4) (length trail.now / 16) plans steps text.old text.new result }
{
    let trailer = Trailer {
        bytes: res,
        at: res.len() / 4 - Sheet::TRAILER_WORDS,
    };
    let end = trailer.rules_end();
    let mut out = Text { bytes: text, n: 0 };
    out.line(b"ok", &[plans, steps]);
    let s = Sheet { bytes: res, end };
    list_rules(&s, &mut out);
    list_entries(trail, &mut out);
    out.n
}
