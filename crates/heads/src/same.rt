// Elements as they stand.
ghost use Rattle.std.specs.Prelude.{◌+◌, ◌*◌, ◌-◌, ◌≤◌, length};
ghost use Rattle.heads.specs.Same.{ItemThere, SameFits, SameCopied, SpanCopied};
ghost use Rattle.words.specs.Sheet.{text};

use copies::pen::write_words;
use ends::ends::element_end;
use planned::list::Item;
use words::numbers::Kind;
use words::sheet::Sheet;
use words::words::word;
use writing::copy::copy_words;

// The words of an element up to `q`, with a kind that has no quantifier where that was taken away. Returned is where they end.
fn copy_span(s: &Sheet, e: Item, q: usize, out: &mut [u8], to: usize) -> usize
    requires { (e.at + 6 ≤ q) × (q ≤ s.now.end) × (4 * (to + (q - e.at)) ≤ length out.old) }
    ensures { SpanCopied (text s.now) e.at q e.plain to out.old out.new result }
{
    let at = e.at;
    let n = q - at;
    if e.plain {
        write_words(
            out,
            to,
            &[
                word(s.bytes, at),
                word(s.bytes, at + 1),
                u32::from(Kind::Call),
            ],
        );
        copy_words(s.bytes, at + 3, out, to + 3, n - 3);
        return to + n;
    }
    copy_words(s.bytes, at, out, to, n);
    to + n
}

// The words of an element, or of what was made plain of it, which is a call. Returned is where they end.
pub fn copy_same(s: &Sheet, depth: u32, e: Item, out: &mut [u8], to: usize) -> usize
    requires bounds { ItemThere (text s.now) s.now.end depth e.at e.plain }
    requires same_fits { SameFits (text s.now) s.now.end depth e.at e.plain to out.old }
    ensures { SameCopied (text s.now) s.now.end depth e.at e.plain to out.old out.new result }
{
    let q = element_end(s, depth, e.at);
    copy_span(s, e, q, out, to)
}
