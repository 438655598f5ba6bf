// The head of a planned alternative: its id, the carried number and the flag of its slot, how many options and elements it has,
// and its options.
ghost use Rattle.std.specs.Prelude.{[], ◌∷◌, ◌+◌, ◌*◌, ◌≤◌, length, get_or};
ghost use Rattle.grammar.specs.Encode.{encode_option};
ghost use Rattle.grammar.specs.Lists.{each};
ghost use Rattle.planned.specs.Layout.{meaning, options_from};
ghost use Rattle.planned.specs.List.{Located, ListedIn, InList};
ghost use Rattle.writing.specs.Wrote.{Wrote};
ghost use Rattle.heads.specs.Front.{compose_at};
ghost use Rattle.heads.specs.Head.{head_words};
ghost use Rattle.words.specs.Sheet.{text};

use crate::read::option_place;
use copies::pen::write_words;
use planned::hand::place;
use planned::list::Listed;
use words::sheet::Sheet;
use words::words::word;

// The option at a place of the sheet.
fn write_option(s: &Sheet, p: usize, work: &mut [u8], to: usize)
    requires { (p + 2 ≤ s.now.end) × (4 * (to + 2) ≤ length work.old) }
    ensures { Wrote work.old work.new to
        (get_or (text s.now) p 0 ∷ get_or (text s.now) (p + 1) 0 ∷ []) }
{
    write_words(work, to, &[word(s.bytes, p), word(s.bytes, p + 1)]);
}

// The options, two words each.
fn write_options(s: &Sheet, depth: u32, work: &mut [u8], x: Listed, to: usize)
    requires bounds { (compose_at ≤ to) × (4 * (to + 2 * x.no) ≤ length work.old) }
    requires located { Located work.old x × InList x × ListedIn (text s.now) s.now.end depth work.old x }
    ensures { Wrote work.old work.new to
        (each encode_option (options_from (text s.now) s.now.end depth work.old x.o x.no)) }
{
    for i in 0..x.no {
        let p = option_place(work, x, i);
        write_option(s, p, work, to + 2 * i);
    }
}

// What is in front of the options.
fn write_fixed(s: &Sheet, slot: usize, id: u32, no: u32, ne: u32, work: &mut [u8], to: usize)
    requires { (slot + 5 ≤ s.now.end) × (4 * (to + 5) ≤ length work.old) }
    ensures { Wrote work.old work.new to
        (id ∷ get_or (text s.now) (slot + 1) 0 ∷ get_or (text s.now) (slot + 2) 0 ∷ no ∷ ne ∷ []) }
{
    let carried = word(s.bytes, slot + 1);
    let flag = word(s.bytes, slot + 2);
    write_words(work, to, &[id, carried, flag, no, ne]);
}

pub fn write_head(s: &Sheet, depth: u32, work: &mut [u8], x: Listed, id: u32, to: usize)
    requires bounds { (compose_at ≤ to) × (4 * (to + 5 + 2 * x.no) ≤ length work.old) }
    requires located { Located work.old x × InList x × ListedIn (text s.now) s.now.end depth work.old x }
    ensures { Wrote work.old work.new to
        (head_words depth (meaning (text s.now) s.now.end depth work.old x) id) }
{
    let slot = usize::from(place(x.slot));
    let no = x.no as u32;
    let ne = x.ne as u32;
    write_fixed(s, slot, id, no, ne, work, to);
    write_options(s, depth, work, x, to + 5);
}
