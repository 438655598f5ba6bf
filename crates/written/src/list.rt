// The settled alternatives of the planned list, one after the other.
ghost use Rattle.std.specs.Prelude.{◌≡◌, true, false, ◌+◌, ◌*◌, ◌≤◌, length, get_or};
ghost use Rattle.grammar.specs.Tree.{inner_depth};
ghost use Rattle.grammar.specs.Encode.{encode_alternative, encode_block};
ghost use Rattle.grammar.specs.Lists.{each};
ghost use Rattle.planned.specs.Layout.{is_marked};
ghost use Rattle.planned.specs.List.{Laid, AllIn};
ghost use Rattle.writing.specs.Taken.{counters_of};
ghost use Rattle.copies.specs.Pen.{Fits, Drew};
ghost use Rattle.heads.specs.Front.{compose_at};
ghost use Rattle.written.specs.Items.{Readable};
ghost use Rattle.written.specs.Planned.{HeadDrawn, AlternativeFits, AlternativeDrawn, ListFits, ListDrawn, drawn_list};
ghost use Rattle.words.specs.Sheet.{text};

use crate::items::write_items;
use copies::pen::{Drawing, Reason, fresh};
use heads::head::write_head;
use heads::read::read_here;
use planned::list::{Cursor, Listed, Mark, Sizes};
use words::numbers::{Block, Sort};
use words::sheet::Sheet;
use words::words::word;

// The id of the alternative at `at`.
fn id_at(s: &Sheet, at: usize) -> u32
    requires { at + 5 ≤ s.now.end }
    ensures { result ≡ get_or (text s.now) at 0 }
{
    word(s.bytes, at)
}

// The head of an alternative, with an id.
fn begin(d: &mut Drawing<'_>, s: &Sheet, x: Listed, id: u32)
    requires bounds { (compose_at ≤ d.old.pen.to) × (4 * (d.old.pen.to + 5 + 2 * x.no) ≤ length d.old.out.now) }
    requires readable { Readable (text s.now) s.now.end inner_depth d.old.out.now x }
    ensures same_out { d.old.out.ghost_name ≡ d.new.out.ghost_name }
    ensures same_trail { d.old.trail.ghost_name ≡ d.new.trail.ghost_name }
    ensures same_entries { d.old.trail.now ≡ d.new.trail.now }
    ensures drawn { HeadDrawn (text s.now) s.now.end inner_depth d.old.out.now x id d.new.out.now d.old.pen d.new.pen }
{
    write_head(s, Block::DEPTH, d.out, x, id, d.pen.to);
    d.pen.to += 5 + 2 * x.no;
}

// An alternative that always filled its slot: it keeps its id, and nothing is recorded (SPECIFICATION 11.2).
fn write_same(d: &mut Drawing<'_>, s: &Sheet, x: Listed)
    requires bounds { (compose_at ≤ d.old.pen.to) × (is_marked x.slot ≡ true) }
    requires readable { Readable (text s.now) s.now.end inner_depth d.old.out.now x
        × AlternativeFits (text s.now) s.now.end inner_depth d.old.out.now x d.old.trail.now d.old.pen }
    ensures same_out { d.old.out.ghost_name ≡ d.new.out.ghost_name }
    ensures same_trail { d.old.trail.ghost_name ≡ d.new.trail.ghost_name }
    ensures drawn { AlternativeDrawn (text s.now) s.now.end inner_depth d.old.out.now x d.new.out.now
        d.old.trail.now d.new.trail.now d.old.pen d.new.pen }
{
    let id = id_at(s, usize::from(x.origin));
    begin(d, s, x, id);
    write_items(d, s, x, false);
}

// A new alternative: a fresh id, and fresh ids for all that is in it (SPECIFICATION 11.3).
fn write_new(d: &mut Drawing<'_>, s: &Sheet, x: Listed)
    requires bounds { (compose_at ≤ d.old.pen.to) × (is_marked x.slot ≡ false) }
    requires readable { Readable (text s.now) s.now.end inner_depth d.old.out.now x
        × AlternativeFits (text s.now) s.now.end inner_depth d.old.out.now x d.old.trail.now d.old.pen }
    ensures same_out { d.old.out.ghost_name ≡ d.new.out.ghost_name }
    ensures same_trail { d.old.trail.ghost_name ≡ d.new.trail.ghost_name }
    ensures drawn { AlternativeDrawn (text s.now) s.now.end inner_depth d.old.out.now x d.new.out.now
        d.old.trail.now d.new.trail.now d.old.pen d.new.pen }
{
    let owner = id_at(s, usize::from(x.origin));
    let reason = u32::from(Reason::RuleBoundary);
    let given = fresh(d.trail, d.pen, Sort::Alternative, reason, owner);
    d.pen = given.pen;
    begin(d, s, x, given.id);
    write_items(d, s, x, true);
}

fn write_one(d: &mut Drawing<'_>, s: &Sheet, x: Listed)
    requires bounds { compose_at ≤ d.old.pen.to }
    requires readable { Readable (text s.now) s.now.end inner_depth d.old.out.now x
        × AlternativeFits (text s.now) s.now.end inner_depth d.old.out.now x d.old.trail.now d.old.pen }
    ensures same_out { d.old.out.ghost_name ≡ d.new.out.ghost_name }
    ensures same_trail { d.old.trail.ghost_name ≡ d.new.trail.ghost_name }
    ensures drawn { AlternativeDrawn (text s.now) s.now.end inner_depth d.old.out.now x d.new.out.now
        d.old.trail.now d.new.trail.now d.old.pen d.new.pen }
{
    if x.slot < Mark::BIT {
        write_new(d, s, x);
        return;
    }
    write_same(d, s, x);
}

// Stays: the list is read with a cursor. An iterator over it would hold the area that is lent, in which this draws behind the list.
fn write_list(d: &mut Drawing<'_>, s: &Sheet, l: Sizes)
    requires bounds { compose_at ≤ d.old.pen.to }
    requires laid { Laid d.old.out.now l × AllIn (text s.now) s.now.end inner_depth d.old.out.now l }
    requires list_fits { ListFits (text s.now) s.now.end inner_depth d.old.out.now l d.old.trail.now d.old.pen }
    ensures same_out { d.old.out.ghost_name ≡ d.new.out.ghost_name }
    ensures same_trail { d.old.trail.ghost_name ≡ d.new.trail.ghost_name }
    ensures drawn { ListDrawn (text s.now) s.now.end inner_depth d.old.out.now l d.new.out.now
        d.old.trail.now d.new.trail.now d.old.pen d.new.pen }
{
    let mut c = Cursor::default();
    for _ in 0..l.out.a {
        let out = &mut *d.out;
        let r = read_here(out, l, c);
        write_one(d, s, r.x);
        c = r.next;
    }
}

// The hub's new alternatives, drawn behind the list in the work area.
pub fn write_planned(d: &mut Drawing<'_>, s: &Sheet, l: Sizes)
    requires bounds { compose_at ≤ d.old.pen.to }
    requires laid { Laid d.old.out.now l × AllIn (text s.now) s.now.end inner_depth d.old.out.now l }
    requires fits { Fits (each (encode_alternative (encode_block inner_depth)))
        (drawn_list (text s.now) s.now.end inner_depth d.old.out.now l (counters_of d.old.pen.counters))
        d.old.out.now d.old.trail.now d.old.pen }
    ensures same_out { d.old.out.ghost_name ≡ d.new.out.ghost_name }
    ensures same_trail { d.old.trail.ghost_name ≡ d.new.trail.ghost_name }
    ensures drawn { Drew (each (encode_alternative (encode_block inner_depth)))
        (drawn_list (text s.now) s.now.end inner_depth d.old.out.now l (counters_of d.old.pen.counters))
        d.old.out.now d.new.out.now d.old.trail.now d.new.trail.now d.old.pen d.new.pen }
{
    write_list(d, s, l);
}
