// The elements of a planned alternative.
ghost use Rattle.std.specs.Prelude.{◌≡◌, ◌≤◌};
ghost use Rattle.grammar.specs.Tree.{inner_depth};
ghost use Rattle.heads.specs.Front.{compose_at};
ghost use Rattle.written.specs.Items.{ItemFits, ItemDrawn, Readable, ItemsFit, ItemsDrawn};
ghost use Rattle.words.specs.Sheet.{text};

use copies::pen::Drawing;
use heads::same::copy_same;
use planned::list::{Item, Listed};
use planned::read::item;
use words::numbers::Block;
use words::sheet::Sheet;

// One element: a copy with fresh ids, or as it stands.
// Stays: `fresh` is a flag. The definition of what is drawn chooses by a Boolean (`drawn_element`), which each clause on it has. An enum of
// two cases would be turned into it in each of them, and the contract of a closure would have it still, since what fits depends on it.
fn write_item(d: &mut Drawing<'_>, s: &Sheet, e: Item, fresh: bool)
    requires item_fits { ItemFits (text s.now) s.now.end inner_depth e.at e.plain fresh d.old.out.now d.old.trail.now d.old.pen }
    ensures same_out { d.old.out.ghost_name ≡ d.new.out.ghost_name }
    ensures same_trail { d.old.trail.ghost_name ≡ d.new.trail.ghost_name }
    ensures drawn { ItemDrawn (text s.now) s.now.end inner_depth e.at e.plain fresh d.old.out.now d.new.out.now
        d.old.trail.now d.new.trail.now d.old.pen d.new.pen }
{
    if fresh {
        d.copy_element(s, Block::DEPTH, e);
        return;
    }
    d.pen.to = copy_same(s, Block::DEPTH, e, d.out, d.pen.to);
}

// All elements of an alternative that is listed.
// Stays: `fresh` is a flag, as in `write_item`.
pub fn write_items(d: &mut Drawing<'_>, s: &Sheet, x: Listed, fresh: bool)
    requires bounds { compose_at ≤ d.old.pen.to }
    requires readable { Readable (text s.now) s.now.end inner_depth d.old.out.now x
        × ItemsFit (text s.now) s.now.end inner_depth d.old.out.now x fresh d.old.trail.now d.old.pen }
    ensures same_out { d.old.out.ghost_name ≡ d.new.out.ghost_name }
    ensures same_trail { d.old.trail.ghost_name ≡ d.new.trail.ghost_name }
    ensures drawn { ItemsDrawn (text s.now) s.now.end inner_depth d.old.out.now x fresh d.new.out.now
        d.old.trail.now d.new.trail.now d.old.pen d.new.pen }
{
    for i in 0..x.ne {
        let out = &mut *d.out;
        let e = item(out, x, i);
        write_item(d, s, e, fresh);
    }
}
