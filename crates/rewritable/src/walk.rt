// One walk over the elements of a listed alternative: the rules that it calls, its left corners, and whether all behind its
// first element is nullable.
ghost use Rattle.std.specs.Prelude.{drop};
ghost use Rattle.grammar.specs.Tree.{inner_depth};
ghost use Rattle.analysis.specs.Survey.{view_of, seen_of};
ghost use Rattle.planned.specs.Shown.{meant};
ghost use Rattle.rewritable.specs.Walks.{ItemStands, ItemWalked, RestWalked, WalkOf};
ghost use Rattle.words.specs.Sheet.{text};

use analysis::known::Known;
use analysis::leaf::{Seen, see_leaf};
use analysis::walk::element;
use planned::list::Item;
use planned::shown::Shown;
use words::numbers::Block;
use words::sheet::Sheet;
use words::walk::element_head;

// One element. One that was made plain is a call that cannot be left out.
fn walk_item(s: &Sheet, v: &Known, e: Item, t: &mut Seen)
    requires { ItemStands (text s.now) s.now.end inner_depth e.at e.plain }
    ensures { ItemWalked (view_of v.now) (text s.now) s.now.end inner_depth e.at e.plain (seen_of t.old) (seen_of t.new) }
{
    if e.plain {
        see_leaf(s, v, element_head(s, Block::DEPTH, e.at), false, t);
    } else {
        element(s, v, Block::DEPTH, e.at, t);
    }
}

// The elements of an alternative behind the first.
fn walk_rest(a: &Shown, v: &Known, t: &mut Seen)
    ensures { RestWalked (view_of v.now) inner_depth (drop 1 (meant a.now).elements) (seen_of t.old) (seen_of t.new) }
{
    for i in 1..a.x.ne {
        walk_item(a.s, v, a.item(i), t);
    }
}

// A whole alternative. Behind its first element the count of what is nullable starts anew.
pub fn walk_alternative(a: &Shown, v: &Known) -> Seen
    ensures { WalkOf (view_of v.now) inner_depth (meant a.now).elements result }
{
    let mut t = Seen::begin(true);
    if a.x.ne == 0 {
        return t;
    }
    walk_item(a.s, v, a.item(0), &mut t);
    t.null = true;
    walk_rest(a, v, &mut t);
    t
}
