// An alternative of the planned list as it is read, while nothing is written.
ghost use Rattle.grammar.specs.Tree.{inner_depth};
ghost use Rattle.planned.specs.List.{Located, ListedIn};
ghost use Rattle.planned.specs.One.{listed_prop};
ghost use Rattle.words.specs.Sheet.{text};

use crate::list::{Item, Listed};
use crate::read::item;
use words::sheet::Sheet;

// The sheet in which its parts stand, and the work area in which it is listed.
#[derive(Clone, Copy, Debug, PartialEq, Eq)]
pub struct Shown<'a, 'b, 'c> {
    pub s: &'a Sheet<'b>,
    pub work: &'c [u8],
    pub x: Listed,
    ghost located: { Located work.now x },
    ghost listed: { ListedIn (text s.now) s.now.end inner_depth work.now x } by { listed_prop },
}

impl Shown<'_, '_, '_> {
    ghost use Rattle.std.specs.Prelude.{◌<◌};
    ghost use Rattle.planned.specs.Shown.{ItemOf};

    // Its element at an index.
    pub fn item(&self, i: usize) -> Item
        requires { i < self.now.x.ne }
        ensures { ItemOf self.now i result.at result.plain }
    {
        item(self.work, self.x, i)
    }
}
