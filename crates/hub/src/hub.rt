// The rule of a cycle that takes the others' places (SPECIFICATION 7.2, 7.3).
ghost use Rattle.std.specs.Prelude.{◌≡◌};
ghost use Rattle.hub.specs.Hub.{Chosen};
ghost use Rattle.words.specs.Sheet.{text};

use crate::calls::calls_from;
use crate::corner::candidates;
use crate::cycle::Cycle;
use analysis::ruled::Ruled;
use reach::cycles::first;
use reach::rows::{Row, meet};

// Of the members with an alternative that begins outside: one that is called from outside or preserved comes before others,
// then the least id decides.
pub fn choose_hub(
    g: &Ruled,
    nullable: [u64; Row::WORDS],
    calls: &[[u64; Row::WORDS]; Row::RULES],
    members: [u64; Row::WORDS],
    kept: [u64; Row::WORDS],
) -> Option<usize>
    ensures { Chosen (text g.now.s.now) g.now.s.now.end g.now.rules.now nullable calls.now members kept result }
{
    let n = g.rules.n as usize;
    let ids = g.rules.ids;
    let c = Cycle {
        names: g.names(),
        members,
        nullable,
    };
    let can = candidates(g, &c);
    let wanted = meet(can, calls_from(calls, n, members, kept));
    first(ids, wanted, n).or_else(|| first(ids, can, n))
}
