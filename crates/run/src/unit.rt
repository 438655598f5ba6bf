// The run of one unit: plans until no cycle has one (SPECIFICATION 5.2, 5.4).
ghost use Rattle.std.specs.Prelude.{◌≡◌, length};
ghost use Rattle.grammar.specs.Numbers.{most_words};
ghost use Rattle.analysis.specs.Corners.{corners_of};
ghost use Rattle.turns.specs.Midway.{limits_of};
ghost use Rattle.apply.specs.Applied.{Buffers};
ghost use Rattle.run.specs.Midst.{Begun};
ghost use Rattle.run.specs.Turn.{Small, RunOf};

use crate::state::{Ended, State};
use crate::turn::take_turn;
use analysis::corners::Corners;
use analysis::rounds::Rows;
use analysis::ruled::Ruled;
use apply::apply::Applied;
use hub::preserved::Preserved;
use plan::ground::find_out;
use turns::limits::Limits;
use words::numbers::Refusal;
use words::sheet::Sheet;

// The sheet stands in the result, where the new one stands then; `room` are the words that it may have, and the trail has no entries
// yet. A rule is the hub of at most one plan, so that plans never outnumber rules.
pub fn run_unit(
    res: &mut [u8],
    trail: &mut [u8],
    work: &mut [u8],
    before: Applied,
    limits: Limits,
    reading: Corners,
    room: usize,
) -> Result<Ended, Refusal>
    requires buffers { Buffers res.old trail.old work.old × Small limits × (room ≡ most_words)
        × (before.entries ≡ 0) }
    requires begun { Begun res.old before.end before.to before.rules before.counters }
    ensures run_of { RunOf (limits_of limits) (corners_of reading) res.old before.end before.to before.rules before.counters
        res.new trail.new result }
    ensures lengths_stay { (length res.new ≡ length res.old)
        × (length trail.new ≡ length trail.old) × (length work.new ≡ length work.old) }
{
    let mut rows = Rows::empty();
    let s = Sheet {
        bytes: res,
        end: before.end,
    };
    let g = Ruled {
        s: &s,
        rules: &before.rules,
    };
    let preserved = Preserved {
        ids: &s.bytes[4 * s.end..4 * before.to],
    };
    let ground = find_out(&g, &preserved, reading, &mut rows, work);
    let mut st = State::begin(before, ground);
    // Stays: how many turns there are is known only when one finds no plan. A turn says whether there is another.
    while let Some(next) = take_turn(res, trail, work, &mut rows, limits, reading, room, st)? {
        st = next;
    }
    let at = st.at;
    Ok(Ended {
        plans: st.plans,
        steps: st.steps,
        words: at.to + Sheet::TRAILER_WORDS,
        entries: at.entries,
    })
}
