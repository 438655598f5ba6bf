// A hub's own alternative comes into the hand, as it is.
ghost use Rattle.std.specs.Prelude.{◌≤◌, length};
ghost use Rattle.grammar.specs.Numbers.{most_words, work_bytes};
ghost use Rattle.grammar.specs.Found.{FoundAlternative};
ghost use Rattle.splices.specs.Moves.{Brought};
ghost use Rattle.words.specs.Sheet.{text};

use crate::places::{parts_at, put_option_places, put_places};
use planned::list::{Hand, Listed, Mark};
use words::sheet::Sheet;

// The hub's alternative at `at`: the places of its elements and options, and a mark for the slot.
pub fn hub_in_hand(s: &Sheet, depth: u32, at: usize, work: &mut [u8]) -> Listed
    requires bounds { (s.now.end ≤ most_words) × (work_bytes ≤ length work.old) }
    requires found_alternative { FoundAlternative (text s.now) s.now.end depth at }
    ensures { Brought (text s.now) s.now.end depth at work.old work.new result }
{
    let parts = parts_at(s, depth, at);
    let ne = parts.ne;
    let no = parts.no;
    let e = Hand::END - ne;
    let _ = put_places(s, depth, parts.count, parts.first, work, e);
    put_option_places(no, at + 5, work, Hand::OPTIONS);
    let place = at as u16;
    Listed {
        slot: Mark::BIT + place,
        origin: place,
        ne,
        no,
        e,
        o: Hand::OPTIONS,
    }
}
