// The answer to a sheet of good length with buffers that are long enough, before the buffers are cleared.
ghost use Rattle.std.specs.Prelude.{◌≡◌, length};
ghost use Rattle.grammar.specs.Laws.Words.{AreBytes};
ghost use Rattle.analysis.specs.Corners.{corners_of};
ghost use Rattle.pass.specs.Handed.{Lent, Answered, WasSheet};

use analysis::corners::Corners;
use apply::apply::Applied;
use run::state::{Ended, Trail};
use run::unit::run_unit;
use sheet::Reading;
use sheet::answer::examine;
use turns::limits::Limits;
use words::numbers::{Refusal, UnitKind};
use words::sheet::Sheet;
use writing::copy::copy_words;

// A sheet that was read is copied to the result, and the run of a parser's unit is made there; other units come back as they are.
fn deliver_sheet(
    sheet: &[u8],
    res: &mut [u8],
    trail: &mut [u8],
    work: &mut [u8],
    reading: Corners,
    read: Reading,
) -> Result<Ended, Refusal>
    requires { Lent sheet.now res.old trail.old work.old × AreBytes sheet.now × WasSheet sheet.now read }
    ensures answered { Answered (corners_of reading) sheet.now res.new trail.new result }
    ensures lengths_stay { (length res.new ≡ length res.old)
        × (length trail.new ≡ length trail.old) × (length work.new ≡ length work.old) }
{
    let rules = read.rules;
    let parts = read.parts;
    let n = sheet.len() / 4;
    copy_words(sheet, 0, res, 0, n);
    let UnitKind::Parser = parts.kind else {
        return Ok(Ended {
            plans: 0,
            steps: 0,
            words: n,
            entries: 0,
        });
    };
    let end = parts.rules_end();
    let to = parts.preserved_end();
    let counters = parts.counters;
    let limits = Limits::standard();
    let recorded = Trail::empty();
    let before = Applied {
        rules,
        counters,
        end,
        to,
        entries: recorded.entries,
    };
    run_unit(
        res,
        trail,
        work,
        before,
        limits,
        reading,
        Sheet::MOST_BYTES / 4,
    )
}

// The refusal of the reader, or what becomes of the sheet that it read. Each item of result and trail is a byte then.
pub fn deliver(
    sheet: &[u8],
    res: &mut [u8],
    trail: &mut [u8],
    work: &mut [u8],
    reading: Corners,
) -> Result<Ended, Refusal>
    requires { Lent sheet.now res.old trail.old work.old × AreBytes sheet.now }
    ensures answered { Answered (corners_of reading) sheet.now res.new trail.new result }
    ensures are_bytes { AreBytes res.new × AreBytes trail.new }
    ensures lengths_stay { (length res.new ≡ length res.old)
        × (length trail.new ≡ length trail.old) × (length work.new ≡ length work.old) }
{
    let read = examine(sheet, work)?;
    deliver_sheet(sheet, res, trail, work, reading, read)
}
