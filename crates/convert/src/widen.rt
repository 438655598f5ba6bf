// Refusals 3 and 4 of a sheet of the first form, or its newest words.
ghost use Rattle.std.specs.Prelude.{◌≡◌, length};
ghost use Rattle.grammar.specs.Words.{words};
ghost use Rattle.convert.specs.Newest.{Widenable, WidenedAs};

use crate::newest::write_newest;
use ids::lists::is_rising;
use records::rules::read_rules_in;
use sheet::trailer::Trailer;
use words::form::Form;
use words::numbers::Refusal;
use words::sheet::Sheet;

// The newest words stand in front of `wide` then; returned is how many there are.
pub fn widen(old: &[u8], wide: &mut [u8]) -> Result<usize, Refusal>
    requires { Widenable old.now wide.old }
    ensures widened { WidenedAs (words old.now) wide.new result }
    ensures length_stays { length wide.new ≡ length wide.old }
{
    let t = old.len() / 4 - Sheet::TRAILER_WORDS;
    let trailer = Trailer { bytes: old, at: t };
    if trailer.kind().is_none() {
        return Err(Refusal::BadTrailer);
    }
    let end = trailer.rules_end();
    let Some(rules) = read_rules_in(Form::FIRST, old, end) else {
        return Err(Refusal::BadRecord);
    };
    if !is_rising(&old[4 * end..4 * t]) {
        return Err(Refusal::BadRecord);
    }
    Ok(write_newest(old, t, end, rules.n, wide))
}
