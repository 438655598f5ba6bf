// The answer of the pass to a sheet, as text (SPECIFICATION 16.2).
ghost use Rattle.listing.specs.Told.{Answers, Lent, ListedAs};

use listed::whole::{list_joined, list_refused};
use pass::Totals;
use pass::entry::pass;
use words::numbers::{Refusal, Work};
use words::sheet::Sheet;

// The text's length, and the refusal that it tells, if it tells one.
#[derive(Clone, Copy, Debug, PartialEq, Eq)]
pub struct Told {
    pub n: usize,
    pub refusal: Option<Refusal>,
}

// An answer, and what the pass left in its buffers.
fn list(sheet: &[u8], a: Result<Totals, Refusal>, res: &[u8], trail: &[u8], text: &mut [u8]) -> Told
    requires { Answers sheet.now a res.now trail.now }
    ensures { ListedAs sheet.now text.old text.new result }
{
    match a {
        Err(refusal) => {
            let n = list_refused(u32::from(refusal), text);
            Told {
                n,
                refusal: Some(refusal),
            }
        }
        Ok(t) => {
            let words = (t.result / 4) as usize;
            let entries = (t.trail / 16) as usize;
            let n = list_joined(
                &res[..4 * words],
                &trail[..16 * entries],
                t.plans,
                t.steps,
                text,
            );
            Told { n, refusal: None }
        }
    }
}

// The answer of the pass in buffers that are long enough.
fn list_in(sheet: &[u8], res: &mut [u8], trail: &mut [u8], work: &mut [u8], text: &mut [u8]) -> Told
    requires { Lent res.old trail.old work.old }
    ensures { ListedAs sheet.now text.old text.new result }
{
    let a = pass(sheet, res, trail, work);
    list(sheet, a, res, trail, text)
}

// The listing of a sheet's bytes.
pub fn list_answer(sheet: &[u8], text: &mut [u8]) -> Told
    ensures { ListedAs sheet.now text.old text.new result }
{
    let mut result = [0; Sheet::MOST_BYTES];
    let mut trail = [0; 65536];
    let mut work = [0; Work::BYTES];
    list_in(sheet, &mut result, &mut trail, &mut work, text)
}
