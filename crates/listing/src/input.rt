// Standard input, as far as it is read.
ghost use Rattle.std.specs.Prelude.{IfOk};
ghost use Rattle.listing.specs.Counts.{IsPrefixLen};

use std::io;
use std::io::Read;

// Reads until the buffer is full or the input ends: what is behind a full buffer is never looked at. How many bytes, or why a read
// failed.
pub fn read_input(from: &mut impl Read, bytes: &mut [u8]) -> io::Result<usize>
    ensures { IfOk result (λ n. IsPrefixLen n bytes.new) }
{
    let mut n: usize = 0;
    // Stays: a read says how many bytes it gave, so that there is no range to go over; `read_to_end` would need a `Vec`, and this project
    // has no heap (README, "What is assumed").
    while n < bytes.len() {
        let more = from.read(&mut bytes[n..])?;
        if more == 0 {
            break;
        }
        n += more;
    }
    Ok(n)
}
