// Whether the buffers that a caller lends are long enough.
ghost use Rattle.std.specs.Prelude.{◌≡◌};
ghost use Rattle.pass.specs.Handed.{lent_by};

use words::numbers::Work;

// What a caller lends beside the work area.
#[derive(Drop)]
pub struct Buffer;

impl Buffer {
    pub const RESULT: usize = 32768;

    pub const TRAIL: usize = 65536;
}

// Refusal 2 is given where this is false.
pub fn are_lent(res: usize, trail: usize, work: usize) -> bool
    ensures { result ≡ lent_by res trail work }
{
    (Buffer::RESULT <= res) & ((Buffer::TRAIL <= trail) & (Work::BYTES <= work))
}
