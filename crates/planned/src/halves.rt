// 16-bit halves in byte slices, low byte first.
// Stays: `word` and `put_word` (words) do the same for 32 bits. One for both sizes would need a trait that both types have, with a size,
// a way to bytes and back and their laws, in place of one line in each function.
ghost use Rattle.std.specs.Prelude.{◌≡◌, ◌+◌, ◌*◌, ◌<◌, ◌≤◌, length};
ghost use Rattle.planned.specs.Layout.{half};
ghost use Rattle.planned.specs.Halves.{HalfPut, HalvesMoved};

// The half at `at`, counted in halves.
pub fn half(s: &[u8], at: usize) -> u16
    requires { 2 * at + 2 ≤ length s.now }
    ensures { result ≡ half s.now at }
{
    u16::from_le_bytes([s[2 * at], s[2 * at + 1]])
}

// The half at `at` is now `v`; no other changes.
pub fn put_half(s: &mut [u8], at: usize, v: u16)
    requires { 2 * at + 2 ≤ length s.old }
    ensures { HalfPut s.old s.new at v }
{
    s[2 * at..2 * at + 2].copy_from_slice(&v.to_le_bytes());
}

// The n halves from `to` on become the n halves that stand from `from` on; no other changes.
pub fn move_halves(s: &mut [u8], from: usize, to: usize, n: usize)
    requires { (2 * (from + n) ≤ length s.old) × (2 * (to + n) ≤ length s.old) }
    ensures { HalvesMoved s.old s.new from to n }
{
    s.copy_within(2 * from..2 * (from + n), 2 * to);
}
