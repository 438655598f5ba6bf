// What is left of a buffer behind what it holds: zeros (SPECIFICATION 3.3, 3.4).
ghost use Rattle.std.specs.Prelude.{◌≤◌, length};
ghost use Rattle.pass.specs.Handed.{ClearedFrom};

// Zeros from `at` on.
pub fn clear_from(s: &mut [u8], at: usize)
    requires { at ≤ length s.old }
    ensures { ClearedFrom s.old s.new at }
{
    s[at..].fill(0);
}
