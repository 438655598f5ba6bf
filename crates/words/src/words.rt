// 32-bit words in byte slices, low byte first.
ghost use Rattle.std.specs.Prelude.{◌≡◌, ◌+◌, ◌*◌, ◌≤◌, length, get_or, set, replicate};
ghost use Rattle.grammar.specs.Words.{words};
ghost use Rattle.words.specs.Words.{with_word};

// The word at `at`, counted in words.
pub fn word(s: &[u8], at: usize) -> u32
    requires { 4 * at + 4 ≤ length s.now }
    ensures { result ≡ get_or (words s.now) at 0 }
{
    let from = 4 * at;
    u32::from_le_bytes([s[from], s[from + 1], s[from + 2], s[from + 3]])
}

// The word at `at`, counted in words, is now `w`; no other word changes, and no byte behind the last one.
pub fn put_word(s: &mut [u8], at: usize, w: u32)
    requires { 4 * at + 4 ≤ length s.old }
    ensures words_after { words s.new ≡ set (words s.old) at w }
    ensures bytes_after { s.new ≡ with_word s.old (4 * at) w }
{
    let from = 4 * at;
    s[from..from + 4].copy_from_slice(&w.to_le_bytes());
}

// Zeros all over.
pub fn clear(s: &mut [u8])
    ensures { s.new ≡ replicate (length s.old) 0 }
{
    s.fill(0);
}
