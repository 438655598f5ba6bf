// Words written and copied, with the whole of the other bytes as they were.
ghost use Rattle.std.specs.Prelude.{[], ◌∷◌, ◌+◌, ◌*◌, ◌≤◌, length, take, drop};
ghost use Rattle.grammar.specs.Words.{words};
ghost use Rattle.writing.specs.Wrote.{Wrote};

use words::words::{put_word, word};

// One word.
// Stays: this is `put_word`, which tells its own callers of a list with one word set. All that writes here tells the same by `Wrote`, of
// which the laws put one after the other, and so needs one word told by it too.
pub fn write(out: &mut [u8], at: usize, w: u32)
    requires { 4 * (at + 1) ≤ length out.old }
    ensures { Wrote out.old out.new at (w ∷ []) }
{
    put_word(out, at, w);
}

// The n words that stand from `from` on.
// Stays: word by word. By `copy_from_slice`, where the slices come from a struct, the archive of the pass would need `memmove` beside
// `memcpy` and `memset`.
pub fn copy_words(s: &[u8], from: usize, out: &mut [u8], to: usize, n: usize)
    requires { (4 * (from + n) ≤ length s.now) × (4 * (to + n) ≤ length out.old) }
    ensures { Wrote out.old out.new to (take n (drop from (words s.now))) }
{
    for i in 0..n {
        let w = word(s, from + i);
        put_word(out, to + i, w);
    }
}
