// Tests of a run of words.
ghost use Rattle.std.specs.Prelude.{◌≡◌, ◌*◌, ◌≤◌, length, map, take};
ghost use Rattle.grammar.specs.Words.{words};
ghost use Rattle.grammar.specs.Lists.{rising, distinct};
ghost use Rattle.words.specs.Words.{chunk_word};

use words::words::put_word;

// Whether the words of four bytes each rise strictly.
fn rises(chunks: &[[u8; 4]]) -> bool
    ensures { result ≡ rising (map chunk_word chunks.now) }
{
    chunks.is_sorted_by(|a, b| u32::from_le_bytes(*a) < u32::from_le_bytes(*b))
}

// Whether the words rise strictly.
pub fn is_rising(s: &[u8]) -> bool
    ensures { result ≡ rising (words s.now) }
{
    let (chunks, _) = s.as_chunks::<4>();
    rises(chunks)
}

// Whether no two words are equal. They are sorted for that.
pub fn is_distinct(s: &mut [u8]) -> bool
    ensures value { result ≡ distinct (words s.old) }
    ensures length_stays { length s.new ≡ length s.old }
{
    let (chunks, _) = s.as_chunks_mut::<4>();
    chunks.sort_unstable_by_key(|w| u32::from_le_bytes(*w));
    rises(chunks)
}

// The first words become the numbers of a row.
// Stays: `write_words` (copies) writes numbers at any word, and promises what stands around them too (`Wrote`). `ids` uses neither it nor
// `writing`, and asks for the first words alone.
#[tactic(auto, using(crate::proofs::Laws::Lists::copies))]
pub fn put_row(row: &[u32], s: &mut [u8])
    requires { 4 * length row.now ≤ length s.old }
    ensures { take (length row.now) (words s.new) ≡ row.now }
{
    for (i, w) in row.iter().enumerate() {
        put_word(s, i, *w);
    }
}
