// A sheet as it is walked over.
ghost use Rattle.words.specs.Room.{Room};

// Its bytes, and the word at which its rules end. Behind that word there is room for the trailer.
// Stays: that a sheet ends within 8,192 words is a clause where it is needed. What only walks takes longer ones, and a type may not
// ask more of them. A second type for shorter ones is no plainer: most of what asks for it calls what only walks, and would open it for
// each such call. `Ruled` (analysis) lends a `Sheet` to those too that ask for no end, so that a sheet from there would keep the clause.
#[derive(Clone, Copy, Debug, PartialEq, Eq)]
pub struct Sheet<'a> {
    pub bytes: &'a [u8],
    pub end: usize,
    ghost room: { Room bytes.now end },
}

impl Sheet<'_> {
    pub const LEAST_BYTES: usize = 32;

    pub const MOST_BYTES: usize = 32768;

    pub const TRAILER_WORDS: usize = 8;
}
