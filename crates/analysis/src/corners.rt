// How left corners are read.
ghost use Rattle.std.specs.Prelude.{◌≡◌};
ghost use Rattle.analysis.specs.Corners.{corners_of, passes_symbols};

// The original's left corners end at every symbol; the textbook's go past a symbol that can be empty (SPECIFICATION 14.3).
#[derive(Clone, Copy, Debug, PartialEq, Eq)]
pub enum Corners {
    Rust,
    Textbook,
}

impl Corners {
    // Whether they go past a symbol that can be empty.
    pub fn passes_symbols(self) -> bool
        ensures { result ≡ passes_symbols (corners_of self) }
    {
        match self {
            Corners::Rust => false,
            Corners::Textbook => true,
        }
    }
}
