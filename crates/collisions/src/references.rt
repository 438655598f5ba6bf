// What an element refers to.
ghost use Rattle.std.specs.Prelude.{◌≡◌};
ghost use Rattle.grammar.specs.Numbers.{block_kind};
ghost use Rattle.grammar.specs.Found.{FoundElement, HeadAt};
ghost use Rattle.collisions.specs.Walks.{Refers};
ghost use Rattle.words.specs.Kinds.{kind_number};
ghost use Rattle.words.specs.Sheet.{text};

use words::numbers::Kind;
use words::sheet::Sheet;
use words::walk::Head;
use words::words::word;

// How many references the element at `at` has, which is no block.
pub fn reference_count(s: &Sheet, depth: u32, at: usize, head: Head) -> u32
    requires head_at { HeadAt (text s.now) s.now.end at (kind_number head.kind) head.payload × (kind_number head.kind ≡ block_kind → ⊥)
        × FoundElement (text s.now) s.now.end depth at }
    ensures { Refers (text s.now) s.now.end (kind_number head.kind) head.payload result }
{
    match head.kind {
        Kind::Action | Kind::Predicate => word(s.bytes, head.payload + 1),
        _ => 0,
    }
}
