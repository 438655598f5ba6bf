// The lines of what stands in a sheet, in one walk over it. A word of the sheet makes at most ten bytes of text.
ghost use Rattle.std.specs.Prelude.{◌≡◌, [], ◌∷◌, ◌+◌, ◌-◌, ◌*◌, ◌/◌, ◌<◌, ◌≤◌, ◌^◌, length, get_or};
ghost use Rattle.std.proofs.Common.{rules};
ghost use Rattle.grammar.specs.Numbers.{kind_end};
ghost use Rattle.grammar.specs.Tree.{inner_depth};
ghost use Rattle.listed.specs.Text.{line};
ghost use Rattle.listed.specs.Listed.{element_word, alternative_line};
ghost use Rattle.listed.specs.Put.{WroteFew};
ghost use Rattle.listed.specs.Walk.{Pen, pen, listing, name_of};
ghost use Rattle.words.specs.Kinds.{kind_number};
ghost use Rattle.words.specs.Sheet.{text};

use crate::text::Text;
use words::numbers::{Block, Kind};
use words::sheet::Sheet;
use words::visit::Visitor;
use words::walk::Head;
use words::words::word;

// The name of a call or a token; else 0.
#[tactic(auto, unfolding(crate::specs::Walk::name_of))]
fn name_of(kind: Kind, w: u32) -> u32
    ensures { result ≡ name_of (kind_number kind) w }
{
    match kind {
        Kind::Call | Kind::Token => w,
        _ => 0,
    }
}

// The level of what stands at a depth: how many blocks it is in.
fn level(depth: u32) -> u32
    requires { depth ≤ inner_depth }
    ensures { result ≡ inner_depth - depth }
{
    Block::DEPTH - depth
}

// The line of the element at `at` itself.
fn element_line(s: &Sheet, depth: u32, at: usize, head: Head, out: &mut Text<'_>)
    requires words { (4 * at + 12 ≤ length s.now.bytes.now) × (4 * head.payload + 4 ≤ length s.now.bytes.now) }
    requires bounds { (depth ≤ inner_depth) × (out.old.n < 2 ^ 35) }
    ensures { WroteFew out.old out.new
        (line element_word ((inner_depth - depth) ∷ get_or (text s.now) at 0 ∷ kind_number head.kind
        ∷ get_or (text s.now) (at + 2) 0 / kind_end ∷ name_of (kind_number head.kind) (get_or (text s.now) head.payload 0) ∷ [])) 57 }
{
    let id = word(s.bytes, at);
    let quantifier = word(s.bytes, at + 2) / Kind::END;
    let name = name_of(head.kind, word(s.bytes, head.payload));
    out.line(
        b"e",
        &[level(depth), id, u32::from(head.kind), quantifier, name],
    );
}

// The line of the alternative at `at` itself.
fn alternative_line(s: &Sheet, depth: u32, at: usize, out: &mut Text<'_>)
    requires bounds { (4 * at + 4 ≤ length s.now.bytes.now) × (depth ≤ inner_depth) × (out.old.n < 2 ^ 35) }
    ensures { WroteFew out.old out.new (alternative_line (inner_depth - depth) (get_or (text s.now) at 0)) 24 }
{
    let id = word(s.bytes, at);
    out.line(b"a", &[level(depth), id]);
}

// A text lists what a walk from the outermost level on passes.
#[tactic(auto, using(crate::proofs::Laws::Walk::walks))]
impl Visitor for Text<'_> {
    ghost State = { Pen };

    ghost steps = { λ ws v. listing };

    ghost state = { λ ws d v. pen v.bytes.now v.n (inner_depth - d) };

    ghost Fits = { λ ws end d at v. (v.n ≤ 10 * at + 64) × (d ≤ inner_depth) };

    ghost Kept = { λ ws end a b. b.bytes.ghost_name ≡ a.bytes.ghost_name };

    fn leaf(&mut self, s: &Sheet, depth: u32, at: usize, head: Head) {
        element_line(s, depth, at, head, self);
    }

    fn enter_block(&mut self, s: &Sheet, depth: u32, at: usize, head: Head) {
        element_line(s, depth, at, head, self);
    }

    fn enter_alternative(&mut self, s: &Sheet, depth: u32, at: usize) {
        alternative_line(s, depth, at, self);
    }

    ghost laws = { Prim.search rules };
}
