// The lines of the entries of a trail.
ghost use Rattle.std.specs.Prelude.{[], ◌∷◌, ◌≡◌, ◌+◌, ◌*◌, ◌/◌, ◌<◌, ◌≤◌, ◌^◌, length, get_or};
ghost use Rattle.grammar.specs.Words.{words};
ghost use Rattle.listed.specs.Text.{line};
ghost use Rattle.listed.specs.Listed.{entry_word};
ghost use Rattle.listed.specs.Put.{WroteFew};
ghost use Rattle.listed.specs.Ready.{Recorded, EntriesPut};

use crate::text::Text;
use words::words::word;

// The entry at `at`, counted in words.
fn entry(trail: &[u8], at: usize, out: &mut Text<'_>)
    requires { (4 * at + 16 ≤ length trail.now) × (out.old.n < 2 ^ 35) }
    ensures { WroteFew out.old out.new
        (line entry_word (get_or (words trail.now) at 0 ∷ get_or (words trail.now) (at + 1) 0
        ∷ get_or (words trail.now) (at + 2) 0 ∷ get_or (words trail.now) (at + 3) 0 ∷ [])) 46 }
{
    let kind = word(trail, at);
    let id = word(trail, at + 1);
    let reason = word(trail, at + 2);
    let owner = word(trail, at + 3);
    out.line(b"t", &[kind, id, reason, owner]);
}

// All entries.
pub fn list_entries(trail: &[u8], out: &mut Text<'_>)
    requires { Recorded trail.now (length trail.now / 16) × (out.old.n < 2 ^ 30) }
    ensures same_buffer { out.new.bytes.ghost_name ≡ out.old.bytes.ghost_name }
    ensures put { EntriesPut trail.now (length trail.now / 16) out.old.bytes.now out.new.bytes.now out.old.n out.new.n }
{
    for i in 0..trail.len() / 16 {
        entry(trail, 4 * i, out);
    }
}
