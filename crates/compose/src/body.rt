// The hub with its new body.
ghost use Rattle.std.specs.Prelude.{◌≡◌, ◌+◌, ◌*◌, ◌≤◌, length};
ghost use Rattle.grammar.specs.Tree.{inner_depth};
ghost use Rattle.planned.specs.List.{Laid, AllIn};
ghost use Rattle.heads.specs.Front.{compose_at};
ghost use Rattle.compose.specs.Hub.{Moved, rule_head, Closed, HubFits, BodyDrawn, HubDrawn};
ghost use Rattle.words.specs.Sheet.{text};

use copies::pen::{Drawing, Reason, write_entry, write_words};
use planned::list::Sizes;
use words::numbers::Sort;
use words::sheet::Sheet;
use words::words::word;
use written::list::write_planned;

// Id, name and flags of the rule at `at`, and how many alternatives it has now.
fn begin_rule(d: &mut Drawing<'_>, s: &Sheet, at: usize, n: u32)
    requires { (at + 4 ≤ s.now.end) × (4 * (d.old.pen.to + 4) ≤ length d.old.out.now) }
    ensures same_out { d.old.out.ghost_name ≡ d.new.out.ghost_name }
    ensures same_trail { d.old.trail.ghost_name ≡ d.new.trail.ghost_name }
    ensures same_entries { d.old.trail.now ≡ d.new.trail.now }
    ensures moved { Moved (rule_head (text s.now) s.now.end at n) d.old.out.now d.new.out.now d.old.pen d.new.pen }
{
    let head = [
        word(s.bytes, at),
        word(s.bytes, at + 1),
        word(s.bytes, at + 2),
        n,
    ];
    write_words(d.out, d.pen.to, &head);
    d.pen.to += 4;
}

// The entry of the hub itself, the last of a plan (SPECIFICATION 12.5).
fn close(d: &mut Drawing<'_>, id: u32)
    requires { 4 * (d.old.pen.trail + 4) ≤ length d.old.trail.now }
    ensures same_out { d.old.out.ghost_name ≡ d.new.out.ghost_name }
    ensures same_trail { d.old.trail.ghost_name ≡ d.new.trail.ghost_name }
    ensures same_words { d.old.out.now ≡ d.new.out.now }
    ensures closed { Closed id d.old.trail.now d.new.trail.now d.old.pen d.new.pen }
{
    let reason = u32::from(Reason::RuleBoundary);
    write_entry(d.trail, d.pen.trail, Sort::RULE, id, reason, id);
    d.pen.trail += 4;
}

// The rule's fixed words and its alternatives, and their entries.
fn write_body(d: &mut Drawing<'_>, s: &Sheet, at: usize, l: Sizes)
    requires bounds { (at + 4 ≤ s.now.end) × (compose_at ≤ d.old.pen.to) }
    requires laid { Laid d.old.out.now l × AllIn (text s.now) s.now.end inner_depth d.old.out.now l }
    requires hub_fits { HubFits (text s.now) s.now.end d.old.out.now l d.old.pen at d.old.trail.now }
    ensures same_out { d.old.out.ghost_name ≡ d.new.out.ghost_name }
    ensures same_trail { d.old.trail.ghost_name ≡ d.new.trail.ghost_name }
    ensures drawn { BodyDrawn (text s.now) s.now.end d.old.out.now l d.old.pen at d.new.out.now
        d.old.trail.now d.new.trail.now d.new.pen }
{
    begin_rule(d, s, at, l.out.a as u32);
    write_planned(d, s, l);
}

// The whole rule, and its entries.
pub fn write_hub(d: &mut Drawing<'_>, s: &Sheet, at: usize, l: Sizes)
    requires bounds { (at + 4 ≤ s.now.end) × (compose_at ≤ d.old.pen.to) }
    requires laid { Laid d.old.out.now l × AllIn (text s.now) s.now.end inner_depth d.old.out.now l }
    requires hub_fits { HubFits (text s.now) s.now.end d.old.out.now l d.old.pen at d.old.trail.now }
    ensures same_out { d.old.out.ghost_name ≡ d.new.out.ghost_name }
    ensures same_trail { d.old.trail.ghost_name ≡ d.new.trail.ghost_name }
    ensures drawn { HubDrawn (text s.now) s.now.end d.old.out.now l d.old.pen at d.new.out.now
        d.old.trail.now d.new.trail.now d.new.pen }
{
    write_body(d, s, at, l);
    close(d, word(s.bytes, at));
}
