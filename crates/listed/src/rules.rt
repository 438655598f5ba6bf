// The lines of all rules of a sheet.
ghost use Rattle.std.specs.Prelude.{◌≡◌, ◌+◌, ◌*◌, ◌≤◌};
ghost use Rattle.grammar.specs.Found.{FoundRule, FoundRules};
ghost use Rattle.listed.specs.Walk.{pen, RuleListed, RulesListed};
ghost use Rattle.listed.specs.Ready.{Ruled, Counted, RulesPut};
ghost use Rattle.words.specs.Sheet.{text};

use crate::text::Text;
use records::rules::read_rules;
use words::numbers::Block;
use words::sheet::Sheet;
use words::visit::walk_alternatives;
use words::words::word;

// The rule at `at`, with all that is in it; returned is where it ends.
fn rule(s: &Sheet, at: usize, out: &mut Text<'_>) -> usize
    requires bounds { (at + 4 ≤ s.now.end) × (out.old.n ≤ 10 * at + 64) }
    requires found_rule { FoundRule (text s.now) s.now.end at }
    ensures same_buffer { out.new.bytes.ghost_name ≡ out.old.bytes.ghost_name }
    ensures listed { (out.new.n ≤ 10 * result + 64) × RuleListed (text s.now) s.now.end at
        (pen out.old.bytes.now out.old.n 0) result (pen out.new.bytes.now out.new.n 0) }
{
    let id = word(s.bytes, at);
    let name = word(s.bytes, at + 1);
    out.line(b"r", &[id, name]);
    let count = word(s.bytes, at + 3);
    walk_alternatives(out, s, Block::DEPTH, count, at + 4)
}

// The rules from the first word on; returned is where they end.
fn rules(s: &Sheet, count: u32, out: &mut Text<'_>) -> usize
    requires bounds { out.old.n ≤ 64 }
    requires found_rules { FoundRules (text s.now) s.now.end count 0 }
    ensures same_buffer { out.new.bytes.ghost_name ≡ out.old.bytes.ghost_name }
    ensures listed { (out.new.n ≤ 10 * result + 64) × RulesListed (text s.now) s.now.end count 0
        (pen out.old.bytes.now out.old.n 0) result (pen out.new.bytes.now out.new.n 0) }
{
    let mut p = 0;
    for _ in 0..count {
        p = rule(s, p, out);
    }
    p
}

// How many rules there are.
fn rule_count(s: &Sheet) -> u32
    requires { Ruled (text s.now) s.now.end }
    ensures { Counted (text s.now) s.now.end result }
{
    let rules = read_rules(s.bytes, s.end).unwrap();
    rules.n
}

// All rules, whose end is known.
pub fn list_rules(s: &Sheet, out: &mut Text<'_>)
    requires { Ruled (text s.now) s.now.end × (out.old.n ≤ 64) }
    ensures same_buffer { out.new.bytes.ghost_name ≡ out.old.bytes.ghost_name }
    ensures put { RulesPut (text s.now) s.now.end out.old.bytes.now out.new.bytes.now out.old.n out.new.n }
{
    let count = rule_count(s);
    rules(s, count, out);
}
