// The rules of a sheet: their ids, names and places, found by reading every record.
ghost use Rattle.std.specs.Prelude.{◌≡◌, ◌+◌, ◌-◌, ◌*◌, ◌<◌, ◌≤◌, ◌^◌, length};
ghost use Rattle.grammar.specs.Numbers.{rule_limit};
ghost use Rattle.grammar.specs.Tree.{body_depth};
ghost use Rattle.grammar.specs.Words.{words};
ghost use Rattle.grammar.specs.Read.{block_at_in, rule_at_in};
ghost use Rattle.words.specs.Form.{form_of};
ghost use Rattle.records.specs.Lent.{form, text};
ghost use Rattle.records.specs.Step.{step_of};
ghost use Rattle.records.specs.Rules.{IsEmpty, IsWith, RulesReadIn, RulesRead};

use crate::lent::Records;
use crate::records::{block_at, is_name};
use words::form::Form;
use words::numbers::{Block, RuleFlags};
use words::words::word;

// One row of each array for each rule, zeros behind; a place is counted in words.
// Stays: SPECIFICATION 17.5 has three arrays and their number. That they are the rules of a sheet is a fact of rules
// and sheet, and so a field of `Ruled` (analysis).
#[derive(Clone, Copy, Debug, PartialEq, Eq)]
pub struct Rules {
    pub ids: [u32; 128],
    pub names: [u32; 128],
    pub places: [u32; 128],
    pub n: u32,
}

impl Rules {
    pub const LIMIT: u32 = 128;

    pub fn empty() -> Rules
        ensures { IsEmpty result }
    {
        Rules {
            ids: [0; 128],
            names: [0; 128],
            places: [0; 128],
            n: 0,
        }
    }
}

// One rule more. This is no method, since `Rules` is handed to callers outside, and a public method of it may ask nothing of them.
pub fn add(rules: &mut Rules, id: u32, name: u32, place: u32)
    requires { rules.old.n < rule_limit }
    ensures { IsWith rules.old id name place rules.new }
{
    let n = rules.n as usize;
    rules.ids[n] = id;
    rules.names[n] = name;
    rules.places[n] = place;
    rules.n += 1;
}

// One rule between a place and the end of the rules.
#[tactic(auto, using(crate::proofs::Laws::Trees::rule_laws))]
fn rule_at(s: &Records, at: usize) -> Option<usize>
    ensures { result ≡ step_of (rule_at_in (form s.now) (text s.now) s.now.end
        (block_at_in (form s.now) (text s.now) s.now.end body_depth) at) }
{
    if !s.has_room(3, at) {
        return None;
    }
    if RuleFlags::MOST < word(s.bytes, at + 2) {
        return None;
    }
    if is_name(word(s.bytes, at + 1)) {
        return block_at(s, Block::BODY_DEPTH, at + 3);
    }
    None
}

// Every rule from the first word up to the end exactly, where every record is good.
// Stays: this takes bytes and an end, since `Records` is made of them here and is known in no other crate.
pub fn read_rules_in(form: Form, s: &[u8], end: usize) -> Option<Rules>
    requires { (4 * end ≤ length s.now) × (end < 2 ^ 31) }
    ensures { RulesReadIn (form_of form) (words s.now) end result }
{
    let lent = Records {
        bytes: s,
        end,
        form,
    };
    let mut rules = Rules::empty();
    let mut at: usize = 0;
    // Stays: each rule says where the next one begins, and the end of all of them ends the loop.
    while at != end {
        let n = rules.n;
        if n == Rules::LIMIT {
            return None;
        }
        let p = rule_at(&lent, at)?;
        add(&mut rules, word(s, at), word(s, at + 1), at as u32);
        at = p;
    }
    Some(rules)
}

// The same in the newest form.
pub fn read_rules(s: &[u8], end: usize) -> Option<Rules>
    requires { (4 * end ≤ length s.now) × (end < 2 ^ 31) }
    ensures { RulesRead (words s.now) end result }
{
    read_rules_in(Form::NEWEST, s, end)
}
