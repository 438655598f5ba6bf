// How much a sheet holds.
ghost use Rattle.std.specs.Prelude.{◌≡◌};
ghost use Rattle.grammar.specs.Words.{words};
ghost use Rattle.grammar.specs.Found.{FoundRules};
ghost use Rattle.sheet.specs.Answer.{numbers_in};
ghost use Rattle.sheet.specs.Sizes.{Counted, Standing, numbers_from};

use crate::answer::Parts;
use ids::survey::survey_all;
use words::sheet::Sheet;

// The numbers of rules, alternatives, elements and preserved ids, nested ones counted.
#[derive(Clone, Copy, Debug, PartialEq, Eq)]
pub struct Sizes {
    pub rules: u32,
    pub alternatives: u32,
    pub elements: u32,
    pub preserved: u32,
}

// The sizes of a sheet that was read.
pub fn counted(s: &[u8], parts: Parts, n: u32) -> Sizes
    requires { Standing s.now parts.preserved n }
    ensures { (f : FoundRules (words s.now) parts.preserved n 0)
        → Counted f.trees n parts.count result }
{
    let end = parts.rules_end();
    let sheet = Sheet { bytes: s, end };
    let v = survey_all(&sheet, n);
    Sizes {
        rules: n,
        alternatives: v.alternatives,
        elements: v.elements,
        preserved: parts.count,
    }
}

// 0, and the parts and sizes of a sheet.
pub fn sheet_numbers(parts: Parts, sizes: Sizes) -> [u32; 12]
    ensures { result ≡ numbers_from (numbers_in parts) sizes }
{
    [
        0,
        u32::from(parts.kind),
        parts.preserved,
        parts.count,
        parts.counters.alternative,
        parts.counters.element,
        parts.counters.label,
        parts.counters.action,
        parts.counters.predicate,
        sizes.rules,
        sizes.alternatives,
        sizes.elements,
    ]
}
