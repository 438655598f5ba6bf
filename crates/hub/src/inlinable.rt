// Whether the members but for the hub can be inlined (SPECIFICATION 7.5).
ghost use Rattle.std.specs.Prelude.{◌<◌};
ghost use Rattle.grammar.specs.Numbers.{rule_limit};
ghost use Rattle.hub.specs.Inlinable.{AllInlinable};

use reach::rows::{Row, is_empty, meet, without};

pub fn all_inlinable(stops: [u64; Row::WORDS], members: [u64; Row::WORDS], hub: usize) -> bool
    requires { hub < rule_limit }
    ensures { AllInlinable stops members hub result }
{
    is_empty(without(meet(stops, members), hub))
}
