// A substitution on its way: the settled alternatives and the stack in the work area, the hub's remaining ones in the sheet.
ghost use Rattle.std.specs.Prelude.{◌≡◌, true, ◌≤◌};
ghost use Rattle.grammar.specs.Numbers.{most_words};
ghost use Rattle.planned.specs.List.{Laid, HasTop, HasRoom, Located, Movable};
ghost use Rattle.planned.specs.Moves.{IsDrained};
ghost use Rattle.turns.specs.Midway.{Shut, Ready, HasNext, StackTaken, TakenFrom, PutSettled};
ghost use Rattle.words.specs.Sheet.{text};

use crate::taken::{Alternative, FromSheet, FromStack, Taken};
use ends::ends::alternative_end;
use planned::list::{Listed, Sizes, is_drained, settle, take_top};
use splices::bring::hub_in_hand;
use splices::splice::Size;
use words::numbers::Block;
use words::sheet::Sheet;

// The list, how many of the hub's alternatives are still in the sheet and where the first stands, how large all of it is, and
// the steps that are left and made.
#[derive(Clone, Copy, Debug, PartialEq, Eq)]
pub struct State {
    pub l: Sizes,
    pub left: u32,
    pub at: usize,
    pub all: Size,
    pub budget: usize,
    pub steps: usize,
}

// The top of the stack.
#[tactic(auto, using(crate::proofs::Laws::Midway::taking))]
fn take_stack(work: &[u8], st: State) -> Taken
    requires { Laid work.now st.l × HasTop st.l }
    ensures { StackTaken work.now st result }
{
    let t = take_top(work, st.l);
    let l = t.rest;
    Taken {
        x: Alternative::Stack(FromStack { x: t.x }),
        st: State { l, ..st },
    }
}

// The first of the hub's remaining alternatives.
fn take_hub(s: &Sheet, work: &mut [u8], st: State) -> Taken
    requires bounds { (s.now.end ≤ most_words) × (st.left ≡ 0 → ⊥) × IsDrained st.l true }
    requires shut { Shut (Ready (text s.now) s.now.end work.old st 0 0 0) }
    ensures { TakenFrom (text s.now) s.now.end work.old work.new st result }
{
    let x = hub_in_hand(s, Block::DEPTH, st.at, work);
    let at = alternative_end(s, Block::DEPTH, st.at);
    let left = st.left - 1;
    Taken {
        x: Alternative::Hand(FromSheet { x }),
        st: State { left, at, ..st },
    }
}

// The next alternative: the stack comes before what is still in the sheet.
pub fn take(s: &Sheet, work: &mut [u8], st: State) -> Taken
    requires bounds { (s.now.end ≤ most_words) × HasNext st }
    requires shut { Shut (Ready (text s.now) s.now.end work.old st 0 0 0) }
    ensures { TakenFrom (text s.now) s.now.end work.old work.new st result }
{
    let l = st.l;
    if st.left == 0 {
        return take_stack(work, st);
    }
    if is_drained(l) {
        return take_hub(s, work, st);
    }
    take_stack(work, st)
}

// The alternative that was taken is settled.
#[tactic(auto, using(crate::proofs::Laws::Midway::put_settled_lem))]
pub fn put_settled(work: &mut [u8], st: State, x: Listed) -> State
    requires { Laid work.old st.l × Located work.old x × Movable st.l x × HasRoom st.l 1 x.ne x.no }
    ensures { PutSettled work.old work.new st x result }
{
    let l = settle(work, st.l, x);
    State { l, ..st }
}
