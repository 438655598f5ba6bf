// How a decision is told in numbers, and what it leaves in the work area.
ghost use Rattle.std.specs.Prelude.{[], ◌∷◌, ◌≡◌};
ghost use Rattle.plans.specs.Nth.{capped, choice_numbers, choice_row, ending_number, told_clause, left_by};

use plan::plan::Plan;
use reach::rows::Row;
use steps::decide::Clause;
use turns::turn::Unplanned;
use words::words::clear;

// How a decision ends: with a plan, a decline, a list beyond its limits, or no cycle to decide on.
#[derive(Clone, Copy, Debug, PartialEq, Eq)]
pub enum Ending {
    Planned,
    Declined,
    TooLarge,
    NoCycle,
}

// The number by which it is told (SPECIFICATION 3.12).
impl From<Ending> for u32 {
    ghost use Rattle.plans.specs.Nth.{ending_number};

    ghost from_gives = { λ ending number. number ≡ ending_number ending };

    fn from(ending: Ending) -> u32 {
        match ending {
            Ending::Planned => 0,
            Ending::Declined => 1,
            Ending::TooLarge => 2,
            Ending::NoCycle => 3,
        }
    }
}

// Numbers, and the row of the rules that may go.
#[derive(Clone, Copy, Debug, PartialEq, Eq)]
pub struct Told {
    pub numbers: [u32; 8],
    pub row: [u64; Row::WORDS],
}

impl Told {
    pub const MOST: usize = 4294967295;
}

// A number as one of 32 bits; a larger one is told as the largest.
// Stays: three numbers are told so, and `u32::try_from(n).unwrap_or(u32::MAX)` in each of the three places would be no plainer.
pub fn capped(n: usize) -> u32
    ensures { result ≡ capped n }
{
    n.min(Told::MOST) as u32
}

// Where there is no plan: how the decision ends, and the clause by which a cycle is declined, whose number is told, or 0 for none.
fn without_plan(cycles: u32, ending: Ending, clause: Option<Clause>) -> Told
    ensures { (result.numbers ≡ 0 ∷ cycles ∷ ending_number ending ∷ 0 ∷ told_clause clause ∷ 0 ∷ 0 ∷ 0 ∷ []) × (result.row ≡ 0 ∷ 0 ∷ []) }
{
    let number = match clause {
        Some(c) => u32::from(c),
        None => 0,
    };
    Told {
        numbers: [0, cycles, u32::from(ending), 0, number, 0, 0, 0],
        row: [0; Row::WORDS],
    }
}

// A decision in numbers, where so many cycles are told with it; none where there was no cycle to decide on.
pub fn tell(cycles: u32, choice: Option<Result<Plan, Unplanned>>) -> Told
    ensures { (result.numbers ≡ choice_numbers cycles choice) × (result.row ≡ choice_row choice) }
{
    match choice {
        Some(Ok(p)) => {
            let l = p.l;
            let row = p.removable;
            Told {
                numbers: [
                    0,
                    cycles,
                    u32::from(Ending::Planned),
                    capped(p.hub),
                    0,
                    capped(p.steps),
                    capped(l.out.a),
                    0,
                ],
                row,
            }
        }
        Some(Err(Unplanned::Declined(clause))) => {
            without_plan(cycles, Ending::Declined, Some(clause))
        }
        Some(Err(Unplanned::Overfull)) => without_plan(cycles, Ending::TooLarge, None),
        None => without_plan(cycles, Ending::NoCycle, None),
    }
}

// The list of a plan stays in the work area; without a plan nothing does.
pub fn leave(choice: Option<Result<Plan, Unplanned>>, work: &mut [u8])
    ensures { work.new ≡ left_by choice work.old }
{
    match choice {
        Some(Ok(_)) => {}
        _ => clear(work),
    }
}
