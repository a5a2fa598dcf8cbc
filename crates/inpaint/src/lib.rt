// Gaps: the window around one, the straight line and the model that fill it, the repair of one gap, and
// the automatic scan that finds dropouts and repairs each.
#![tactic(auto)]

ghost use Rattle.std.specs.Prelude.{◌≡◌};
ghost use Rattle.inpaint.specs.Filled.{answer_of, order_of};
ghost use Rattle.inpaint.specs.Auto.{refused_number};

pub mod auto;
mod fill;
pub mod gap;
mod line;
mod window;

use recording::{Answer, Reason};

// What the repair of a gap gives where it is accepted: how many samples it named and, beside it, the highest
// order that its model used, which is 0 for a straight line.
#[derive(Clone, Copy)]
pub struct Filled {
    pub named: usize,
    pub order: u32,
}

// A gap, by its start and its length: that of a dropout run.
#[derive(Clone, Copy)]
pub struct Stretch {
    pub start: usize,
    pub len: usize,
}

// What the automatic scan returns: runs qualified, runs repaired, and the first refusal, if there is one.
#[derive(Clone, Copy)]
pub struct Scanned {
    pub qualified: usize,
    pub repaired: usize,
    pub refused: Option<Reason>,
}

// The answer of the repair of a gap, as every repair has one.
pub fn answer_of(filled: Result<Filled, Reason>) -> Answer
    ensures { result ≡ answer_of filled }
{
    filled.map(|f| f.named)
}

// The order that stands beside it; a refusal tells 0.
pub fn order_of(filled: Result<Filled, Reason>) -> u32
    ensures { result ≡ order_of filled }
{
    filled.map_or(0, |f| f.order)
}

impl Scanned {
    // The number of the first refusal, or 0 where there is none.
    pub fn refused_number(self) -> u32
        ensures { result ≡ refused_number self.refused }
    {
        self.refused.map_or(0, |why| why.number())
    }
}
