// Several gaps in one call, as a splice editor hands them over: each is repaired by the single call.
#![tactic(auto)]

ghost use Rattle.std.specs.Prelude.{◌≡◌, length};
ghost use Rattle.recording.specs.Lent.{held, SameMemory};
ghost use Rattle.std.specs.Prelude.{Ok};
ghost use Rattle.splice.specs.Several.{spans, lengths_wrong, several, in_turn, gaps_repair, answers_lent, answers_left};

use inpaint::gap::inpaint_gap;
use inpaint::{answer_of, order_of};
use recording::numbers::{number_of, value_of};
use recording::{Answer, Reason, Recording};

// How many spans a list may have.
const MOST_SPANS: usize = 64;

// Whether a list of spans is turned away, by how many starts, lengths, numbers, values and orders are lent:
// there are too many, or they differ.
fn lengths_wrong(starts: usize, lens: usize, numbers: usize, values: usize, orders: usize) -> bool
    ensures { result ≡ lengths_wrong starts lens numbers values orders }
{
    MOST_SPANS < starts
        || lens != starts
        || numbers != starts
        || values != starts
        || orders != starts
}

// Repairs one span after the other, each on what the ones before it left, and writes its answer in its own
// place of the lists, which have one for each span. A refused span does not end the list.
fn repair_in_turn(
    recording: &mut Recording,
    starts: &[usize],
    lens: &[usize],
    passes: u32,
    work: &mut [f64],
    numbers: &mut [u32],
    values: &mut [usize],
    orders: &mut [u32],
)
    requires { (length lens.now ≡ length starts.now) × (length numbers.old ≡ length starts.now)
        × (length values.old ≡ length starts.now) × (length orders.old ≡ length starts.now) }
    ensures memory { SameMemory recording.old recording.new }
    ensures rule { several (Ok 0) (answers_left numbers values orders) (held recording.new) work.new
        ≡ in_turn passes (spans starts.now lens.now) work.old (held recording.old) }
{
    for k in 0..starts.len() {
        let filled = inpaint_gap(recording, starts[k], lens[k], passes, work);
        let answer = answer_of(filled);
        numbers[k] = number_of(answer);
        values[k] = value_of(answer);
        orders[k] = order_of(filled);
    }
}

// Repairs up to 64 spans in the order given, each as a gap of its own with its own answer in its own place;
// or turns the list away as a whole, before anything else is looked at, and changes nothing. The spans and their
// answers are lists side by side, one for each part of them, as the C interface has them.
pub fn inpaint_gaps(
    recording: &mut Recording,
    starts: &[usize],
    lens: &[usize],
    passes: u32,
    work: &mut [f64],
    numbers: &mut [u32],
    values: &mut [usize],
    orders: &mut [u32],
) -> Answer
    ensures memory { SameMemory recording.old recording.new }
    ensures rule { several result (answers_left numbers values orders) (held recording.new) work.new
        ≡ gaps_repair starts.now lens.now passes work.old (answers_lent numbers values orders) (held recording.old) }
{
    if lengths_wrong(
        starts.len(),
        lens.len(),
        numbers.len(),
        values.len(),
        orders.len(),
    ) {
        return Err(Reason::Setting);
    }
    repair_in_turn(
        recording, starts, lens, passes, work, numbers, values, orders,
    );
    Ok(0)
}
