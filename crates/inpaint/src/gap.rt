// The repair of one gap.
ghost use Rattle.std.specs.Prelude.{◌≡◌, length};
ghost use Rattle.leaves.specs.Arithmetic.{nought};
ghost use Rattle.recording.specs.Recording.{ended, work_after};
ghost use Rattle.recording.specs.Lent.{held, SameMemory};
ghost use Rattle.inpaint.specs.Gap.{needed, gap_repair};
ghost use Rattle.inpaint.specs.Order.{gap_order};
ghost use Rattle.inpaint.specs.Filled.{answer_of, order_of};

use super::Filled;
use super::fill::repair_by_model;
use super::line::repair_by_line;
use super::window::{MAX_SOLVE, check_known, gap_wrong, needed_for};
use recording::clear::set_all;
use recording::{Reason, Recording};

// Repairs the len samples from `start` on, by straight line or by the model, or refuses and changes
// nothing, and tells the order of the model. Every pass count gives the same, so that the count is not
// looked at.
pub fn inpaint_gap(
    recording: &mut Recording,
    start: usize,
    len: usize,
    passes: u32,
    work: &mut [f64],
) -> Result<Filled, Reason>
    ensures memory { SameMemory recording.old recording.new }
    ensures rule { (ended (answer_of result) (held recording.new) ≡ gap_repair start len passes (length work.old) (held recording.old))
        × (work.new ≡ work_after nought (needed (length recording.old.samples.now) start len) (answer_of result) work.old)
        × (order_of result ≡ gap_order start len passes (length work.old) (held recording.old)) }
{
    recording.check_sizes()?;
    let samples = &mut *recording.samples;
    if gap_wrong(samples.len(), start, len) {
        return Err(Reason::Gap);
    }
    let needed = needed_for(samples.len(), start, len);
    if work.len() < needed {
        return Err(Reason::Workspace);
    }
    check_known(samples, start, len)?;
    let filled = if MAX_SOLVE < len {
        repair_by_line(recording, start, len)
    } else {
        repair_by_model(recording, start, len, work)
    };
    set_all(work, 0, needed, 0.0);
    filled
}
