// The window around a gap, what a repair of it needs, and what it reads.
ghost use Rattle.std.specs.Prelude.{◌≡◌, ◌+◌, ◌-◌, ◌≤◌};
ghost use Rattle.recording.specs.Recording.{most_samples};
ghost use Rattle.model.specs.Model.{order_for};
ghost use Rattle.inpaint.specs.Gap.{gap_wrong, context, from, to, window, needed, all_readable};
ghost use Rattle.inpaint.specs.Inner.{Within};

use model::fill::doubles_for;
use recording::Answer;
use recording::read::check_words;

// A gap of more samples goes by straight line.
pub const MAX_SOLVE: usize = 2048;

// The order of the model is from 32 to 128.
const AR_ORDER: usize = 32;

const MAX_ORDER: usize = 128;

// A model's context is four gaps on either side, and at least this.
const LEAST_CONTEXT: usize = 1024;

// Refusal 5's test, which no sum of start and length can upset: none is made.
pub fn gap_wrong(n: usize, start: usize, len: usize) -> bool
    ensures { result ≡ gap_wrong n start len }
{
    len == 0 || n <= start || n - start < len
}

// The order of the model for a gap.
pub fn order_for(len: usize) -> usize
    ensures { result ≡ order_for len }
{
    if len <= AR_ORDER {
        AR_ORDER
    } else {
        len.min(MAX_ORDER)
    }
}

// How far a repair reads on either side of the gap.
fn context_of(len: usize) -> usize
    requires { len ≤ most_samples }
    ensures { result ≡ context len }
{
    if MAX_SOLVE < len {
        return 1;
    }
    if 4 * len <= LEAST_CONTEXT {
        LEAST_CONTEXT
    } else {
        4 * len
    }
}

// Where the window begins.
pub fn window_from(start: usize, len: usize) -> usize
    requires { len ≤ most_samples }
    ensures { result ≡ from start len }
{
    start.saturating_sub(context_of(len))
}

// Where it ends.
pub fn window_to(n: usize, start: usize, len: usize) -> usize
    requires { (n ≤ most_samples) × (start + len ≤ n) }
    ensures { result ≡ to n start len }
{
    n.min(start + len + context_of(len))
}

// The window, as a part of the caller's samples.
pub fn window_of(samples: &[u32], start: usize, len: usize) -> &[u32]
    requires { Within samples.now start len }
    ensures { result.now ≡ window samples.now start len }
{
    let from = window_from(start, len);
    let to = window_to(samples.len(), start, len);
    &samples[from..to]
}

// How many doubles of workspace the repair of a gap needs.
pub fn needed_for(n: usize, start: usize, len: usize) -> usize
    requires { (n ≤ most_samples) × (start + len ≤ n) }
    ensures { result ≡ needed n start len }
{
    if MAX_SOLVE < len {
        return len;
    }
    let size = window_to(n, start, len) - window_from(start, len);
    let p = order_for(len);
    doubles_for(size, len, p)
}

// Refusal 7 for what the repair of a gap reads: the window before the gap, and then behind it.
pub fn check_known(samples: &[u32], start: usize, len: usize) -> Answer
    requires { Within samples.now start len }
    ensures { result ≡ all_readable samples.now start len }
{
    let from = window_from(start, len);
    let to = window_to(samples.len(), start, len);
    let end = start + len;
    check_words(&samples[from..start], from)?;
    check_words(&samples[end..to], end)
}
