// What the repairs over the whole recording share: how they begin and how they end. Between the two each
// works out its words in the workspace, so that a refusal leaves the recording as it was.
#![tactic(auto)]

ghost use Rattle.std.specs.Prelude.{◌≡◌, ℕ, ◌+◌, ◌-◌, ◌*◌, ◌≤◌, ◌<◌, Bool, length};
ghost use Rattle.recording.specs.Recording.{state, ended, change, carried, cleared};
ghost use Rattle.recording.specs.Lent.{held, SameMemory};
ghost use Rattle.recording.specs.Inner.{Fits, picked_by};
ghost use Rattle.recording.specs.Runs.{begins, run_length};
ghost use Rattle.redraw.specs.Whole.{untouched, needed};
ghost use Rattle.redraw.specs.Runs.{Decides};
ghost use Rattle.redraw.specs.Inner.{begun, Begun, Holds};

use recording::clear::set_all;
use recording::open::check_sizes;
use recording::read::check_words;
use recording::{Answer, Reason, Recording};

// Lays the samples out in the workspace, with none of them named. One is stored after the other: the slice's own copy
// asks the C library for memmove, and include/cathar.h says that it is asked for memset alone.
fn lay_out(samples: &[u32], work: &mut [u32])
    requires { needed (length samples.now) ≤ length work.old }
    ensures { Holds (length samples.now) (untouched samples.now) work.old work.new }
{
    let n = samples.len();
    for (i, sample) in samples.iter().enumerate() {
        work[i] = *sample;
    }
    set_all(work, n, n, 0);
}

// Refusals 1, 14, 2 to 4, 6 and 7, in this order; where none applies the workspace holds the samples. The recording
// is only read, so that who was lent it to be read can begin, too.
pub fn begin(
    samples: &[u32],
    marks: &[u8],
    counts: &[u16],
    journal: &[u32],
    used: usize,
    allowed: bool,
    work: &mut [u32],
) -> Answer
    ensures { (result ≡ begun allowed (length work.old) (state samples.now marks.now counts.now journal.now used))
        × Begun result samples.now work.old work.new }
{
    check_sizes(samples, marks, counts, journal, used)?;
    if !allowed {
        return Err(Reason::Setting);
    }
    if work.len() < 2 * samples.len() {
        return Err(Reason::Workspace);
    }
    check_words(samples, 0)?;
    lay_out(samples, work);
    Ok(0)
}

// The same of a recording that is held as one.
pub fn begin_held(recording: &Recording, allowed: bool, work: &mut [u32]) -> Answer
    ensures { (result ≡ begun allowed (length work.old) (held recording.now))
        × Begun result recording.now.samples.now work.old work.new }
{
    begin(
        recording.samples,
        recording.marks,
        recording.counts,
        recording.journal,
        *recording.used,
        allowed,
        work,
    )
}

// Refusals 8 and 9 and the commit of what the workspace holds; the part of it that was needed is cleared.
pub fn finish(recording: &mut Recording, work: &mut [u32], mark: u8) -> Answer
    requires { Fits (held recording.old) × (needed (length recording.old.samples.now) ≤ length work.old) }
    ensures memory { SameMemory recording.old recording.new }
    ensures rule { ended result (held recording.new)
        ≡ carried (held recording.old) (change mark (picked_by work.old (length recording.old.samples.now))) }
    ensures work { work.new ≡ cleared 0 (needed (length recording.old.samples.now)) work.old }
{
    let n = recording.samples.len();
    let answer = recording.commit_picked(work, mark);
    set_all(work, 0, 2 * n, 0);
    answer
}

// Whether a run begins at place i: the place meets the test, and the one before it, if there is one, does not.
pub fn run_begins<F: Fn(usize) -> bool>(i: usize, meets: F) -> bool
    requires { (k : ℕ) → k ≤ i → F.pre meets k }
    ensures { (test : ℕ → Bool) → Decides (F.post meets) (i + 1) test → result ≡ begins test i }
{
    meets(i) && (i == 0 || !meets(i - 1))
}

// The first place behind the run that begins at `start`, which ends before place n.
pub fn run_end<F: Fn(usize) -> bool>(n: usize, start: usize, meets: F) -> usize
    requires within { start ≤ n }
    requires asked { (k : ℕ) → k < n → F.pre meets k }
    ensures { (test : ℕ → Bool) → Decides (F.post meets) n test → result ≡ start + run_length test start (n - start) }
{
    for end in start..n {
        if !meets(end) {
            return end;
        }
    }
    n
}
