// Cubic declip: each run of clipped samples is bridged by a curve between the samples four places before it
// and four places behind it. The curve replaces the shoulders too, so they are named as well.
#![tactic(auto)]

ghost use Rattle.std.specs.Prelude.{◌≡◌, ◌+◌, ◌-◌, ◌*◌, ◌≤◌, ◌<◌, length};
ghost use Rattle.std.specs.Float.{binary32};
ghost use Rattle.std.specs.Float.Ieee.{to_bits};
ghost use Rattle.recording.specs.Recording.{ended, most_samples, work_after};
ghost use Rattle.recording.specs.Lent.{held, SameMemory};
ghost use Rattle.redraw.specs.Whole.{untouched, needed};
ghost use Rattle.redraw.specs.Inner.{drawn_in, Holds, Room};
ghost use Rattle.declip.specs.Declip.{allowed, clipped, clipped_at, cubic_at, cubic_fill, bridged, declipped, declip_repair};

use leaves::order::magnitude;
use leaves::words::{count_as_f32, f32_of_word, word_of_f32};
use recording::marks::Mark;
use recording::{Answer, Recording};
use redraw::{begin_held, finish, run_begins, run_end};

// How far a fill reaches to either side of a run.
const SHOULDER: usize = 4;

// Refusal 4's test: a threshold lies above 0 and below plus infinity.
pub fn threshold_allowed(threshold: f32) -> bool
    ensures { result ≡ allowed threshold }
{
    0.0 < threshold && threshold < 1.0 / 0.0
}

// Whether a sample's magnitude is at or above the threshold.
pub fn is_clipped(threshold: f32, word: u32) -> bool
    ensures { result ≡ clipped threshold word }
{
    threshold <= magnitude(f32_of_word(word))
}

// The word at place i of a curve from y0 at place a to y1 at place z.
fn cubic_word(y0: f32, y1: f32, a: usize, z: usize, i: usize) -> u32
    requires { (a ≤ i) × (i < z) × (z ≤ most_samples) }
    ensures { result ≡ to_bits binary32 (cubic_at y0 y1 a z i) }
{
    let t = count_as_f32(i - a) / count_as_f32(z - a);
    let t2 = t * t;
    let t3 = t2 * t;
    word_of_f32(y0 * (1.0 - 3.0 * t2 + 2.0 * t3) + y1 * (3.0 * t2 - 2.0 * t3))
}

// Writes and names the places between a and z, in a workspace of n words and n flags. The original gives
// up on a span below 4, which its only caller never asks for.
fn cubic_fill(work: &mut [u32], n: usize, a: usize, z: usize)
    requires { Room n work.old × (a < z) × (z < n) }
    ensures { Holds n (cubic_fill a z (drawn_in n work.old)) work.old work.new }
{
    let y0 = f32_of_word(work[a]);
    let y1 = f32_of_word(work[z]);
    for i in a + 1..z {
        work[i] = cubic_word(y0, y1, a, z, i);
        work[n + i] = 1;
    }
}

// Bridges the run from `start` to before `end`, where its fill is long enough. The fill begins four places
// before the run and ends four places behind it, or where the recording does.
fn bridge(work: &mut [u32], n: usize, start: usize, end: usize)
    requires { Room n work.old × (start < n) }
    ensures { Holds n (bridged n start end (drawn_in n work.old)) work.old work.new }
{
    let a = start.saturating_sub(SHOULDER);
    let z = (end.min(n - 1) + SHOULDER).min(n - 1);
    if a + SHOULDER < z {
        cubic_fill(work, n, a, z);
    }
}

// Bridges every run, left to right. The runs are those of the samples, which nothing changes here, and
// each fill begins and ends with what the earlier ones left in the workspace.
fn bridge_runs(recording: &Recording, threshold: f32, work: &mut [u32])
    requires { Room (length recording.now.samples.now) work.old
        × (drawn_in (length recording.now.samples.now) work.old ≡ untouched recording.now.samples.now) }
    ensures { Holds (length recording.now.samples.now) (declipped threshold recording.now.samples.now) work.old work.new }
{
    let samples = &*recording.samples;
    let n = samples.len();
    let clipped = |k: usize| is_clipped(threshold, samples[k]);
    for i in 0..n {
        if run_begins(i, clipped) {
            bridge(work, n, i, run_end(n, i, clipped));
        }
    }
}

// Repairs the runs of samples with a magnitude at or above the threshold, or refuses and changes nothing.
pub fn declip(recording: &mut Recording, threshold: f32, work: &mut [u32]) -> Answer
    ensures memory { SameMemory recording.old recording.new }
    ensures rule { ended result (held recording.new) ≡ declip_repair threshold (length work.old) (held recording.old) }
    ensures work { work.new ≡ work_after 0 (needed (length recording.old.samples.now)) result work.old }
{
    begin_held(recording, threshold_allowed(threshold), work)?;
    bridge_runs(recording, threshold, work);
    finish(recording, work, Mark::CubicDeclip as u8)
}
