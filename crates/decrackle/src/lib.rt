// Decrackle: samples that stand out from their neighbours by more than a running floor are flagged, and
// each flagged run is rewritten by a curve between the samples on either side of it. The workspace and the number of
// samples stay two parameters: `Room n work` and `Holds n`, which the promises cite, take them one by one.
#![tactic(auto)]

ghost use Rattle.std.specs.Prelude.{◌≡◌, false, ◌+◌, ◌-◌, ◌*◌, ◌≤◌, ◌<◌, length, drop};
ghost use Rattle.std.specs.Float.{binary32};
ghost use Rattle.std.specs.Float.Ieee.{to_bits};
ghost use Rattle.recording.specs.Recording.{ended, most_samples, work_after};
ghost use Rattle.recording.specs.Lent.{held, SameMemory};
ghost use Rattle.recording.specs.Inner.{flags};
ghost use Rattle.redraw.specs.Whole.{drawn, untouched, needed};
ghost use Rattle.redraw.specs.Inner.{words_in, flags_in, drawn_in, flag_word, flagged_at, Holds, Room};
ghost use Rattle.leaves.specs.Arithmetic.{nought};
ghost use Rattle.decrackle.specs.Decrackle.{factor_for, from_middle, detector, magnitudes_from, magnitudes, mean_over, summed, mean_floor, opening_floor};
ghost use Rattle.decrackle.specs.Decrackle.{floor_after, flagged, flags_of, slope_before, slope_behind};
ghost use Rattle.decrackle.specs.Decrackle.{hermite_at, repair_hermite, smoothed, decrackled, mark_for, decrackle_repair};

use leaves::order::{clamp, larger, magnitude};
use leaves::words::{count_as_f32, f32_of_word, word_of_f32};
use recording::marks::Mark;
use recording::{Answer, Recording};
use redraw::{begin_held, finish, run_begins, run_end};

// A shorter recording has nothing named.
pub const LEAST_SAMPLES: usize = 8;

// Where the floor starts: at the mean of the first magnitudes, which is the default, or at 1e-6, as it used to.
#[derive(Clone, Copy)]
pub enum Start {
    Mean,
    Old,
}

// The mean is that of so many of the detector's magnitudes, or of all where there are fewer.
pub const MEAN_OVER: usize = 1024;

// The floor before the first sample by the old start, the least that a sample is held against and that the mean
// is raised to, and how much of a sample's magnitude the floor takes in.
pub const OLD_FLOOR: f32 = 1e-6;

const LEAST_FLOOR: f32 = 1e-6;

const ALPHA: f32 = 0.001;

// How far above the floor a flagged sample stands: 11 at sensitivity 1, 2 at 10.
pub fn factor_for(sensitivity: f32) -> f32
    ensures { result ≡ factor_for sensitivity }
{
    12.0 - clamp(sensitivity, 1.0, 10.0)
}

// How far a sample lies from the middle of its neighbours.
pub fn from_middle(before: f32, here: f32, behind: f32) -> f32
    ensures { result ≡ from_middle before here behind }
{
    here - 0.5 * (before + behind)
}

// The detector's value at place i: 0 at both ends, which have one neighbour.
fn detector_at(samples: &[u32], i: usize) -> f32
    requires { i < length samples.now }
    ensures { result ≡ detector samples.now i }
{
    if i == 0 || i + 1 == samples.len() {
        return 0.0;
    }
    let before = f32_of_word(samples[i - 1]);
    let behind = f32_of_word(samples[i + 1]);
    from_middle(before, f32_of_word(samples[i]), behind)
}

// The sum of the detector's magnitudes at the first n places, in order.
fn sum_magnitudes(samples: &[u32], n: usize) -> f32
    requires { n ≤ length samples.now }
    ensures { result ≡ summed nought (magnitudes_from samples.now 0 n) }
{
    let mut sum: f32 = 0.0;
    for i in 0..n {
        sum += magnitude(detector_at(samples, i));
    }
    sum
}

// The floor that starts at the mean of n magnitudes, by their sum: divided once, and raised to 1e-6 where it is below.
pub fn mean_floor(sum: f32, n: usize) -> f32
    requires { n ≤ mean_over }
    ensures { result ≡ mean_floor sum n }
{
    larger(sum / count_as_f32(n), LEAST_FLOOR)
}

// The floor before the first sample: the mean goes over the first 1,024 places, or over all where there are fewer.
fn opening_floor(start: Start, samples: &[u32]) -> f32
    ensures { result ≡ opening_floor start (magnitudes samples.now) }
{
    match start {
        Start::Mean => {
            let n = samples.len().min(MEAN_OVER);
            mean_floor(sum_magnitudes(samples, n), n)
        }
        Start::Old => OLD_FLOOR,
    }
}

// The floor once it has taken in the detector's magnitude a.
pub fn raise_floor(floor: f32, a: f32) -> f32
    ensures { result ≡ floor_after floor a }
{
    floor * (1.0 - ALPHA) + a * ALPHA
}

// Whether a sample with the detector's magnitude a is flagged: it stands above the floor so many times.
pub fn stands_out(factor: f32, floor: f32, a: f32) -> bool
    ensures { result ≡ flagged factor floor a }
{
    factor * larger(floor, LEAST_FLOOR) < a
}

// 1 where a sample with the detector's magnitude a is flagged, and else 0.
fn flag_word(factor: f32, floor: f32, a: f32) -> u32
    ensures { result ≡ flag_word (flagged factor floor a) }
{
    u32::from(stands_out(factor, floor, a))
}

// Flags the samples that stand out: each raises the floor first, and is then held against it.
fn flag_samples(samples: &[u32], sensitivity: f32, start: Start, work: &mut [u32])
    requires { Room (length samples.now) work.old }
    ensures { Holds (length samples.now)
        (drawn (words_in (length samples.now) work.old) (flags_of start sensitivity samples.now))
        work.old work.new }
{
    let n = samples.len();
    let factor = factor_for(sensitivity);
    let mut floor = opening_floor(start, samples);
    for i in 0..n {
        let a = magnitude(detector_at(samples, i));
        floor = raise_floor(floor, a);
        work[n + i] = flag_word(factor, floor, a);
    }
}

// The slope at the anchor before place `start`, or 0 where there is no sample before the anchor.
fn slope_before(work: &[u32], n: usize, start: usize) -> f32
    requires { Room n work.now × (1 ≤ start) × (start ≤ n) }
    ensures { result ≡ slope_before (words_in n work.now) start }
{
    if start < 2 {
        return 0.0;
    }
    f32_of_word(work[start - 1]) - f32_of_word(work[start - 2])
}

// The slope at the anchor at place `end`, or 0 where there is no sample behind it.
fn slope_behind(work: &[u32], n: usize, end: usize) -> f32
    requires { Room n work.now × (end < n) }
    ensures { result ≡ slope_behind (words_in n work.now) end }
{
    if n <= end + 1 {
        return 0.0;
    }
    f32_of_word(work[end + 1]) - f32_of_word(work[end])
}

// The word of a curve's sample k: Hermite's four polynomials at t, weighed by the anchors' samples and by
// their slopes, which are scaled to the whole span.
fn hermite_word(p0: f32, p1: f32, m0: f32, m1: f32, span: f32, k: usize) -> u32
    requires { k < most_samples }
    ensures { result ≡ to_bits binary32 (hermite_at p0 p1 m0 m1 span k) }
{
    let t = count_as_f32(k + 1) / span;
    let t2 = t * t;
    let t3 = t2 * t;
    let h00 = 2.0 * t3 - 3.0 * t2 + 1.0;
    let h10 = t3 - 2.0 * t2 + t;
    let h01 = -2.0 * t3 + 3.0 * t2;
    let h11 = t3 - t2;
    word_of_f32(h00 * p0 + h10 * (m0 * span) + h01 * p1 + h11 * (m1 * span))
}

// Rewrites the run from `start` to before `end`. The original's branch for a run that touches an end is
// left out, since no end is ever flagged.
fn repair_hermite(work: &mut [u32], n: usize, start: usize, end: usize)
    requires { Room n work.old × (1 ≤ start) × (start ≤ end) × (end < n) }
    ensures { (words_in n work.new ≡ repair_hermite start end (words_in n work.old))
        × (drop n work.new ≡ drop n work.old) }
{
    let p0 = f32_of_word(work[start - 1]);
    let p1 = f32_of_word(work[end]);
    let m0 = slope_before(work, n, start);
    let m1 = slope_behind(work, n, end);
    let span = count_as_f32(end - (start - 1));
    for k in 0..end - start {
        work[start + k] = hermite_word(p0, p1, m0, m1, span, k);
    }
}

// Rewrites every flagged run, left to right, each from what the earlier ones left.
fn smooth_runs(work: &mut [u32], n: usize)
    requires { Room n work.old × (flagged_at n work.old 0 ≡ false) × (flagged_at n work.old (n - 1) ≡ false) }
    ensures { (words_in n work.new ≡ smoothed (flags (flags_in n work.old)) (words_in n work.old))
        × (drop n work.new ≡ drop n work.old) }
{
    for i in 0..n {
        if run_begins(i, |k| work[n + k] != 0) {
            let end = run_end(n, i, |k| work[n + k] != 0);
            repair_hermite(work, n, i, end);
        }
    }
}

// Works out the words and the flags of all samples in the workspace.
fn draw(recording: &Recording, sensitivity: f32, start: Start, work: &mut [u32])
    requires { Room (length recording.now.samples.now) work.old
        × (drawn_in (length recording.now.samples.now) work.old ≡ untouched recording.now.samples.now) }
    ensures { Holds (length recording.now.samples.now) (decrackled start sensitivity recording.now.samples.now) work.old work.new }
{
    let n = recording.samples.len();
    if n < LEAST_SAMPLES {
        return;
    }
    flag_samples(recording.samples, sensitivity, start, work);
    smooth_runs(work, n);
}

// The mark of what is redrawn, which tells where the floor started.
fn mark_for(start: Start) -> u8
    ensures { result ≡ mark_for start }
{
    match start {
        Start::Mean => Mark::DecrackleFromMean as u8,
        Start::Old => Mark::Decrackle as u8,
    }
}

// Repairs the samples that stand out from their neighbours, or refuses and changes nothing.
pub fn decrackle(
    recording: &mut Recording,
    sensitivity: f32,
    start: Start,
    work: &mut [u32],
) -> Answer
    ensures memory { SameMemory recording.old recording.new }
    ensures rule { ended result (held recording.new) ≡ decrackle_repair start sensitivity (length work.old) (held recording.old) }
    ensures work { work.new ≡ work_after 0 (needed (length recording.old.samples.now)) result work.old }
{
    begin_held(recording, !sensitivity.is_nan(), work)?;
    draw(recording, sensitivity, start, work);
    finish(recording, work, mark_for(start))
}
