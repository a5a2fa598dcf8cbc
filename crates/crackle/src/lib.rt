// Crackle detection as the sound arrives: decrackle's detector, lent a recording in consecutive pieces. It
// flags the same samples and repairs nothing. A flag comes when the sample behind its own is in; where the floor
// starts from the mean, the first 1,024 flags are held back until that is known.
#![tactic(auto)]

pub mod kept;

ghost use Rattle.std.specs.Prelude.{◌≡◌, map, ◌+◌, ◌-◌, ◌^◌, ◌≤◌, ◌<◌, length, take};
ghost use Rattle.std.proofs.lemmas.List.Edits.{sets};
ghost use Rattle.leaves.specs.Arithmetic.{nought};
ghost use Rattle.decrackle.specs.Decrackle.{mean_over, summed};
ghost use Rattle.crackle.specs.Pieces.{announced, held_back, given_by, flags_due, holding, values_with, magnitudes_in, judged_with, floor_along};
ghost use Rattle.crackle.specs.Pieces.{flags_along, flags_with, floor_with, value_before, flags_by, with_sample, with_piece, flags_before};
ghost use Rattle.crackle.specs.Pieces.{flag_byte, flags_in, closed, too_much, not_all, told, piece_told, end_told};
ghost use Rattle.crackle.specs.Inner.{flag_against, floor_behind};

use decrackle::{
    LEAST_SAMPLES, MEAN_OVER, OLD_FLOOR, Start, factor_for, from_middle, mean_floor, raise_floor,
    stands_out,
};
use leaves::order::magnitude;
use leaves::words::{f32_of_word, word_of_f32};
use recording::open::MOST_SAMPLES;
use recording::read::check_words;
use recording::{Answer, Reason};

// The detector between two calls: the running floor and the last two samples, beside what it counts by. The values
// that it holds back stand in a room of 1,024 words that is lent with it.
#[derive(Clone, Copy)]
pub struct Detector {
    // Where the floor starts.
    pub start: Start,
    // How many samples were announced, and how many of them are in.
    pub total: u32,
    pub taken: u32,
    // Whether the run goes on: it has neither stopped nor ended.
    pub running: bool,
    // How far above the floor a flagged sample stands.
    pub factor: f32,
    // The floor behind the last place that was judged.
    pub floor: f32,
    // The last two samples.
    pub before: f32,
    pub last: f32,
}

// How a call on a detector ends: with its answer, and with the detector behind it. No Result stands for both, since the
// detector comes back from a refusal, too.
#[derive(Clone, Copy)]
pub struct Heard {
    pub answer: Answer,
    pub detector: Detector,
}

// Begins a run of so many samples: refusals 2 and 4, or a detector with nothing in it.
pub fn announce(start: Start, total: usize, sensitivity: f32) -> Result<Detector, Reason>
    ensures { result ≡ announced start total sensitivity }
{
    if MOST_SAMPLES < total {
        return Err(Reason::TooMany);
    }
    if sensitivity.is_nan() {
        return Err(Reason::Setting);
    }
    Ok(Detector {
        start,
        total: total as u32,
        taken: 0,
        running: true,
        factor: factor_for(sensitivity),
        floor: OLD_FLOOR,
        before: 0.0,
        last: 0.0,
    })
}

// Whether flags are held back when so many samples are in: where the floor starts from the mean, as long as fewer
// than 1,024 values are known. The value of a place is known when the sample behind it is in.
fn held_back(start: Start, taken: usize) -> bool
    ensures { result ≡ held_back start taken }
{
    match start {
        Start::Mean => taken <= MEAN_OVER,
        Start::Old => false,
    }
}

// How many flags have been given when so many samples are in.
#[tactic(auto, unfolding(crate::specs::Pieces::given_by))]
fn given_by(start: Start, taken: usize) -> usize
    ensures { result ≡ given_by start taken }
{
    if held_back(start, taken) {
        0
    } else {
        taken.saturating_sub(1)
    }
}

// How many flags a piece of n samples brings when so many are in. More are given with more samples, so that the
// difference is not below 0.
fn flags_due(start: Start, taken: usize, n: usize) -> usize
    requires { taken + n < 2 ^ 64 }
    ensures { result ≡ flags_due start taken n }
{
    given_by(start, taken + n) - given_by(start, taken)
}

// 1 where a place with the detector's magnitude a is flagged, and else 0; where fewer than 8 samples were
// announced none is.
#[tactic(auto, unfolding(crate::specs::Inner::flag_against))]
fn flag_byte(detector: Detector, floor: f32, a: f32) -> u8
    ensures { result ≡ flag_byte (flag_against detector floor a) }
{
    u8::from(LEAST_SAMPLES <= detector.total as usize && stands_out(detector.factor, floor, a))
}

// The sum of the magnitudes of the first n values that are held, in order.
fn sum_held(held: &[u32], n: usize) -> f32
    requires { n ≤ length held.now }
    ensures { result ≡ summed nought (magnitudes_in (take n held.now)) }
{
    let mut sum: f32 = 0.0;
    for k in 0..n {
        sum += magnitude(f32_of_word(held[k]));
    }
    sum
}

// Judges the first n values that are held, where this is the floor before them: each raises it first, and is then held
// against it. Their flags are written from place `at` of the room on, and the floor behind them is given.
fn judge_held(
    detector: Detector,
    floor: f32,
    held: &[u32],
    n: usize,
    flags: &mut [u8],
    at: usize,
) -> f32
    requires { (n ≤ length held.now) × (at + n ≤ length flags.old) }
    ensures { (result ≡ floor_along floor (magnitudes_in (take n held.now)))
        × (flags.new ≡ sets flags.old at (map flag_byte (flags_along detector floor (magnitudes_in (take n held.now))))) }
{
    let mut present = floor;
    for k in 0..n {
        let a = magnitude(f32_of_word(held[k]));
        present = raise_floor(present, a);
        flags[at + k] = flag_byte(detector, present, a);
    }
    present
}

// Judges the place whose value this is, or holds it back; once that is `over`, all that are held. The flags are
// written from place `at` of the room on, and the floor behind them is given.
fn judge(
    detector: Detector,
    held: &mut [u32],
    value: f32,
    over: bool,
    flags: &mut [u8],
    at: usize,
) -> f32
    requires { (1 ≤ detector.taken) × (mean_over ≤ length held.old)
        × (at + length (judged_with (holding detector held.old) value over) ≤ length flags.old) }
    ensures { (result ≡ floor_with (holding detector held.old) value over)
        × (held.new ≡ values_with (holding detector held.old) value)
        × (flags.new ≡ sets flags.old at (map flag_byte (flags_with (holding detector held.old) value over))) }
{
    let taken = detector.taken as usize;
    if !held_back(detector.start, taken) {
        let a = magnitude(value);
        let floor = raise_floor(detector.floor, a);
        flags[at] = flag_byte(detector, floor, a);
        return floor;
    }
    held[taken - 1] = word_of_f32(value);
    if !over {
        return detector.floor;
    }
    let opening = mean_floor(sum_held(held, taken), taken);
    judge_held(detector, opening, held, taken, flags, at)
}

// The detector's value at the place of the last sample, where this is the next one.
fn value_before(detector: Detector, next: f32) -> f32
    ensures { result ≡ value_before detector next }
{
    if detector.taken == 1 {
        0.0
    } else {
        from_middle(detector.before, detector.last, next)
    }
}

// The floor when the next sample is in, which makes the value of the last place known; the very first makes none.
fn judge_before(detector: Detector, held: &mut [u32], next: f32, flags: &mut [u8], at: usize) -> f32
    requires { (mean_over ≤ length held.old) × (at + flags_due detector.start detector.taken 1 ≤ length flags.old) }
    ensures { (result ≡ floor_behind (holding detector held.old) next)
        × (held.new ≡ (with_sample (holding detector held.old) next).values)
        × (flags.new ≡ sets flags.old at (map flag_byte (flags_by (holding detector held.old) next))) }
{
    if detector.taken == 0 {
        return detector.floor;
    }
    let over = !held_back(detector.start, detector.taken as usize + 1);
    judge(
        detector,
        held,
        value_before(detector, next),
        over,
        flags,
        at,
    )
}

// Takes in one sample, and writes the flags that it brings from place `at` of the room on. The count of samples has
// 32 bits.
fn with_sample(
    detector: Detector,
    held: &mut [u32],
    next: f32,
    flags: &mut [u8],
    at: usize,
) -> Detector
    requires { (mean_over ≤ length held.old) × (at + flags_due detector.start detector.taken 1 ≤ length flags.old)
        × (detector.taken + 1 < 2 ^ 32) }
    ensures { (holding result held.new ≡ with_sample (holding detector held.old) next)
        × (flags.new ≡ sets flags.old at (map flag_byte (flags_by (holding detector held.old) next))) }
{
    let floor = judge_before(detector, held, next, flags, at);
    Detector {
        taken: detector.taken + 1,
        floor,
        before: detector.last,
        last: next,
        ..detector
    }
}

// Takes in a piece sample by sample, and writes the flags that it brings. The count of samples fits in 32 bits, since
// it is at most the total.
fn take_in(detector: Detector, held: &mut [u32], piece: &[u32], flags: &mut [u8]) -> Detector
    requires { (mean_over ≤ length held.old) × (detector.taken + length piece.now < 2 ^ 32)
        × (flags_due detector.start detector.taken (length piece.now) ≤ length flags.old) }
    ensures { (holding result held.new ≡ with_piece (holding detector held.old) piece.now)
        × (flags.new ≡ flags_in flags.old (flags_before (holding detector held.old) piece.now)) }
{
    let mut present = detector;
    for (i, word) in piece.iter().enumerate() {
        let given = flags_due(detector.start, detector.taken as usize, i);
        present = with_sample(present, held, f32_of_word(*word), flags, given);
    }
    present
}

// The detector of a run that does not go on.
fn close(detector: Detector) -> Detector
    ensures { result ≡ closed detector }
{
    Detector {
        running: false,
        ..detector
    }
}

// Refusal 13's test of a piece of n samples: the run does not go on, or fewer are left of the total.
fn too_much(detector: Detector, n: usize) -> bool
    ensures { result ≡ too_much detector n }
{
    !detector.running
        || detector.total < detector.taken
        || ((detector.total - detector.taken) as usize) < n
}

// Refusal 13's test of the end: the run does not go on, or not as many samples are in as were announced.
fn not_all(detector: Detector) -> bool
    ensures { result ≡ not_all detector }
{
    !detector.running || detector.taken != detector.total
}

// How a call ends that refuses for a reason, with the detector that it leaves.
fn refused(why: Reason, detector: Detector) -> Heard
    ensures { (result.answer ≡ Err why) × (result.detector ≡ detector) }
{
    Heard {
        answer: Err(why),
        detector,
    }
}

// Gives the detector a piece, and writes the flags that this brings from the first place of the room on: refusals 6,
// for room for fewer than 1,024 held values, 13, 6 and 7, in this order, leave both rooms as they were.
pub fn piece(detector: Detector, held: &mut [u32], piece: &[u32], flags: &mut [u8]) -> Heard
    ensures { told result.answer (holding result.detector held.new) flags.new
        ≡ piece_told (holding detector held.old) piece.now flags.old }
{
    let n = piece.len();
    if held.len() < MEAN_OVER {
        return refused(Reason::Workspace, detector);
    }
    if too_much(detector, n) {
        return refused(Reason::Pieces, close(detector));
    }
    let due = flags_due(detector.start, detector.taken as usize, n);
    if flags.len() < due {
        return refused(Reason::Workspace, detector);
    }
    if let Err(why) = check_words(piece, detector.taken as usize) {
        return refused(why, close(detector));
    }
    Heard {
        answer: Ok(due),
        detector: take_in(detector, held, piece, flags),
    }
}

// Ends the run, and writes the flags that are left from the first place of the room on, none where the total is 0:
// refusals 6, for room for fewer than 1,024 held values, 13 and 6, in this order, leave both rooms as they were.
pub fn finish(detector: Detector, held: &mut [u32], flags: &mut [u8]) -> Heard
    ensures { told result.answer (holding result.detector held.new) flags.new
        ≡ end_told (holding detector held.old) flags.old }
{
    if held.len() < MEAN_OVER {
        return refused(Reason::Workspace, detector);
    }
    if not_all(detector) {
        return refused(Reason::Pieces, close(detector));
    }
    let taken = detector.taken as usize;
    if taken == 0 {
        return Heard {
            answer: Ok(0),
            detector: close(detector),
        };
    }
    let due = taken - given_by(detector.start, taken);
    if flags.len() < due {
        return refused(Reason::Workspace, detector);
    }
    judge(detector, held, 0.0, true, flags, 0);
    Heard {
        answer: Ok(due),
        detector: close(detector),
    }
}
