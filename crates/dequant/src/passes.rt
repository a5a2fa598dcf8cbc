// `dequantize`: two passes, the first over the changing samples and the second over a snapshot.
ghost use Rattle.std.specs.Prelude.{◌≡◌, ◌+◌, ◌-◌, ◌*◌, ◌≤◌, ◌<◌, length, drop};
ghost use Rattle.std.specs.Float.{binary32};
ghost use Rattle.std.specs.Float.Ieee.{to_bits};
ghost use Rattle.recording.specs.Recording.{ended, work_after};
ghost use Rattle.recording.specs.Lent.{held, SameMemory};
ghost use Rattle.redraw.specs.Whole.{sample, untouched, needed};
ghost use Rattle.redraw.specs.Inner.{words_in, snapshot_in, drawn_in, Holds, Room};
ghost use Rattle.dequant.specs.Dequant.{first_at, first_pass, second_at, second_pass, wide, dequantized, dequantize_repair};

use super::lattice::{name_inner, reaches, snapshot, step_of, strength_of, target_of};
use leaves::words::{f32_of_word, word_of_f32};
use recording::marks::Mark;
use recording::{Answer, Recording};
use redraw::{begin_held, finish};

// `dequantize` needs so many samples, and leaves so many alone at either end.
const LEAST_SAMPLES: usize = 3;

const EDGE: usize = 1;

// The second pass needs so many samples, and a strength above this.
const WIDE_SAMPLES: usize = 5;

const WIDE_STRENGTH: f32 = 0.3;

// The first pass's word at place i, from the words as they stand.
fn first_word(work: &[u32], i: usize, step: f32, strength: f32) -> u32
    requires { (1 ≤ i) × (i + 1 < length work.now) }
    ensures { result ≡ to_bits binary32 (first_at step strength work.now i) }
{
    let x = f32_of_word(work[i]);
    let pred = (f32_of_word(work[i - 1]) + f32_of_word(work[i + 1])) * 0.5;
    word_of_f32(x + strength * (target_of(step, x, pred) - x))
}

// The first pass over n words: all but the two ends, each from neighbours that may have changed.
fn first_pass(work: &mut [u32], n: usize, step: f32, strength: f32)
    requires { Room n work.old × (3 ≤ n) }
    ensures { (words_in n work.new ≡ first_pass step strength 1 (n - 2) (words_in n work.old))
        × (drop n work.new ≡ drop n work.old) }
{
    for i in 1..n - 1 {
        work[i] = first_word(work, i, step, strength);
    }
}

// The second pass's word at place i: its neighbours, and what it stood at, are those of the snapshot.
fn second_word(work: &[u32], n: usize, i: usize, step: f32, strength: f32) -> u32
    requires { Room n work.now × (2 ≤ i) × (i + 2 < n) }
    ensures { result ≡ to_bits binary32 (second_at step strength (snapshot_in n work.now) (sample (words_in n work.now) i) i) }
{
    let at = n + i;
    let before = f32_of_word(work[at - 2]) + f32_of_word(work[at - 1]);
    let pred = (before + f32_of_word(work[at + 1]) + f32_of_word(work[at + 2])) * 0.25;
    let goal = target_of(step, f32_of_word(work[at]), pred);
    let x = f32_of_word(work[i]);
    word_of_f32(x + strength * 0.5 * (goal - x))
}

// The second pass over n words: all but two at either end, from the snapshot that stands behind them. (One walk over
// a closure would be no plainer: `first_pass` and `second_pass`, which the promises cite, are rules of their own.)
fn second_pass(work: &mut [u32], n: usize, step: f32, strength: f32)
    requires { Room n work.old × (5 ≤ n) }
    ensures { (words_in n work.new ≡ second_pass step strength (snapshot_in n work.old) 2 (n - 4) (words_in n work.old))
        × (drop n work.new ≡ drop n work.old) }
{
    for i in 2..n - 2 {
        work[i] = second_word(work, n, i, step, strength);
    }
}

// Whether there is a second pass.
fn is_wide(strength: f32, n: usize) -> bool
    ensures { result ≡ wide strength n }
{
    WIDE_SAMPLES <= n && WIDE_STRENGTH < strength
}

// Works out the words and the flags of all samples in the workspace.
fn draw(work: &mut [u32], n: usize, bits: u32, strength: f32)
    requires { Room n work.old × (drawn_in n work.old ≡ untouched (words_in n work.old)) }
    ensures { Holds n (dequantized bits strength (words_in n work.old)) work.old work.new }
{
    let held = strength_of(strength);
    if !reaches(held, LEAST_SAMPLES, n) {
        return;
    }
    let step = step_of(bits);
    first_pass(work, n, step, held);
    if is_wide(held, n) {
        snapshot(work, n);
        second_pass(work, n, step, held);
    }
    name_inner(work, n, EDGE);
}

// Moves every sample but the two ends toward what its neighbours predict, or refuses and changes nothing.
pub fn dequantize(recording: &mut Recording, bits: u32, strength: f32, work: &mut [u32]) -> Answer
    ensures memory { SameMemory recording.old recording.new }
    ensures rule { ended result (held recording.new) ≡ dequantize_repair bits strength (length work.old) (held recording.old) }
    ensures work { work.new ≡ work_after 0 (needed (length recording.old.samples.now)) result work.old }
{
    begin_held(recording, !strength.is_nan(), work)?;
    draw(work, recording.samples.len(), bits, strength);
    finish(recording, work, Mark::Dequantize as u8)
}
