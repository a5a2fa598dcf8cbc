// `dequantize_cosparse`: up to 16 iterations, each over a snapshot, toward a candidate that weighs a cubic
// through four neighbours against the middle of the nearest two.
ghost use Rattle.std.specs.Prelude.{◌≡◌, ◌+◌, ◌-◌, ◌*◌, ◌≤◌, ◌<◌, length, drop};
ghost use Rattle.std.specs.Float.{binary32};
ghost use Rattle.std.specs.Float.Ieee.{to_bits};
ghost use Rattle.recording.specs.Recording.{ended, work_after};
ghost use Rattle.recording.specs.Lent.{held, SameMemory};
ghost use Rattle.redraw.specs.Whole.{untouched, needed};
ghost use Rattle.redraw.specs.Inner.{words_in, snapshot_in, rest_of, drawn_in, Holds, Room};
ghost use Rattle.dequant.specs.Dequant.{cubic_weight, candidate, local_strength, sparse_at, sparse_pass, sparse_passes, cosparse, cosparse_repair};

use super::lattice::{name_inner, reaches, snapshot, step_of, strength_of, target_of};
use leaves::order::{clamp, magnitude};
use leaves::words::{f32_of_word, word_of_f32};
use recording::marks::Mark;
use recording::{Answer, Recording};
use redraw::{begin_held, finish};

// `dequantize_cosparse` needs so many samples, and leaves so many alone at either end.
const LEAST_SAMPLES: usize = 5;

const EDGE: usize = 2;

// How many iterations run at most.
const MOST_ITERATIONS: usize = 16;

// How much the cubic counts, which is less where the samples bend.
fn cubic_weight(a: f32, b: f32, c: f32, d: f32) -> f32
    ensures { result ≡ cubic_weight a b c d }
{
    let bend = magnitude(d - 2.0 * c + 2.0 * b - a);
    clamp(1.0 / (1.0 + 32.0 * bend), 0.1, 1.0)
}

// What the two samples before a place and the two behind it predict there.
fn candidate_of(a: f32, b: f32, c: f32, d: f32) -> f32
    ensures { result ≡ candidate a b c d }
{
    let linear = (b + c) * 0.5;
    let cubic = (-a + 4.0 * b + 4.0 * c - d) / 6.0;
    let weight = cubic_weight(a, b, c, d);
    (linear + cubic * weight) / (1.0 + weight)
}

// The strength at a place between b and c, which falls to a half where they lie far apart.
fn local_strength(strength: f32, b: f32, c: f32) -> f32
    ensures { result ≡ local_strength strength b c }
{
    let rise = magnitude(c - b);
    strength * (0.5 + 0.5 / (1.0 + 16.0 * rise))
}

// An iteration's word at place i, from the snapshot that stands behind the n words.
fn sparse_word(work: &[u32], n: usize, i: usize, step: f32, strength: f32) -> u32
    requires { Room n work.now × (2 ≤ i) × (i + 2 < n) }
    ensures { result ≡ to_bits binary32 (sparse_at step strength (snapshot_in n work.now) i) }
{
    let at = n + i;
    let b = f32_of_word(work[at - 1]);
    let x = f32_of_word(work[at]);
    let c = f32_of_word(work[at + 1]);
    let pred = candidate_of(f32_of_word(work[at - 2]), b, c, f32_of_word(work[at + 2]));
    let goal = target_of(step, x, pred);
    word_of_f32(x + local_strength(strength, b, c) * (goal - x))
}

// One iteration over n words: all but two at either end, from the snapshot.
fn sparse_pass(work: &mut [u32], n: usize, step: f32, strength: f32)
    requires { Room n work.old × (5 ≤ n) }
    ensures { (words_in n work.new ≡ sparse_pass step strength (snapshot_in n work.old) 2 (n - 4) (words_in n work.old))
        × (drop n work.new ≡ drop n work.old) }
{
    for i in 2..n - 2 {
        work[i] = sparse_word(work, n, i, step, strength);
    }
}

// So many iterations, each over a snapshot of what the one before it left. The snapshots stay behind in the
// place of the flags.
fn sparse_passes(work: &mut [u32], n: usize, step: f32, strength: f32, iterations: usize)
    requires { Room n work.old × (5 ≤ n) }
    ensures { (words_in n work.new ≡ sparse_passes step strength iterations (words_in n work.old))
        × (rest_of n work.new ≡ rest_of n work.old) }
{
    for _k in 0..iterations {
        snapshot(work, n);
        sparse_pass(work, n, step, strength);
    }
}

// Works out the words and the flags of all samples in the workspace.
fn draw(work: &mut [u32], n: usize, bits: u32, strength: f32, iterations: u32)
    requires { Room n work.old × (drawn_in n work.old ≡ untouched (words_in n work.old)) }
    ensures { Holds n (cosparse bits strength iterations (words_in n work.old)) work.old work.new }
{
    let held = strength_of(strength);
    if !reaches(held, LEAST_SAMPLES, n) {
        return;
    }
    if iterations == 0 {
        return;
    }
    let step = step_of(bits);
    let most = (iterations as usize).min(MOST_ITERATIONS);
    sparse_passes(work, n, step, held, most);
    name_inner(work, n, EDGE);
}

// Moves every sample but two at either end toward what its neighbours predict, up to 16 times, or refuses
// and changes nothing.
pub fn dequantize_cosparse(
    recording: &mut Recording,
    bits: u32,
    strength: f32,
    iterations: u32,
    work: &mut [u32],
) -> Answer
    ensures memory { SameMemory recording.old recording.new }
    ensures rule { ended result (held recording.new)
        ≡ cosparse_repair bits strength iterations (length work.old) (held recording.old) }
    ensures work { work.new ≡ work_after 0 (needed (length recording.old.samples.now)) result work.old }
{
    begin_held(recording, !strength.is_nan(), work)?;
    draw(work, recording.samples.len(), bits, strength, iterations);
    finish(recording, work, Mark::Dequantize as u8)
}
