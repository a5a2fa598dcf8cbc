// What both forms share: the strength, the step, the target within half a step, and the places that are named.
ghost use Rattle.std.specs.Prelude.{◌≡◌, ◌&&◌, ◌+◌, ◌-◌, ◌*◌, ◌≤◌, ◌<◌, leb, ltb};
ghost use Rattle.std.proofs.lemmas.List.Edits.{sets};
ghost use Rattle.recording.specs.Recording.{most_samples};
ghost use Rattle.redraw.specs.Whole.{drawn};
ghost use Rattle.redraw.specs.Inner.{words_in, flag_word, Holds, Room};
ghost use Rattle.dequant.specs.Dequant.{strength_of, step_of, target, inner, acts};

use leaves::order::clamp;
use leaves::whole::round_to_whole;
use leaves::words::count_as_f32;

// The fewest and the most bits that a sample is taken to have been recorded with.
const LEAST_BITS: u32 = 4;

const MOST_BITS: u32 = 24;

// The strength held to 0 .. 1.
pub fn strength_of(strength: f32) -> f32
    ensures { result ≡ strength_of strength }
{
    clamp(strength, 0.0, 1.0)
}

// The step between two levels of so many bits, which cover -1 .. 1.
pub fn step_of(bits: u32) -> f32
    ensures { result ≡ step_of bits }
{
    let kept = bits.clamp(LEAST_BITS, MOST_BITS);
    2.0 / count_as_f32((1u32 << kept) as usize)
}

// A prediction held to within half a step of the level nearest to x.
pub fn target_of(step: f32, x: f32, pred: f32) -> f32
    ensures { result ≡ target step x pred }
{
    let q = round_to_whole(x / step) * step;
    let half = step * 0.5;
    clamp(pred, q - half, q + half)
}

// Whether a form does anything: at least so many samples, and a strength above 0.
pub fn reaches(strength: f32, least: usize, n: usize) -> bool
    ensures { result ≡ acts strength least n }
{
    least <= n && 0.0 < strength
}

// Keeps the n words as they stand, in the place of the flags, for a pass that reads what it overwrites.
pub fn snapshot(work: &mut [u32], n: usize)
    requires { Room n work.old }
    ensures { work.new ≡ sets work.old n (words_in n work.old) }
{
    work.copy_within(..n, n);
}

// The flag of place i: 1 where it has `edge` places before it and behind it, and else 0.
fn inner_word(edge: usize, n: usize, i: usize) -> u32
    requires { (i < n) × (n ≤ most_samples) × (edge ≤ 2) }
    ensures { result ≡ flag_word (leb edge i && ltb (i + edge) n) }
{
    u32::from(edge <= i && i + edge < n)
}

// Names every place that has `edge` places before it and behind it, and no other.
pub fn name_inner(work: &mut [u32], n: usize, edge: usize)
    requires { Room n work.old × (edge ≤ 2) }
    ensures { Holds n (drawn (words_in n work.old) (inner edge n)) work.old work.new }
{
    for i in 0..n {
        work[n + i] = inner_word(edge, n, i);
    }
}
