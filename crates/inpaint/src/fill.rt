// The repair of a short gap by the model: the window is widened into the workspace, the model gives the
// gap's doubles there, and these are tested, entered and written.
ghost use Rattle.std.specs.Prelude.{◌≡◌, ◌+◌, ◌≤◌, map, length, drop};
ghost use Rattle.std.proofs.lemmas.List.Edits.{sets};
ghost use Rattle.leaves.specs.Arithmetic.{float};
ghost use Rattle.recording.specs.Recording.{ended, most_samples, change, span, ranged, carried};
ghost use Rattle.recording.specs.Lent.{held, SameMemory};
ghost use Rattle.recording.specs.Marks.{gap_by_model};
ghost use Rattle.recording.specs.Inner.{Fits};
ghost use Rattle.inpaint.specs.Filled.{answer_of, order_of};
ghost use Rattle.inpaint.specs.Gap.{narrow_word, needed, model};
ghost use Rattle.inpaint.specs.Order.{order_beside};

use super::Filled;
use super::window::{order_for, window_from, window_of};
use leaves::narrow::narrow;
use leaves::words::{f32_of_word, in_range, widen, word_of_f32};
use model::fill::{fill_by_model, results_at};
use recording::marks::Mark;
use recording::{Answer, Reason, Recording};

// Writes the floats of words, widened, at the front of the workspace.
fn widen_words(words: &[u32], work: &mut [f64])
    requires { length words.now ≤ length work.old }
    ensures { work.new ≡ sets work.old 0 (map float words.now) }
{
    for i in 0..words.len() {
        work[i] = widen(f32_of_word(words[i]));
    }
}

// The word of a double, narrowed.
fn word_of_double(x: f64) -> u32
    ensures { result ≡ narrow_word x }
{
    word_of_f32(narrow(x))
}

// Refusal 8 for doubles that are to stand from place `start` on; accepted, with 0, where the word of each
// is in range.
fn check_results(results: &[f64], start: usize) -> Answer
    requires { start + length results.now ≤ most_samples }
    ensures { result ≡ ranged (span start (map narrow_word results.now)) }
{
    for i in 0..results.len() {
        if !in_range(word_of_double(results[i])) {
            return Err(Reason::Result(start + i));
        }
    }
    Ok(0)
}

// Writes the words of the model's doubles into the gap.
fn model_fill(gap: &mut [u32], results: &[f64])
    requires { length gap.old ≡ length results.now }
    ensures { gap.new ≡ map narrow_word results.now }
{
    for i in 0..gap.len() {
        gap[i] = word_of_double(results[i]);
    }
}

// The repair of a gap by the model, from refusal 8 on, and beside it the order of that model. It makes one
// pass, which is what every number of passes comes to. Of the workspace it leaves what is not needed.
pub fn repair_by_model(
    recording: &mut Recording,
    start: usize,
    len: usize,
    work: &mut [f64],
) -> Result<Filled, Reason>
    requires { Fits (held recording.old) × (start + len ≤ length recording.old.samples.now)
        × (1 ≤ len) × (len ≤ 2048) × (needed (length recording.old.samples.now) start len ≤ length work.old) }
    ensures memory { SameMemory recording.old recording.new }
    ensures rule { ended (answer_of result) (held recording.new)
        ≡ carried (held recording.old) (change gap_by_model (span start (model 1 recording.old.samples.now start len))) }
    ensures rest { drop (needed (length recording.old.samples.now) start len) work.new
        ≡ drop (needed (length recording.old.samples.now) start len) work.old }
    ensures order { order_of result ≡ order_beside start len 1 recording.old.samples.now (answer_of result) }
{
    let samples = &mut *recording.samples;
    let known = window_of(samples, start, len);
    let size = known.len();
    widen_words(known, work);
    let p = order_for(len);
    let order = fill_by_model(work, size, start - window_from(start, len), len, p) as u32;
    let at = results_at(size, len, p);
    check_results(&work[at..at + len], start)?;
    let named = recording.enter_span(start, len, Mark::GapByModel as u8)?;
    model_fill(
        &mut recording.samples[start..start + len],
        &work[at..at + len],
    );
    Ok(Filled { named, order })
}
