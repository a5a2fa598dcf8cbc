// The straight line across a long gap. Its samples are worked out twice, once to be tested and once to
// be written, so that nothing is written before every test has passed.
ghost use Rattle.std.specs.Prelude.{◌≡◌, ◌+◌, ◌<◌, ◌≤◌, length, to_bits};
ghost use Rattle.std.specs.Float.{binary32};
ghost use Rattle.recording.specs.Recording.{ended, most_samples, change, span, ranged, carried};
ghost use Rattle.recording.specs.Lent.{held, SameMemory};
ghost use Rattle.recording.specs.Marks.{gap_by_line};
ghost use Rattle.recording.specs.Inner.{Fits};
ghost use Rattle.inpaint.specs.Filled.{answer_of, order_of};
ghost use Rattle.inpaint.specs.Gap.{left_of, right_of, line_at, line_from, line};

use super::Filled;
use leaves::words::{count_as_f32, f32_of_word, in_range, word_of_f32};
use recording::marks::Mark;
use recording::{Answer, Reason, Recording};

// The sample before place `start`, or 0 where there is none.
fn left_of(samples: &[u32], start: usize) -> f32
    requires { start ≤ length samples.now }
    ensures { result ≡ left_of samples.now start }
{
    if start == 0 {
        0.0
    } else {
        f32_of_word(samples[start - 1])
    }
}

// The sample at place `end`, or 0 where there is none.
fn right_of(samples: &[u32], end: usize) -> f32
    ensures { result ≡ right_of samples.now end }
{
    if samples.len() <= end {
        0.0
    } else {
        f32_of_word(samples[end])
    }
}

// The word of the line's sample i.
fn line_word(left: f32, right: f32, len: usize, i: usize) -> u32
    requires { (i < len) × (len ≤ most_samples) }
    ensures { result ≡ to_bits binary32 (line_at left right len i) }
{
    let t = count_as_f32(i + 1) / count_as_f32(len + 1);
    word_of_f32(left * (1.0 - t) + right * t)
}

// Refusal 8 for a line across the gap from `start` on; accepted, with 0, where all of it is in range.
fn check_line(left: f32, right: f32, len: usize, start: usize) -> Answer
    requires { start + len ≤ most_samples }
    ensures { result ≡ ranged (span start (line_from left right len 0 len)) }
{
    for i in 0..len {
        if !in_range(line_word(left, right, len, i)) {
            return Err(Reason::Result(start + i));
        }
    }
    Ok(0)
}

// Writes the line into the gap.
fn line_fill(gap: &mut [u32], left: f32, right: f32)
    requires { length gap.old ≤ most_samples }
    ensures { gap.new ≡ line_from left right (length gap.old) 0 (length gap.old) }
{
    let len = gap.len();
    for i in 0..len {
        gap[i] = line_word(left, right, len, i);
    }
}

// The repair of a gap by straight line, from refusal 8 on. No model stands beside it.
pub fn repair_by_line(recording: &mut Recording, start: usize, len: usize) -> Result<Filled, Reason>
    requires { Fits (held recording.old) × (start + len ≤ length recording.old.samples.now) }
    ensures memory { SameMemory recording.old recording.new }
    ensures rule { ended (answer_of result) (held recording.new)
        ≡ carried (held recording.old) (change gap_by_line (span start (line recording.old.samples.now start len))) }
    ensures order { order_of result ≡ 0 }
{
    let end = start + len;
    let samples = &mut *recording.samples;
    let left = left_of(samples, start);
    let right = right_of(samples, end);
    check_line(left, right, len, start)?;
    let named = recording.enter_span(start, len, Mark::GapByLine as u8)?;
    line_fill(&mut recording.samples[start..end], left, right);
    Ok(Filled { named, order: 0 })
}
