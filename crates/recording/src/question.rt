// "Was this second measured?": the question of a span, which goes through no more than two blocks of marks.
ghost use Rattle.std.specs.Prelude.{◌≡◌, ◌+◌, ◌≤◌, length};
ghost use Rattle.recording.specs.Counts.{blocks};
ghost use Rattle.recording.specs.Question.{marks_say, counts_say, span_measured, span_past, span_verdict};

use super::counts::{BLOCK, block_count};
use super::marks::Mark;
use super::{Reason, Verdict};

// Whether the marks of the `count` samples from `start` on all say measured.
fn marks_say(marks: &[u8], start: usize, count: usize) -> bool
    requires { start + count ≤ length marks.now }
    ensures { result ≡ marks_say marks.now start count }
{
    for i in 0..count {
        if marks[start + i] != Mark::Measured as u8 {
            return false;
        }
    }
    true
}

// Whether the counts of the `count` blocks from `block` on are all 0. (Of 4,096 an iterator's `all` takes a quarter more
// time, and the question is asked at every redraw.)
fn counts_say(counts: &[u16], block: usize, count: usize) -> bool
    requires { block + count ≤ length counts.now }
    ensures { result ≡ counts_say counts.now block count }
{
    for i in 0..count {
        if counts[block + i] != 0 {
            return false;
        }
    }
    true
}

// Whether a span's start plus length passes the end of n samples, with no sum that could overflow.
fn span_past(n: usize, start: usize, len: usize) -> bool
    ensures { result ≡ span_past n start len }
{
    n < start || n - start < len
}

// Whether a span within the recording is measured: by its marks where it lies in one block, and else by
// the marks of its first and of its last block and by the counts of those between.
fn span_measured(marks: &[u8], counts: &[u16], start: usize, len: usize) -> bool
    requires { (start + len ≤ length marks.now) × (length counts.now ≡ blocks (length marks.now)) }
    ensures { result ≡ span_measured marks.now counts.now start len }
{
    if len == 0 {
        return true;
    }
    let end = start + len;
    let first = start / BLOCK;
    let last = (end - 1) / BLOCK;
    if first == last {
        return marks_say(marks, start, len);
    }
    let second = first + 1;
    marks_say(marks, start, second * BLOCK - start)
        && counts_say(counts, second, last - second)
        && marks_say(marks, last * BLOCK, end - last * BLOCK)
}

// Whether every sample of a span is measured, from marks and counts; refusals 14 and 5, in this order. Of
// the marks only those in the blocks that the span's ends fall in are looked at.
pub fn measured(marks: &[u8], counts: &[u16], start: usize, len: usize) -> Verdict
    ensures { result ≡ span_verdict marks.now counts.now start len }
{
    if counts.len() != block_count(marks.len()) {
        return Err(Reason::Blocks);
    }
    if span_past(marks.len(), start, len) {
        return Err(Reason::Gap);
    }
    Ok(span_measured(marks, counts, start, len))
}
