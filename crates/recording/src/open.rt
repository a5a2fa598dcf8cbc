// The tests that every call begins with, and the two openings of a recording.
ghost use Rattle.std.specs.Prelude.{◌≡◌, [], map, length, replicate};
ghost use Rattle.recording.specs.Counts.{blocks, counted};
ghost use Rattle.recording.specs.Recording.{state, ended, alike, fitting, opened, kept_mark, opened_received};
ghost use Rattle.recording.specs.Lent.{held, SameMemory, lent_reading, left_reading};

use super::clear::set_all;
use super::counts::{block_count, count_all};
use super::marks::Mark;
use super::{Answer, Reason, Recording};

// The number of samples that a recording has at most.
pub const MOST_SAMPLES: usize = 1_048_576;

// Refusals 1, 14 and 2, in this order; accepted, with 0, where none of them applies. Journal and used have
// no say in them.
fn check_counts(samples: &[u32], marks: &[u8], counts: &[u16]) -> Answer
    ensures { result ≡ alike (state samples.now marks.now counts.now [] 0) }
{
    if marks.len() != samples.len() {
        return Err(Reason::Counts);
    }
    if counts.len() != block_count(samples.len()) {
        return Err(Reason::Blocks);
    }
    if MOST_SAMPLES < samples.len() {
        return Err(Reason::TooMany);
    }
    Ok(0)
}

// Refusals 1, 14, 2 and 3, in this order; accepted, with 0, where none of them applies. All of it is only read, so
// that who was lent it to be read can ask, too.
pub fn check_sizes(
    samples: &[u32],
    marks: &[u8],
    counts: &[u16],
    journal: &[u32],
    used: usize,
) -> Answer
    ensures { result ≡ fitting (state samples.now marks.now counts.now journal.now used) }
{
    check_counts(samples, marks, counts)?;
    if journal.len() < used {
        return Err(Reason::Used);
    }
    Ok(0)
}

impl Recording<'_> {
    // The same of a recording that is held as one.
    pub fn check_sizes(&self) -> Answer
        ensures { result ≡ fitting (held self.now) }
    {
        check_sizes(
            self.samples,
            self.marks,
            self.counts,
            self.journal,
            *self.used,
        )
    }
}

// Empties a journal: all its words become 0, and none is used.
fn empty_journal(journal: &mut [u32], used: &mut usize)
    ensures { (journal.new ≡ replicate (length journal.old) 0) × (used.new ≡ 0) }
{
    let room = journal.len();
    set_all(journal, 0, room, 0);
    *used = 0;
}

// What both openings do once the marks stand: every block is counted, and the journal is emptied.
fn begin_afresh(marks: &[u8], counts: &mut [u16], journal: &mut [u32], used: &mut usize)
    requires { length counts.old ≡ blocks (length marks.now) }
    ensures { (counts.new ≡ counted marks.now)
        × (journal.new ≡ replicate (length journal.old) 0) × (used.new ≡ 0) }
{
    count_all(marks, counts);
    empty_journal(journal, used);
}

// Opens a recording: every mark says measured, every block is counted, and the journal is empty. Whatever
// stood in marks, counts, journal and used is lost, so that only refusals 1, 14 and 2 can be given.
pub fn open(
    samples: &[u32],
    marks: &mut [u8],
    counts: &mut [u16],
    journal: &mut [u32],
    used: &mut usize,
) -> Answer
    ensures { ended result (left_reading samples marks counts journal used) ≡ opened (lent_reading samples marks counts journal used) }
{
    check_counts(samples, marks, counts)?;
    let count = marks.len();
    set_all(marks, 0, count, Mark::Measured as u8);
    begin_afresh(marks, counts, journal, used);
    Ok(0)
}

// What a lent mark becomes where a recording opens as it was received.
fn kept_mark(mark: u8) -> u8
    ensures { result ≡ kept_mark mark }
{
    if mark == Mark::NotReceived as u8 {
        Mark::NotReceived as u8
    } else {
        Mark::Measured as u8
    }
}

// Every mark that does not say not received becomes measured, one after the other.
fn keep_received(marks: &mut [u8])
    ensures { marks.new ≡ map kept_mark marks.old }
{
    for mark in marks.iter_mut() {
        *mark = kept_mark(*mark);
    }
}

// Opens a recording as the bus's frames left it: a mark that says not received stays, every other one
// says measured, and all else is as `open` has it.
pub fn open_received(
    samples: &[u32],
    marks: &mut [u8],
    counts: &mut [u16],
    journal: &mut [u32],
    used: &mut usize,
) -> Answer
    ensures { ended result (left_reading samples marks counts journal used) ≡ opened_received (lent_reading samples marks counts journal used) }
{
    check_counts(samples, marks, counts)?;
    keep_received(marks);
    begin_afresh(marks, counts, journal, used);
    Ok(0)
}

impl Recording<'_> {
    // Opens a recording that is held as one: what `open` does to its five parts.
    pub fn open_as_measured(&mut self) -> Answer
        ensures memory { SameMemory self.old self.new }
        ensures rule { ended result (held self.new) ≡ opened (held self.old) }
    {
        let samples = &mut *self.samples;
        let marks = &mut *self.marks;
        let counts = &mut *self.counts;
        let journal = &mut *self.journal;
        let used = &mut *self.used;
        open(samples, marks, counts, journal, used)
    }

    // Opens one that is held as one as the bus's frames left it: what `open_received` does to its five parts.
    pub fn open_as_received(&mut self) -> Answer
        ensures memory { SameMemory self.old self.new }
        ensures rule { ended result (held self.new) ≡ opened_received (held self.old) }
    {
        let samples = &mut *self.samples;
        let marks = &mut *self.marks;
        let counts = &mut *self.counts;
        let journal = &mut *self.journal;
        let used = &mut *self.used;
        open_received(samples, marks, counts, journal, used)
    }
}
