// Undo: the last entry of the journal is taken back.
ghost use Rattle.std.specs.Prelude.{◌≡◌, ◌+◌, ◌*◌, ◌≤◌, ◌<◌, length};
ghost use Rattle.recording.specs.Recording.{ended, saved_at, put, old_words, old_marks, malformed, undone};
ghost use Rattle.recording.specs.Lent.{held, SameMemory};
ghost use Rattle.recording.specs.Inner.{any_wrong, Restorable, last_entry};

use super::clear::set_all;
use super::counts::recount;
use super::marks::is_made;
use super::{Answer, Reason, Recording};

// The largest mark that a byte holds.
const LAST_BYTE: u32 = 255;

// Whether one of the m saved samples from journal word `begin` on is wrong: its place does not rise
// above the one before or is none of the n samples, or its mark is no byte. `least` is the least place
// that still rises.
fn saved_wrong(journal: &[u32], begin: usize, m: usize, n: usize) -> bool
    requires { begin + 3 * m ≤ length journal.now }
    ensures { result ≡ any_wrong n 0 (saved_at journal.now begin m) }
{
    let mut least: usize = 0;
    for i in 0..m {
        let at = begin + 3 * i;
        let place = journal[at] as usize;
        if place < least || n <= place || LAST_BYTE < journal[at + 2] {
            return true;
        }
        least = place + 1;
    }
    false
}

// Refusal 11's test of the last entry, clause by clause, for a recording of n samples, of which it needs no more.
fn last_malformed(n: usize, journal: &[u32], used: usize) -> bool
    requires { (0 < used) × (used ≤ length journal.now) }
    ensures { result ≡ malformed n journal.now used }
{
    if used == 1 {
        return true;
    }
    let m = journal[used - 2] as usize;
    m == 0
        || n < m
        || used < 3 * m + 2
        || saved_wrong(journal, used - (3 * m + 2), m, n)
        || !is_made(journal[used - 1])
}

// Words and marks of the m saved samples from journal word `begin` on return to their places.
fn give_back(samples: &mut [u32], marks: &mut [u8], journal: &[u32], begin: usize, m: usize)
    requires { Restorable samples.old marks.old journal.now begin m }
    ensures { (samples.new ≡ put (old_words (saved_at journal.now begin m)) samples.old)
        × (marks.new ≡ put (old_marks (saved_at journal.now begin m)) marks.old) }
{
    for i in 0..m {
        let at = begin + 3 * i;
        let place = journal[at] as usize;
        samples[place] = journal[at + 1];
        marks[place] = journal[at + 2] as u8;
    }
}

impl Recording<'_> {
    // Refusals 10 and 11, in this order; accepted, with the number of samples that the last entry saved, where
    // neither applies. Any journal whatever is answered, also one that no repair wrote.
    fn last_entry(&self) -> Answer
        requires { self.now.used.now ≤ length self.now.journal.now }
        ensures { result ≡ last_entry (held self.now) }
    {
        let end = *self.used;
        if end == 0 {
            return Err(Reason::Nothing);
        }
        if last_malformed(self.samples.len(), self.journal, end) {
            return Err(Reason::Malformed);
        }
        Ok(self.journal[end - 2] as usize)
    }

    // Takes back the last entry: its samples get their old words and marks, their blocks are recounted, and its
    // journal words become 0 and free.
    pub fn undo(&mut self) -> Answer
        ensures memory { SameMemory self.old self.new }
        ensures rule { ended result (held self.new) ≡ undone (held self.old) }
    {
        self.check_sizes()?;
        let m = self.last_entry()?;
        let end = *self.used;
        let begin = end - (3 * m + 2);
        let samples = &mut *self.samples;
        let marks = &mut *self.marks;
        let journal = &mut *self.journal;
        give_back(samples, marks, journal, begin, m);
        recount(marks, self.counts, journal, begin, m);
        set_all(journal, begin, 3 * m + 2, 0);
        *self.used = begin;
        Ok(m)
    }
}
