// The commit of an accepted repair: its named samples are saved in the journal, marked and written, and
// their blocks are recounted.
ghost use Rattle.std.specs.Prelude.{ℕ, ◌+◌, ◌*◌, ◌≤◌, ◌<◌, ◌≡◌, List, [], ◌∷◌, length};
ghost use Rattle.std.proofs.lemmas.List.Edits.{sets};
ghost use Rattle.recording.specs.Recording.{state, ended, most_samples, places, put, each, saved, three_words, entered, ranged, change, span, carried};
ghost use Rattle.recording.specs.Lent.{held, SameMemory, lent_reading, left_reading};
ghost use Rattle.recording.specs.Inner.{Fits, consecutive, filled, picked_by};

use super::clear::set_all;
use super::counts::recount;
use super::{Answer, Reason, Recording};
use leaves::words::in_range;

// Place, old word and old mark of one sample, written from journal word `at` on.
pub fn save(samples: &[u32], marks: &[u8], journal: &mut [u32], at: usize, place: usize)
    requires { (at + 3 ≤ length journal.old) × (place < length samples.now) × (place < length marks.now) × (place ≤ most_samples) }
    ensures { journal.new
        ≡ sets journal.old at (three_words (saved samples.now marks.now (place ∷ []))) }
{
    journal[at] = place as u32;
    journal[at + 1] = samples[place];
    journal[at + 2] = marks[place] as u32;
}

// The end of an entry of m saved samples that begins at used: m, and the mark. Used passes it.
pub fn seal(journal: &mut [u32], used: &mut usize, m: usize, mark: u8)
    requires { (used.old + (3 * m + 2) ≤ length journal.old) × (m ≤ most_samples) }
    ensures { (journal.new ≡ sets journal.old (used.old + 3 * m) (m ∷ mark ∷ []))
        × (used.new ≡ used.old + (3 * m + 2)) }
{
    let at = *used + 3 * m;
    journal[at] = m as u32;
    journal[at + 1] = mark as u32;
    *used = at + 2;
}

// Saves the len samples from `start` on, from journal word `at` on.
fn save_span(
    samples: &[u32],
    marks: &[u8],
    journal: &mut [u32],
    at: usize,
    start: usize,
    len: usize,
)
    requires { (at + 3 * len ≤ length journal.old) × (start + len ≤ length samples.now) × (length marks.now ≡ length samples.now)
        × (length samples.now ≤ most_samples) }
    ensures { journal.new
        ≡ sets journal.old at (three_words (saved samples.now marks.now (consecutive start len))) }
{
    for i in 0..len {
        save(samples, marks, journal, at + 3 * i, start + i);
    }
}

// Refusal 9 for a repair that names the len samples from `start` on, and else all of its commit but the
// new words: they are the caller's to write, whatever they are. The samples are only read. (Inlined at each of its two
// calls, as it was before: else the programs, which never read their journal, have to keep it in memory.)
#[inline(always)]
pub fn enter_span(
    samples: &[u32],
    marks: &mut [u8],
    counts: &mut [u16],
    journal: &mut [u32],
    used: &mut usize,
    start: usize,
    len: usize,
    mark: u8,
) -> Answer
    requires { Fits (state samples.now marks.now counts.now journal.now used.now) × (start + len ≤ length samples.now) }
    ensures { (words : List ℕ) → length words ≡ len
        → ended result (filled result start words (left_reading samples marks counts journal used))
        ≡ entered (lent_reading samples marks counts journal used) mark (span start words) }
{
    if len == 0 {
        return Ok(0);
    }
    let at = *used;
    if journal.len() - at < 3 * len + 2 {
        return Err(Reason::Room);
    }
    save_span(samples, marks, journal, at, start, len);
    set_all(marks, start, len, mark);
    recount(marks, counts, journal, at, len);
    seal(journal, used, len, mark);
    Ok(len)
}

impl Recording<'_> {
    // The same of a recording that is held as one.
    #[inline(always)]
    pub fn enter_span(&mut self, start: usize, len: usize, mark: u8) -> Answer
        requires { Fits (held self.old) × (start + len ≤ length self.old.samples.now) }
        ensures memory { SameMemory self.old self.new }
        ensures samples { self.new.samples.now ≡ self.old.samples.now }
        ensures rule { (words : List ℕ) → length words ≡ len
            → ended result (filled result start words (held self.new)) ≡ entered (held self.old) mark (span start words) }
    {
        let samples = &mut *self.samples;
        let marks = &mut *self.marks;
        let counts = &mut *self.counts;
        let journal = &mut *self.journal;
        let used = &mut *self.used;
        enter_span(samples, marks, counts, journal, used, start, len, mark)
    }

    // Commits a repair whose named samples and new words stand in a workspace of 2n words (see `picked_by`):
    // refusals 8 and 9 in their order, and else the entry, the marks, the counts and the words.
    pub fn commit_picked(&mut self, work: &[u32], mark: u8) -> Answer
        requires { Fits (held self.old) × (length self.old.samples.now + length self.old.samples.now ≤ length work.now) }
        ensures memory { SameMemory self.old self.new }
        ensures rule { ended result (held self.new)
            ≡ carried (held self.old) (change mark (picked_by work.now (length self.old.samples.now))) }
    {
        let n = self.samples.len();
        check_picked(work, n)?;
        let m = count_picked(work, n);
        if m == 0 {
            return Ok(0);
        }
        let at = *self.used;
        if self.journal.len() - at < 3 * m + 2 {
            return Err(Reason::Room);
        }
        let samples = &mut *self.samples;
        let marks = &mut *self.marks;
        let counts = &mut *self.counts;
        let journal = &mut *self.journal;
        let used = &mut *self.used;
        save_picked(samples, marks, journal, at, work);
        write_picked(samples, marks, work, mark);
        recount(marks, counts, journal, at, m);
        seal(journal, used, m, mark);
        Ok(m)
    }
}

// Refusal 8 for the samples that the workspace names (see `picked_by`); accepted, with 0, where all
// their new words are in range.
fn check_picked(work: &[u32], n: usize) -> Answer
    requires { n + n ≤ length work.now }
    ensures { result ≡ ranged (picked_by work.now n) }
{
    for place in 0..n {
        if work[n + place] != 0 && !in_range(work[place]) {
            return Err(Reason::Result(place));
        }
    }
    Ok(0)
}

// How many samples the workspace names.
fn count_picked(work: &[u32], n: usize) -> usize
    requires { n + n ≤ length work.now }
    ensures { result ≡ length (picked_by work.now n) }
{
    let mut m: usize = 0;
    for place in 0..n {
        if work[n + place] != 0 {
            m += 1;
        }
    }
    m
}

// Saves the samples that the workspace names, from journal word `at` on.
fn save_picked(samples: &[u32], marks: &[u8], journal: &mut [u32], at: usize, work: &[u32])
    requires { (at + 3 * length (picked_by work.now (length samples.now)) ≤ length journal.old)
        × (length samples.now + length samples.now ≤ length work.now) × (length marks.now ≡ length samples.now)
        × (length samples.now ≤ most_samples) }
    ensures { journal.new
        ≡ sets journal.old at
        (three_words (saved samples.now marks.now (places (picked_by work.now (length samples.now))))) }
{
    let n = samples.len();
    let mut next = at;
    for place in 0..n {
        if work[n + place] != 0 {
            save(samples, marks, journal, next, place);
            next += 3;
        }
    }
}

// Writes word and mark of each sample that the workspace names.
fn write_picked(samples: &mut [u32], marks: &mut [u8], work: &[u32], mark: u8)
    requires { (length samples.old + length samples.old ≤ length work.now) × (length marks.old ≡ length samples.old) }
    ensures { (samples.new ≡ put (picked_by work.now (length samples.old)) samples.old)
        × (marks.new ≡ put (each mark (places (picked_by work.now (length samples.old)))) marks.old) }
{
    let n = samples.len();
    for place in 0..n {
        if work[n + place] != 0 {
            samples[place] = work[place];
            marks[place] = mark;
        }
    }
}
