// Declip proposed by another program. What it proposes is not trusted: every word of it is looked at before
// one is taken, so that no method, however wrong, can change a sample under the threshold or move a clipped
// one to where the pump cannot have been.
#![tactic(auto)]

ghost use Rattle.std.specs.Prelude.{◌≡◌, ◌+◌, ◌*◌, ◌≤◌, length};
ghost use Rattle.std.proofs.lemmas.List.Edits.{sets};
ghost use Rattle.recording.specs.Recording.{ended, most_samples, places, put, each, saved, three_words, entered};
ghost use Rattle.recording.specs.Marks.{declip_proposed};
ghost use Rattle.recording.specs.Lent.{held, SameMemory};
ghost use Rattle.recording.specs.Inner.{Fits};
ghost use Rattle.proposed.specs.Proposed.{keeps_bits, answered_above, answered_below, answers, taken, named, proposed_repair};
ghost use Rattle.proposed.specs.Inner.{checked, clipped_places};

use declip::{is_clipped, threshold_allowed};
use leaves::words::{f32_of_word, in_range};
use recording::commit::{save, seal};
use recording::counts::recount;
use recording::marks::Mark;
use recording::read::check_words;
use recording::{Answer, Reason, Recording};

// Whether a sample under the threshold keeps its bits; of any other sample nothing is asked here.
fn keeps_bits(threshold: f32, word: u32, proposed: u32) -> bool
    ensures { result ≡ keeps_bits threshold word proposed }
{
    is_clipped(threshold, word) || proposed == word
}

// Whether a sample at or above the threshold is answered by one in range that is, too; of any other
// nothing is asked here.
fn answered_above(threshold: f32, word: u32, proposed: u32) -> bool
    ensures { result ≡ answered_above threshold word proposed }
{
    !(threshold <= f32_of_word(word)) || in_range(proposed) && threshold <= f32_of_word(proposed)
}

// The same of a sample at or below the negative threshold.
fn answered_below(threshold: f32, word: u32, proposed: u32) -> bool
    ensures { result ≡ answered_below threshold word proposed }
{
    !(f32_of_word(word) <= -threshold) || in_range(proposed) && f32_of_word(proposed) <= -threshold
}

// Whether a proposed word keeps to the rule for its sample.
fn is_answered(threshold: f32, word: u32, proposed: u32) -> bool
    ensures { result ≡ answers threshold word proposed }
{
    keeps_bits(threshold, word, proposed)
        && answered_above(threshold, word, proposed)
        && answered_below(threshold, word, proposed)
}

// Refusal 15: for a proposal of another length, or for the first place at which it breaks the rule, which
// is the lowest; accepted, with 0, where it keeps to it at all places.
fn check_proposal(samples: &[u32], proposal: &[u32], threshold: f32) -> Answer
    ensures { result ≡ taken threshold samples.now proposal.now }
{
    if proposal.len() != samples.len() {
        return Err(Reason::Proposal(0));
    }
    for i in 0..samples.len() {
        if !is_answered(threshold, samples[i], proposal[i]) {
            return Err(Reason::Proposal(i));
        }
    }
    Ok(0)
}

// Refusals 1, 14, 2, 3, 4, 7 and 15, in this order; accepted, with 0, where none of them applies.
fn check_call(recording: &Recording, threshold: f32, proposal: &[u32]) -> Answer
    ensures { result ≡ checked threshold proposal.now (held recording.now) }
{
    recording.check_sizes()?;
    if !threshold_allowed(threshold) {
        return Err(Reason::Setting);
    }
    check_words(recording.samples, 0)?;
    check_proposal(recording.samples, proposal, threshold)
}

// The next three walk the clipped samples as `Recording::commit_picked` walks those that a workspace names. One walk
// for both is no plainer: here the test reads the samples that the walk writes, which no closure can hold meanwhile.

// How many samples are clipped.
fn count_clipped(recording: &Recording, threshold: f32) -> usize
    ensures { result ≡ length (clipped_places threshold 0 recording.now.samples.now) }
{
    let samples = &*recording.samples;
    let mut m: usize = 0;
    for i in 0..samples.len() {
        if is_clipped(threshold, samples[i]) {
            m += 1;
        }
    }
    m
}

// Saves the clipped samples, from journal word `at` on.
fn save_clipped(samples: &[u32], marks: &[u8], journal: &mut [u32], at: usize, threshold: f32)
    requires { (at + 3 * length (clipped_places threshold 0 samples.now) ≤ length journal.old)
        × (length marks.now ≡ length samples.now) × (length samples.now ≤ most_samples) }
    ensures { journal.new
        ≡ sets journal.old at
        (three_words (saved samples.now marks.now (clipped_places threshold 0 samples.now))) }
{
    let mut next = at;
    for i in 0..samples.len() {
        if is_clipped(threshold, samples[i]) {
            save(samples, marks, journal, next, i);
            next += 3;
        }
    }
}

// Writes the proposal's word and the mark at each clipped sample. A sample is tested before its own word is
// written, and so as it stood when the call began.
fn write_clipped(samples: &mut [u32], marks: &mut [u8], proposal: &[u32], threshold: f32)
    requires { (length proposal.now ≡ length samples.old) × (length marks.old ≡ length samples.old) }
    ensures { (samples.new ≡ put (named threshold samples.old proposal.now) samples.old)
        × (marks.new
        ≡ put (each declip_proposed (places (named threshold samples.old proposal.now))) marks.old) }
{
    for i in 0..samples.len() {
        if is_clipped(threshold, samples[i]) {
            samples[i] = proposal[i];
            marks[i] = Mark::DeclipProposed as u8;
        }
    }
}

// Commits a proposal that keeps to the rule: refusal 9, and else the entry, the words, the marks and the
// counts. What it names is saved before anything is written.
fn commit_proposal(recording: &mut Recording, threshold: f32, proposal: &[u32]) -> Answer
    requires { Fits (held recording.old) × (length proposal.now ≡ length recording.old.samples.now) }
    ensures memory { SameMemory recording.old recording.new }
    ensures rule { ended result (held recording.new)
        ≡ entered (held recording.old) declip_proposed (named threshold recording.old.samples.now proposal.now) }
{
    let m = count_clipped(recording, threshold);
    if m == 0 {
        return Ok(0);
    }
    let at = *recording.used;
    if recording.journal.len() - at < 3 * m + 2 {
        return Err(Reason::Room);
    }
    let samples = &mut *recording.samples;
    let marks = &mut *recording.marks;
    let counts = &mut *recording.counts;
    let journal = &mut *recording.journal;
    let used = &mut *recording.used;
    save_clipped(samples, marks, journal, at, threshold);
    write_clipped(samples, marks, proposal, threshold);
    recount(marks, counts, journal, at, m);
    seal(journal, used, m, Mark::DeclipProposed as u8);
    Ok(m)
}

// Takes a proposal for the clipped samples, as many words as there are samples, where it keeps to the rule at
// every place, or refuses and changes nothing.
pub fn declip_proposed(recording: &mut Recording, threshold: f32, proposal: &[u32]) -> Answer
    ensures memory { SameMemory recording.old recording.new }
    ensures rule { ended result (held recording.new) ≡ proposed_repair threshold proposal.now (held recording.old) }
{
    check_call(recording, threshold, proposal)?;
    commit_proposal(recording, threshold, proposal)
}
