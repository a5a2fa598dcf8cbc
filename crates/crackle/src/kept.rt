// A detector kept in lent words between calls, for callers that take numbers.
ghost use Rattle.std.specs.Prelude.{◌≡◌, [], ◌≤◌, length};
ghost use Rattle.std.proofs.lemmas.List.Edits.{sets};
ghost use Rattle.crackle.specs.Pieces.{told};
ghost use Rattle.crackle.specs.Kept.{head_words, running_word, start_word, start_of, head_of, detector_of, begin_kept, piece_kept, end_kept};
ghost use Rattle.crackle.specs.Inner.{head_after};

use super::{Detector, Heard, announce};
use decrackle::{MEAN_OVER, Start};
use leaves::words::{f32_of_word, word_of_f32};
use recording::{Answer, Reason};

// As many words are the detector itself, and as many belong to it with the values that it holds back; what lies behind
// them is never touched.
const HEAD_WORDS: usize = 8;

const STATE_WORDS: usize = HEAD_WORDS + MEAN_OVER;

// The word of a run that goes on; every other says that it does not.
const RUNNING: u32 = 1;

// The word of a floor that starts from the mean; every other says that it starts as it used to.
const FROM_MEAN: u32 = 1;

// The start that a word stands for.
fn start_of(word: u32) -> Start
    ensures { result ≡ start_of word }
{
    if word == FROM_MEAN {
        Start::Mean
    } else {
        Start::Old
    }
}

// The detector that the words hold.
fn read_detector(words: &[u32]) -> Detector
    requires { head_words ≤ length words.now }
    ensures { result ≡ detector_of words.now }
{
    Detector {
        start: start_of(words[7]),
        total: words[0],
        taken: words[1],
        running: words[2] == RUNNING,
        factor: f32_of_word(words[3]),
        floor: f32_of_word(words[4]),
        before: f32_of_word(words[5]),
        last: f32_of_word(words[6]),
    }
}

// The word of a run that goes on, or not.
fn running_word(running: bool) -> u32
    ensures { result ≡ running_word running }
{
    u32::from(running)
}

// The word of a start.
#[tactic(auto, unfolding(crate::specs::Kept::start_word))]
fn start_word(start: Start) -> u32
    ensures { result ≡ start_word start }
{
    match start {
        Start::Mean => FROM_MEAN,
        Start::Old => 0,
    }
}

// Writes the detector into the first words.
fn write_detector(detector: Detector, words: &mut [u32])
    requires { head_words ≤ length words.old }
    ensures { words.new ≡ sets words.old 0 (head_of detector) }
{
    words[0] = detector.total;
    words[1] = detector.taken;
    words[2] = running_word(detector.running);
    words[3] = word_of_f32(detector.factor);
    words[4] = word_of_f32(detector.floor);
    words[5] = word_of_f32(detector.before);
    words[6] = word_of_f32(detector.last);
    words[7] = start_word(detector.start);
}

// Keeps the detector that a call left, and hands its answer on; after refusal 6, which takes nothing in, the words
// stay as they are.
fn keep(heard: Heard, words: &mut [u32]) -> Answer
    requires { head_words ≤ length words.old }
    ensures { (result ≡ heard.answer) × (words.new ≡ head_after heard.answer heard.detector words.old) }
{
    if !matches!(heard.answer, Err(Reason::Workspace)) {
        write_detector(heard.detector, words);
    }
    heard.answer
}

// Begins a run and keeps its detector: refusals 6, for fewer words than it needs, 2 and 4, in this order,
// leave the words as they were.
pub fn begin(start: Start, total: usize, sensitivity: f32, words: &mut [u32]) -> Answer
    ensures { told result words.new [] ≡ begin_kept start total sensitivity words.old }
{
    if words.len() < STATE_WORDS {
        return Err(Reason::Workspace);
    }
    write_detector(announce(start, total, sensitivity)?, words);
    Ok(0)
}

// Gives the kept detector a piece: refusal 6 for fewer words than it needs, and else all is as of `piece`.
pub fn piece(words: &mut [u32], piece: &[u32], flags: &mut [u8]) -> Answer
    ensures { told result words.new flags.new ≡ piece_kept words.old piece.now flags.old }
{
    if words.len() < STATE_WORDS {
        return Err(Reason::Workspace);
    }
    let detector = read_detector(words);
    let heard = super::piece(detector, &mut words[HEAD_WORDS..], piece, flags);
    keep(heard, words)
}

// Ends the run of the kept detector: refusal 6 for fewer words than it needs, and else all is as of `finish`.
pub fn finish(words: &mut [u32], flags: &mut [u8]) -> Answer
    ensures { told result words.new flags.new ≡ end_kept words.old flags.old }
{
    if words.len() < STATE_WORDS {
        return Err(Reason::Workspace);
    }
    let detector = read_detector(words);
    let heard = super::finish(detector, &mut words[HEAD_WORDS..], flags);
    keep(heard, words)
}
