// The static library: what a C or Rust program calls, each function a thin step over the proved one
// of a crate below. None asks anything of its argument. Names begin with the crate's, since a name
// is the whole program's, as in C.
#![tactic(auto)]

ghost use Rattle.std.specs.Prelude.{◌≡◌, [], ◌∷◌, length};
ghost use Rattle.leaves.specs.Floats.{narrowed, rounded};
ghost use Rattle.leaves.specs.Root.{Rooted};
ghost use Rattle.cathar.specs.Calls.{gap, gaps, answers_of, scan, declip, decrackle, dequantize, cosparse, proposed, undo};
ghost use Rattle.cathar.specs.Calls.{none, doubles, words, outcome, ran};
ghost use Rattle.cathar.specs.Calls.{as_measured, as_received, opening, frames_told, told_of, span_told, span_told_of};
ghost use Rattle.cathar.specs.Calls.{crackle_told, begun_told, heard_told, settings_told, settings_told_of, wav_told_of, wav_wrote, wav_wrote_of};
ghost use Rattle.crackle.specs.Kept.{begin_kept, piece_kept, end_kept};
ghost use Rattle.decrackle.specs.declared.Start.TheVariants.{Mean, Old};
ghost use Rattle.frames.specs.Frames.{frames_read};
ghost use Rattle.inpaint.specs.Order.{gap_order, scan_orders};
ghost use Rattle.splice.specs.Several.{answers_lent, answers_left};
ghost use Rattle.recording.specs.Lent.{left, lent, left_reading, lent_reading};
ghost use Rattle.recording.specs.Answers.{number, value};
ghost use Rattle.recording.specs.Question.{span_verdict};
ghost use Rattle.riff.specs.Wav.{wav_read, wav_written};
ghost use Rattle.settings.specs.Settings.{read_to, read_to_v1, write_from, write_from_v1};

use decrackle::Start;
use dequant::cosparse::dequantize_cosparse;
use dequant::passes::dequantize;
use inpaint::auto::inpaint_auto;
use inpaint::gap::inpaint_gap;
use inpaint::{answer_of, order_of};
use recording::numbers::{number_of, value_of, verdict_yes};
use recording::{Answer, Recording};

// What an answer tells a caller that takes numbers: its number, and beside it its value.
fn tell(answer: Answer, beside: &mut usize) -> u32
    ensures { (result ≡ number answer) × (beside.new ≡ value answer) }
{
    *beside = value_of(answer);
    number_of(answer)
}

// Opens a recording: all marks, all counts and all journal words become 0, and used too. The number of the
// refusal, 1, 14 or 2, or 0.
#[unsafe(no_mangle)]
pub extern "C" fn cathar_open(
    samples: &[u32],
    marks: &mut [u8],
    counts: &mut [u16],
    journal: &mut [u32],
    used: &mut usize,
) -> u32
    ensures { outcome result [] (left_reading samples marks counts journal used) none ≡ opening as_measured (lent_reading samples marks counts journal used) }
{
    number_of(recording::open::open(samples, marks, counts, journal, used))
}

// Opens a recording as the bus's frames left it: mark 6, not received, stays where it stands, and every
// other mark becomes 0; each count becomes the number of marks of its block that stay. Journal, used and the
// answer as of `cathar_open`.
#[unsafe(no_mangle)]
pub extern "C" fn cathar_open_received(
    samples: &[u32],
    marks: &mut [u8],
    counts: &mut [u16],
    journal: &mut [u32],
    used: &mut usize,
) -> u32
    ensures { outcome result [] (left_reading samples marks counts journal used) none ≡ opening as_received (lent_reading samples marks counts journal used) }
{
    number_of(recording::open::open_received(samples, marks, counts, journal, used))
}

// Reads the bus's frames into samples and marks. The number of the refusal, 2 or 12, or 0; n becomes the
// number of samples, missing and dropped those of frames not received and of frames late or repeated,
// and all three 0 where the frames are refused.
#[unsafe(no_mangle)]
pub extern "C" fn cathar_read_frames(
    frames: &[u8],
    samples: &mut [u32],
    marks: &mut [u8],
    n: &mut usize,
    missing: &mut usize,
    dropped: &mut usize,
) -> u32
    ensures { frames_told result (n.new ∷ missing.new ∷ dropped.new ∷ []) samples.new marks.new
        ≡ told_of (frames_read frames.now samples.old marks.old) }
{
    match frames::read_frames(frames, samples, marks) {
        Ok(read) => {
            *missing = read.missing;
            *dropped = read.dropped;
            tell(Ok(read.samples), n)
        }
        Err(why) => {
            *missing = 0;
            *dropped = 0;
            tell(Err(why), n)
        }
    }
}

// Repairs the gap of `len` samples from `start` on, by the model or, where it is longer than 2048, by
// straight line. The number of the refusal, 1 to 3, 5 to 9 or 14, or 0; value becomes len, the place for 7
// and 8, and 0 for the other refusals; order the highest order that the model used, and 0 for a straight line
// and for every refusal. Every number of passes gives the same.
#[unsafe(no_mangle)]
pub extern "C" fn cathar_inpaint_gap(
    samples: &mut [u32],
    marks: &mut [u8],
    counts: &mut [u16],
    journal: &mut [u32],
    used: &mut usize,
    start: usize,
    len: usize,
    passes: u32,
    work: &mut [f64],
    value: &mut usize,
    order: &mut u32,
) -> u32
    ensures { (outcome result (value.new ∷ []) (left samples marks counts journal used) (doubles work.new)
        ≡ ran (gap start len passes work.old) (lent samples marks counts journal used))
        × (order.new ≡ gap_order start len passes (length work.old) (lent samples marks counts journal used)) }
{
    let mut recording = Recording {
        samples,
        marks,
        counts,
        journal,
        used,
    };
    let filled = inpaint_gap(&mut recording, start, len, passes, work);
    *order = order_of(filled);
    tell(answer_of(filled), value)
}

// Repairs up to 64 gaps in the order given, each as `cathar_inpaint_gap` does, on what the ones before it left,
// with its answer, value and order in its own place of the lists. 0; or 4 for more than 64 gaps or lists that
// differ in length, with nothing done and no answer written.
#[unsafe(no_mangle)]
pub extern "C" fn cathar_inpaint_gaps(
    samples: &mut [u32],
    marks: &mut [u8],
    counts: &mut [u16],
    journal: &mut [u32],
    used: &mut usize,
    starts: &[usize],
    lens: &[usize],
    passes: u32,
    work: &mut [f64],
    numbers: &mut [u32],
    values: &mut [usize],
    orders: &mut [u32],
) -> u32
    ensures { (outcome result [] (left samples marks counts journal used) (doubles work.new)
        ≡ ran (gaps starts.now lens.now passes work.old (answers_lent numbers values orders))
        (lent samples marks counts journal used))
        × (answers_left numbers values orders
        ≡ answers_of starts.now lens.now passes work.old (answers_lent numbers values orders)
        (lent samples marks counts journal used)) }
{
    let mut recording = Recording {
        samples,
        marks,
        counts,
        journal,
        used,
    };
    number_of(splice::inpaint_gaps(
        &mut recording,
        starts,
        lens,
        passes,
        work,
        numbers,
        values,
        orders,
    ))
}

// Finds the dropout runs of at most `millis` milliseconds and repairs each as one gap; equal words are such a
// run from `held` of them on, which is 2 to 4,096. The number of the first refusal, or 0; qualified and repaired
// become the numbers of such runs, and 0 where the scan itself is refused, with 1 to 4 or 14. At each place of
// `orders` where a sample was repaired by the model the order of that model comes to stand, and every other
// place stays.
#[unsafe(no_mangle)]
pub extern "C" fn cathar_inpaint_auto(
    samples: &mut [u32],
    marks: &mut [u8],
    counts: &mut [u16],
    journal: &mut [u32],
    used: &mut usize,
    rate: u32,
    millis: f32,
    held: u32,
    work: &mut [f64],
    orders: &mut [u32],
    qualified: &mut usize,
    repaired: &mut usize,
) -> u32
    ensures { (outcome result (qualified.new ∷ repaired.new ∷ []) (left samples marks counts journal used) (doubles work.new)
        ≡ ran (scan rate millis held work.old) (lent samples marks counts journal used))
        × (orders.new ≡ scan_orders rate millis held work.old (lent samples marks counts journal used) orders.old) }
{
    let mut recording = Recording {
        samples,
        marks,
        counts,
        journal,
        used,
    };
    let scanned = inpaint_auto(&mut recording, rate, millis, held, work, orders);
    *qualified = scanned.qualified;
    *repaired = scanned.repaired;
    scanned.refused_number()
}

// Bridges the runs of samples whose magnitude is at or above the threshold, shoulders included. The number
// of the refusal, 1 to 4, 6 to 9 or 14, or 0; value becomes the number of named samples, the place for 7 and 8,
// and 0 for the other refusals.
#[unsafe(no_mangle)]
pub extern "C" fn cathar_declip(
    samples: &mut [u32],
    marks: &mut [u8],
    counts: &mut [u16],
    journal: &mut [u32],
    used: &mut usize,
    threshold: f32,
    work: &mut [u32],
    value: &mut usize,
) -> u32
    ensures { outcome result (value.new ∷ []) (left samples marks counts journal used) (words work.new)
        ≡ ran (declip threshold work.old) (lent samples marks counts journal used) }
{
    let mut recording = Recording {
        samples,
        marks,
        counts,
        journal,
        used,
    };
    tell(declip::declip(&mut recording, threshold, work), value)
}

// Rewrites the samples that stand out from their neighbours, by a floor that starts from the mean. Answer and value
// as of `cathar_declip`.
#[unsafe(no_mangle)]
pub extern "C" fn cathar_decrackle(
    samples: &mut [u32],
    marks: &mut [u8],
    counts: &mut [u16],
    journal: &mut [u32],
    used: &mut usize,
    sensitivity: f32,
    work: &mut [u32],
    value: &mut usize,
) -> u32
    ensures { outcome result (value.new ∷ []) (left samples marks counts journal used) (words work.new)
        ≡ ran (decrackle Mean sensitivity work.old) (lent samples marks counts journal used) }
{
    let mut recording = Recording {
        samples,
        marks,
        counts,
        journal,
        used,
    };
    tell(
        decrackle::decrackle(&mut recording, sensitivity, Start::Mean, work),
        value,
    )
}

// The same by a floor that starts at 1e-6, as it used to: for old cases.
#[unsafe(no_mangle)]
pub extern "C" fn cathar_decrackle_old_start(
    samples: &mut [u32],
    marks: &mut [u8],
    counts: &mut [u16],
    journal: &mut [u32],
    used: &mut usize,
    sensitivity: f32,
    work: &mut [u32],
    value: &mut usize,
) -> u32
    ensures { outcome result (value.new ∷ []) (left samples marks counts journal used) (words work.new)
        ≡ ran (decrackle Old sensitivity work.old) (lent samples marks counts journal used) }
{
    let mut recording = Recording {
        samples,
        marks,
        counts,
        journal,
        used,
    };
    tell(
        decrackle::decrackle(&mut recording, sensitivity, Start::Old, work),
        value,
    )
}

// Moves samples that were recorded in coarse steps toward what their neighbours predict. Answer and value
// as of `cathar_declip`.
#[unsafe(no_mangle)]
pub extern "C" fn cathar_dequantize(
    samples: &mut [u32],
    marks: &mut [u8],
    counts: &mut [u16],
    journal: &mut [u32],
    used: &mut usize,
    bits: u32,
    strength: f32,
    work: &mut [u32],
    value: &mut usize,
) -> u32
    ensures { outcome result (value.new ∷ []) (left samples marks counts journal used) (words work.new)
        ≡ ran (dequantize bits strength work.old) (lent samples marks counts journal used) }
{
    let mut recording = Recording {
        samples,
        marks,
        counts,
        journal,
        used,
    };
    tell(dequantize(&mut recording, bits, strength, work), value)
}

// The same in up to 16 iterations, with two samples at either end left alone. Answer and value as of
// `cathar_declip`.
#[unsafe(no_mangle)]
pub extern "C" fn cathar_dequantize_cosparse(
    samples: &mut [u32],
    marks: &mut [u8],
    counts: &mut [u16],
    journal: &mut [u32],
    used: &mut usize,
    bits: u32,
    strength: f32,
    iterations: u32,
    work: &mut [u32],
    value: &mut usize,
) -> u32
    ensures { outcome result (value.new ∷ []) (left samples marks counts journal used) (words work.new)
        ≡ ran (cosparse bits strength iterations work.old) (lent samples marks counts journal used) }
{
    let mut recording = Recording {
        samples,
        marks,
        counts,
        journal,
        used,
    };
    tell(
        dequantize_cosparse(&mut recording, bits, strength, iterations, work),
        value,
    )
}

// Takes another program's proposal for the samples whose magnitude is at or above the threshold, where every
// word of it keeps to the rule. The number of the refusal, 1 to 4, 7, 9, 14 or 15, or 0; value becomes the
// number of named samples, the place for 7 and 15, and 0 for the other refusals.
#[unsafe(no_mangle)]
pub extern "C" fn cathar_declip_proposed(
    samples: &mut [u32],
    marks: &mut [u8],
    counts: &mut [u16],
    journal: &mut [u32],
    used: &mut usize,
    threshold: f32,
    proposal: &[u32],
    value: &mut usize,
) -> u32
    ensures { outcome result (value.new ∷ []) (left samples marks counts journal used) none
        ≡ ran (proposed threshold proposal.now) (lent samples marks counts journal used) }
{
    let mut recording = Recording {
        samples,
        marks,
        counts,
        journal,
        used,
    };
    tell(
        proposed::declip_proposed(&mut recording, threshold, proposal),
        value,
    )
}

// Takes back the last entry of the journal. The number of the refusal, 1, 2, 3, 10, 11 or 14, or 0; value
// becomes the number of samples that got their word and mark back, and 0 where the call is refused.
#[unsafe(no_mangle)]
pub extern "C" fn cathar_undo(
    samples: &mut [u32],
    marks: &mut [u8],
    counts: &mut [u16],
    journal: &mut [u32],
    used: &mut usize,
    value: &mut usize,
) -> u32
    ensures { outcome result (value.new ∷ []) (left samples marks counts journal used) none
        ≡ ran undo (lent samples marks counts journal used) }
{
    let mut recording = Recording {
        samples,
        marks,
        counts,
        journal,
        used,
    };
    tell(recording.undo(), value)
}

// Whether every sample of the span of `len` samples from `start` on is measured, from marks and counts. The
// number of the refusal, 14 or 5, or 0; yes becomes 1 where every mark of the span is 0, and else 0, also
// where the question is refused. The counts are to be those that the calls on the recording left: the
// blocks between the two that the span's ends fall in are judged by them.
#[unsafe(no_mangle)]
pub extern "C" fn cathar_measured(
    marks: &[u8],
    counts: &[u16],
    start: usize,
    len: usize,
    yes: &mut u32,
) -> u32
    ensures { span_told result yes.new ≡ span_told_of (span_verdict marks.now counts.now start len) }
{
    let verdict = recording::question::measured(marks, counts, start, len);
    *yes = verdict_yes(verdict);
    number_of(verdict)
}

// Announces a recording of so many samples to the crackle detector, whose floor starts from the mean, and which is
// kept in the first 1,032 words of state. The number of the refusal, 6 for fewer words, 2 or 4, or 0; a refusal leaves
// the words as they were.
#[unsafe(no_mangle)]
pub extern "C" fn cathar_crackle_begin(total: usize, sensitivity: f32, state: &mut [u32]) -> u32
    ensures { crackle_told result [] state.new [] ≡ begun_told (begin_kept Mean total sensitivity state.old) }
{
    number_of(crackle::kept::begin(Start::Mean, total, sensitivity, state))
}

// The same with a floor that starts at 1e-6, as it used to: for old cases.
#[unsafe(no_mangle)]
pub extern "C" fn cathar_crackle_begin_old_start(
    total: usize,
    sensitivity: f32,
    state: &mut [u32],
) -> u32
    ensures { crackle_told result [] state.new [] ≡ begun_told (begin_kept Old total sensitivity state.old) }
{
    number_of(crackle::kept::begin(Start::Old, total, sensitivity, state))
}

// Gives the crackle detector the next samples, and writes the flags that this brings: each sample brings that of the
// one before it, but from the mean none comes before 1,024 are known. The number of the refusal, 13, 6 or 7, or 0;
// value becomes how many flags were written, the place in the whole for 7, and 0 for the other refusals.
#[unsafe(no_mangle)]
pub extern "C" fn cathar_crackle_piece(
    state: &mut [u32],
    piece: &[u32],
    flags: &mut [u8],
    value: &mut usize,
) -> u32
    ensures { crackle_told result (value.new ∷ []) state.new flags.new
        ≡ heard_told (piece_kept state.old piece.now flags.old) }
{
    tell(crackle::kept::piece(state, piece, flags), value)
}

// Ends the run of the crackle detector, and writes the flags that are left, none where no sample was announced. The
// number of the refusal, 13 or 6, or 0; value becomes how many flags were written, and 0 for a refusal.
#[unsafe(no_mangle)]
pub extern "C" fn cathar_crackle_end(state: &mut [u32], flags: &mut [u8], value: &mut usize) -> u32
    ensures { crackle_told result (value.new ∷ []) state.new flags.new
        ≡ heard_told (end_kept state.old flags.old) }
{
    tell(crackle::kept::finish(state, flags), value)
}

// Reads a stored block of settings of version 1 or 2: seven words, floats as their patterns, in the first places of
// `settings`; a block of version 1 gets the held run's length 16. The number of the refusal, 6, 17 or 18, with
// nothing written, or 0.
#[unsafe(no_mangle)]
pub extern "C" fn cathar_read_settings(block: &[u8], settings: &mut [u32]) -> u32
    ensures { settings_told result settings.new ≡ settings_told_of (read_to block.now settings.old) }
{
    number_of(settings::read::read_to(block, settings))
}

// The version 1 reader, which turns a block of version 2 away with 17: six words. Answers as of
// `cathar_read_settings`.
#[unsafe(no_mangle)]
pub extern "C" fn cathar_read_settings_v1(block: &[u8], settings: &mut [u32]) -> u32
    ensures { settings_told result settings.new ≡ settings_told_of (read_to_v1 block.now settings.old) }
{
    number_of(settings::read::read_to_v1(block, settings))
}

// Writes the first seven words as a stored block of version 2 in the first 120 bytes. The number of the refusal, 6 or
// 18, with nothing written, or 0.
#[unsafe(no_mangle)]
pub extern "C" fn cathar_write_settings(settings: &[u32], block: &mut [u8]) -> u32
    ensures { settings_told result block.new ≡ settings_told_of (write_from settings.now block.old) }
{
    number_of(settings::write::write_from(settings, block))
}

// Writes the first six words as a stored block of version 1 in the first 104 bytes. Answers as of
// `cathar_write_settings`.
#[unsafe(no_mangle)]
pub extern "C" fn cathar_write_settings_v1(settings: &[u32], block: &mut [u8]) -> u32
    ensures { settings_told result block.new ≡ settings_told_of (write_from_v1 settings.now block.old) }
{
    number_of(settings::write::write_from_v1(settings, block))
}

// Reads a WAV file of mono 16-bit PCM into samples and marks. The number of the refusal, 19, 20, 2 or 21, with nothing
// written, or 0; n becomes the number of samples and rate the file's rate, and both 0 where the file is refused.
#[unsafe(no_mangle)]
pub extern "C" fn cathar_read_wav(
    file: &[u8],
    samples: &mut [u32],
    marks: &mut [u8],
    n: &mut usize,
    rate: &mut u32,
) -> u32
    ensures { frames_told result (n.new ∷ rate.new ∷ []) samples.new marks.new
        ≡ wav_told_of (wav_read file.now samples.old marks.old) }
{
    match riff::read::read_wav(file, samples, marks) {
        Ok(read) => {
            *rate = read.rate;
            tell(Ok(read.samples), n)
        }
        Err(why) => {
            *rate = 0;
            tell(Err(why), n)
        }
    }
}

// Writes samples as a WAV file at this rate in the first bytes of `out`. The number of the refusal, 2, 7 or 21, with
// nothing written, or 0; value becomes how many bytes were written, the place for 7, and 0 for the other refusals.
#[unsafe(no_mangle)]
pub extern "C" fn cathar_write_wav(
    samples: &[u32],
    rate: u32,
    out: &mut [u8],
    value: &mut usize,
) -> u32
    ensures { wav_wrote result value.new out.new ≡ wav_wrote_of (wav_written samples.now rate out.old) }
{
    tell(riff::write::write_wav(samples, rate, out), value)
}

// IEEE 754's square root, correctly rounded: a NaN and a number below zero give a NaN, a zero of
// either sign and plus infinity themselves.
#[unsafe(no_mangle)]
pub extern "C" fn cathar_sqrt(x: f64) -> f64
    ensures { Rooted x result }
{
    leaves::root::square_root(x)
}

// The f32 nearest to x, of two as near the even one; a NaN stays one, and the sign of a zero or of an
// infinity is kept.
#[unsafe(no_mangle)]
pub extern "C" fn cathar_narrow(x: f64) -> f32
    ensures { result ≡ narrowed x }
{
    leaves::narrow::narrow(x)
}

// x to the nearest whole number, halves away from zero; a NaN stays one, an infinity and a zero of
// either sign give themselves.
#[unsafe(no_mangle)]
pub extern "C" fn cathar_round(x: f32) -> f32
    ensures { result ≡ rounded x }
{
    leaves::whole::round_to_whole(x)
}
