// The reader of a WAV file: refusals 19, 20, 2 and 21, or samples, marks and the rate.
ghost use Rattle.std.specs.Prelude.{◌≡◌, ◌+◌, ◌*◌, ◌≤◌, map, length};
ghost use Rattle.std.proofs.lemmas.List.Edits.{sets};
ghost use Rattle.wire.specs.Wire.{halves};
ghost use Rattle.riff.specs.Values.{sample_word};
ghost use Rattle.riff.specs.Chunks.{head_bytes};
ghost use Rattle.riff.specs.Wav.{whole, fmt_bytes, mono_pcm, heard, answer_of, rate_of, wav_read};
ghost use Rattle.riff.specs.Inner.{sound_in};

use super::chunks::{chunks_fill, first_named};
use super::value::sample_of;
use super::{DATA, FIRST_CHUNK, FMT, FMT_BYTES, HEAD_BYTES, PCM, RIFF, SAMPLE_BITS, WAVE, WavRead};
use recording::Reason;
use recording::clear::set_all;
use recording::marks::Mark;
use recording::open::MOST_SAMPLES;
use wire::{half_at, word_at};

// Whether the file is a whole RIFF WAVE file: its own size counts what follows it, and its chunks fill it.
#[tactic(auto, using(crate::proofs::Reading::too_short), unfolding(crate::specs::Wav::whole))]
fn is_whole(file: &[u8]) -> bool
    ensures { result ≡ whole file.now }
{
    file.len() >= FIRST_CHUNK
        && word_at(file, 0) == RIFF
        && word_at(file, 4) as usize == file.len() - 8
        && word_at(file, 8) == WAVE
        && chunks_fill(file)
}

// Finds where the format and the data begin. Refusal 19 is given where the file is no whole WAVE file with the one
// before the other and data of an even length.
#[tactic(auto, using(crate::proofs::Reading::walk_of_whole), unfolding(crate::specs::Inner::sound_in, crate::specs::Wav::is_wave))]
fn find_sound(file: &[u8]) -> Result<(usize, usize), Reason>
    ensures { result ≡ sound_in file.now }
{
    if !is_whole(file) {
        return Err(Reason::Wave);
    }
    let format = first_named(file, FMT, FMT_BYTES);
    let data = first_named(file, DATA, 0);
    if data <= format || file.len() <= data || word_at(file, data + 4) % 2 != 0 {
        return Err(Reason::Wave);
    }
    Ok((format, data))
}

// Whether the fmt chunk that begins at byte i says mono 16-bit PCM.
#[tactic(auto, unfolding(crate::specs::Wav::mono_pcm))]
fn is_mono_pcm(file: &[u8], i: usize) -> bool
    requires { i + head_bytes + fmt_bytes ≤ length file.now }
    ensures { result ≡ mono_pcm file.now i }
{
    half_at(file, i + HEAD_BYTES) == PCM
        && half_at(file, i + HEAD_BYTES + 2) == 1
        && half_at(file, i + HEAD_BYTES + 14) == SAMPLE_BITS
}

// Stores the samples of `count` values, whose bytes begin at `from`, in the first places; the others stay.
fn store_samples(file: &[u8], from: usize, samples: &mut [u32], count: usize)
    requires { (from + 2 * count ≤ length file.now) × (count ≤ length samples.old) }
    ensures { samples.new ≡ sets samples.old 0 (map sample_word (halves file.now from count)) }
{
    for i in 0..count {
        samples[i] = sample_of(half_at(file, from + 2 * i));
    }
}

// Reads a WAV file into samples and marks: refusals 19, 20, 2 and 21, in this order, with nothing written, or
// the samples stand in the first places of their room with marks that say measured. What lies behind stays.
pub fn read_wav(file: &[u8], samples: &mut [u32], marks: &mut [u8]) -> Result<WavRead, Reason>
    ensures { heard (answer_of result) (rate_of result) samples.new marks.new
        ≡ wav_read file.now samples.old marks.old }
{
    let (format, data) = find_sound(file)?;
    if !is_mono_pcm(file, format) {
        return Err(Reason::Coding);
    }
    let n = word_at(file, data + 4) as usize / 2;
    if MOST_SAMPLES < n {
        return Err(Reason::TooMany);
    }
    if samples.len() < n || marks.len() < n {
        return Err(Reason::Output);
    }
    store_samples(file, data + HEAD_BYTES, samples, n);
    set_all(marks, 0, n, Mark::Measured.byte());
    Ok(WavRead {
        samples: n,
        rate: word_at(file, format + HEAD_BYTES + 4),
    })
}
