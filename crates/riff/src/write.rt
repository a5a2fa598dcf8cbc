// The writer of a WAV file: refusals 2, 7 and 21, or the file.
ghost use Rattle.std.specs.Prelude.{◌≡◌, ℕ, ◌+◌, ◌*◌, ◌<◌, ◌≤◌, true, map, length, slice_index};
ghost use Rattle.std.proofs.lemmas.List.Edits.{sets};
ghost use Rattle.leaves.specs.Floats.{in_range};
ghost use Rattle.wire.specs.Wire.{encoded, encoded_halves};
ghost use Rattle.recording.specs.Recording.{most_samples};
ghost use Rattle.riff.specs.Values.{value_of};
ghost use Rattle.riff.specs.Wav.{head, wav_bytes, written, wav_written};

use super::value::value_of;
use super::{DATA, FMT, FMT_BYTES, RIFF, WAVE};
use recording::open::MOST_SAMPLES;
use recording::read::check_words;
use recording::{Answer, Reason};
use wire::{encode, store_half};

// The bytes before the first sample, and those of them that the RIFF size counts.
const HEADER_BYTES: usize = 44;

const COUNTED_BYTES: u32 = 36;

// Two numbers of 16 bits each, the first in the lower half: PCM and one channel; two bytes for each sample, and
// its 16 bits.
const PCM_MONO: u32 = 0x0001_0001;

const BLOCK_AND_BITS: u32 = 0x0010_0002;

// Writes what stands before n samples at this rate, in the first bytes; the others stay. The bytes of a second
// are twice the rate, as far as 32 bits hold it.
fn write_head(out: &mut [u8], rate: u32, n: usize)
    requires { (n ≤ most_samples) × (wav_bytes n ≤ length out.old) }
    ensures { out.new ≡ sets out.old 0 (encoded (head rate n)) }
{
    let bytes = 2 * n as u32;
    let words = [
        RIFF,
        COUNTED_BYTES + bytes,
        WAVE,
        FMT,
        FMT_BYTES,
        PCM_MONO,
        rate,
        std::num::wrapping_add_u32(rate, rate),
        BLOCK_AND_BITS,
        DATA,
        bytes,
    ];
    encode(&words, out, 0);
}

// Writes the values of samples, all of them in range, behind that; the other bytes stay.
fn write_values(samples: &[u32], out: &mut [u8])
    requires { (wav_bytes (length samples.now) ≤ length out.old)
        × ((i : ℕ) → i < length samples.now → in_range (slice_index samples.now i) ≡ true) }
    ensures { out.new ≡ sets out.old 44 (encoded_halves (map value_of samples.now)) }
{
    for i in 0..samples.len() {
        store_half(out, HEADER_BYTES + 2 * i, value_of(samples[i]));
    }
}

// Writes samples as a WAV file at this rate, with its number of bytes as the answer; or refusals 2, 7 and 21, in
// this order, with nothing written. Bytes behind the file stay.
pub fn write_wav(samples: &[u32], rate: u32, out: &mut [u8]) -> Answer
    ensures { written result out.new ≡ wav_written samples.now rate out.old }
{
    if MOST_SAMPLES < samples.len() {
        return Err(Reason::TooMany);
    }
    check_words(samples, 0)?;
    let n = samples.len();
    let bytes = HEADER_BYTES + 2 * n;
    if out.len() < bytes {
        return Err(Reason::Output);
    }
    write_head(out, rate, n);
    write_values(samples, out);
    Ok(bytes)
}
