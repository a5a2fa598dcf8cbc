// Samples of 16 bits and samples as words. A value of 16 bits is below zero from 32,768 on, where it is that
// much below 65,536.
ghost use Rattle.std.specs.Prelude.{◌≡◌, true};
ghost use Rattle.leaves.specs.Floats.{in_range};
ghost use Rattle.riff.specs.Values.{sample_word, value_of};

use leaves::order::clamp;
use leaves::whole::round_to_whole;
use leaves::words::{f32_of_word, word_of_f32};

// So many values there are, and from which on they are below zero.
const VALUES: u32 = 65_536;

const BELOW_ZERO: u16 = 32_768;

// What a sample is multiplied by, and the two ends that the product is held to.
const SCALE: f32 = 32768.0;

const LEAST: f32 = -32768.0;

const MOST: f32 = 32767.0;

// The word of a value's sample, the value over 32,768. An f32 holds the value, and the quotient too, since that
// only moves the exponent.
pub fn sample_of(value: u16) -> u32
    ensures { result ≡ sample_word value }
{
    if value < BELOW_ZERO {
        word_of_f32(std::num::nearest_u32_to_f32(value as u32) / SCALE)
    } else {
        word_of_f32(-(std::num::nearest_u32_to_f32(VALUES - value as u32) / SCALE))
    }
}

// The value of a sample that is in range: the sample times 32,768, to whole, halves away from zero, held to what
// 16 bits have.
pub fn value_of(word: u32) -> u16
    requires { in_range word ≡ true }
    ensures { result ≡ value_of word }
{
    let whole = clamp(round_to_whole(f32_of_word(word) * SCALE), LEAST, MOST);
    if whole < 0.0 {
        (VALUES as u64 - std::num::truncating_f32_to_u64(-whole)) as u16
    } else {
        std::num::truncating_f32_to_u64(whole) as u16
    }
}
