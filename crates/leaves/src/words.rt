// Words and floats: the float that a bit pattern stands for, the pattern of a float, a float at the
// wider format, and whether a sample is in range.
ghost use Rattle.std.specs.Prelude.{◌≡◌, ◌≤◌, from_bits, to_bits};
ghost use Rattle.std.specs.Float.{binary32, binary64};
ghost use Rattle.leaves.specs.Arithmetic.{count};
ghost use Rattle.leaves.specs.Floats.{in_range};

// What each format needs stands once for each: a generic word would be no plainer, since its arithmetic
// would have to come from a trait, and every caller works with one format's word and its constants.

// A pattern has the sign on top, then the exponent's field, then the digits below the leading one. The
// weight of the sign in it, of an f32 and of an f64.
pub const SIGN32: u32 = 0x8000_0000;

pub const SIGN64: u64 = 0x8000_0000_0000_0000;

// The weight of the exponent's field, 2 ^ 23 and 2 ^ 52, which is the leading digit's too.
pub const FIELD32: u32 = 0x80_0000;

pub const FIELD64: u64 = 0x10_0000_0000_0000;

// The pattern of plus infinity: the field is all ones, and there are no digits.
pub const INFINITY32: u32 = 0x7f80_0000;

pub const INFINITY64: u64 = 0x7ff0_0000_0000_0000;

// The pattern that is given for the NaN: the field is all ones, and so is the highest of the digits.
pub const NAN32: u32 = 0x7fc0_0000;

pub const NAN64: u64 = 0x7ff8_0000_0000_0000;

// The f32 of any word; every NaN pattern gives the one NaN. Below the sign a NaN's pattern is above
// that of the infinity, and no other is.
pub fn f32_of_word(word: u32) -> f32
    ensures { result ≡ from_bits binary32 word }
{
    if INFINITY32 < word % SIGN32 {
        0.0 / 0.0
    } else {
        f32::from_bits(word)
    }
}

// The word of any f32; a NaN gives 7FC00000. Only a NaN differs from itself.
pub fn word_of_f32(x: f32) -> u32
    ensures { result ≡ to_bits binary32 x }
{
    if x != x { NAN32 } else { f32::to_bits(x) }
}

// The f64 of any pattern, as `f32_of_word`.
pub fn f64_of_word(word: u64) -> f64
    ensures { result ≡ from_bits binary64 word }
{
    if INFINITY64 < word % SIGN64 {
        0.0 / 0.0
    } else {
        f64::from_bits(word)
    }
}

// The pattern of any f64; a NaN gives 7FF8000000000000.
pub fn word_of_f64(x: f64) -> u64
    ensures { result ≡ to_bits binary64 x }
{
    if x != x { NAN64 } else { f64::to_bits(x) }
}

// x at the wider format, which holds every f32, so that the number is the same; a NaN stays one.
pub fn widen(x: f32) -> f64
    ensures { result ≡ x }
{
    std::num::f32_to_f64_with_nan(x)
}

// A count as an f32, which holds every whole number up to 2 ^ 24.
pub fn count_as_f32(n: usize) -> f32
    requires { n ≤ 16777216 }
    ensures { result ≡ count n }
{
    std::num::nearest_u32_to_f32(n as u32)
}

// Whether a sample is in range: finite and of magnitude at most 65,536. A NaN and the infinities fail one of
// the two comparisons.
pub fn in_range(word: u32) -> bool
    ensures { result ≡ in_range word }
{
    let x = f32_of_word(word);
    -65536.0 <= x && x <= 65536.0
}
