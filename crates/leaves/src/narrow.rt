// Narrowing an f64 to an f32, to nearest, ties to even, worked out from its bits.
ghost use Rattle.std.specs.Prelude.{◌≡◌, ◌^◌, ◌<◌, ◌≤◌, Bool, from_bits};
ghost use Rattle.std.specs.Float.{binary32, binary64};
ghost use Rattle.std.specs.Float.Ieee.Nearest.{closest};
ghost use Rattle.leaves.specs.Floats.{narrowed};
ghost use Rattle.leaves.specs.Steps.{signed};

use super::words::{FIELD64, INFINITY64, SIGN64, f32_of_word, word_of_f64};

// What the exponent's field of an f64 says of the f32 that is nearest.
// From 2 ^ 128 on it is the infinity.
const TOO_LARGE: u64 = 1151;
// From 2 ^ -126 on it is normal, and keeps 24 of the 53 digits.
const NORMAL: u64 = 897;
// The other digits are dropped.
const DROPPED: u64 = 29;
// From 2 ^ -150 on, half of the least f32, it may be more than zero.
const LEAST: u64 = 873;

// Patterns of an f32, as numbers of 64 bits: the sign's weight, the field's, the infinity, the NaN.
const SIGN: u64 = 0x8000_0000;

const FIELD: u64 = 0x80_0000;

const INFINITY: u64 = 0x7f80_0000;

const NAN: u64 = 0x7fc0_0000;

// digits / 2 ^ drop to the nearest whole number, a tie to the even one: what is cut off is held
// against one half.
fn nearest_quotient(digits: u64, drop: u64) -> u64
    requires { (digits < 2 ^ 53) × ((1 ≤ drop) × (drop ≤ 53)) }
    ensures { result ≡ closest digits (2 ^ drop) }
{
    let one = 1u64 << drop;
    let whole = digits >> drop;
    let twice = digits % one * 2;
    if twice < one {
        whole
    } else if one < twice {
        whole + 1
    } else {
        whole + whole % 2
    }
}

// The f32 pattern nearest to an f64 pattern, both without their sign. Of a normal f32 just so many
// digits are dropped, and of a subnormal one more with each step down; below those the number is at
// most half of the least f32, and becomes zero. The digits that are kept are added to the exponent's
// field less one, since the leading digit adds one to it. A carry out of the digits so raises the
// field, at the last step to the infinity's.
fn narrow_pattern(bits: u64) -> u64
    requires { bits < 2 ^ 63 }
    ensures { (result < 2 ^ 31) × ((s : Bool) →
        from_bits binary32 (signed binary32 s result) ≡ narrowed (from_bits binary64 (signed binary64 s bits))) }
{
    if INFINITY64 < bits {
        return NAN;
    }
    let field = bits / FIELD64;
    let digits = FIELD64 + bits % FIELD64;
    if TOO_LARGE <= field {
        INFINITY
    } else if NORMAL <= field {
        (field - NORMAL) * FIELD + nearest_quotient(digits, DROPPED)
    } else if LEAST <= field {
        nearest_quotient(digits, NORMAL + DROPPED - field)
    } else {
        0
    }
}

// The f32 nearest to x, of two as near the one whose last digit is even. The sign goes over as it is.
pub fn narrow(x: f64) -> f32
    ensures { result ≡ narrowed x }
{
    let bits = word_of_f64(x);
    if bits < SIGN64 {
        f32_of_word(narrow_pattern(bits) as u32)
    } else {
        f32_of_word((SIGN + narrow_pattern(bits - SIGN64)) as u32)
    }
}
