// Rounding an f32 to a whole number, halves away from zero, worked out from its bits.
ghost use Rattle.std.specs.Prelude.{◌≡◌, ◌*◌, ◌^◌, ◌<◌, ◌≤◌, Bool, from_bits};
ghost use Rattle.std.specs.Float.{binary32};
ghost use Rattle.std.specs.Float.Ieee.{round};
ghost use Rattle.leaves.specs.Floats.{rounded};
ghost use Rattle.leaves.specs.Steps.{signed};

use super::words::{FIELD32, SIGN32, word_of_f32};

// The exponent's field from 1 / 2 on, and from 2 ^ 23 on, where an f32 has no digits after its point.
const HALF: u32 = 126;

const WHOLE: u32 = 150;

// The whole number nearest to the f32 with this pattern, which has no sign and is below 2 ^ 23; a
// half goes up. With d digits after its point the number is digits / 2 ^ d, and the whole part of
// digits / 2 ^ d + 1 / 2 is that of (2 * digits + 2 ^ d) / 2 ^ (d + 1). Below 1 / 2 it is 0.
fn nearest_whole(bits: u32) -> u32
    requires { bits < 150 * 2 ^ 23 }
    ensures { (s : Bool) → rounded (from_bits binary32 (signed binary32 s bits)) ≡ round binary32 s result 1 }
{
    let field = bits / FIELD32;
    if field < HALF {
        return 0;
    }
    let digits = FIELD32 + bits % FIELD32;
    let after = WHOLE - field;
    (2 * digits + (1u32 << after)) >> (after + 1)
}

// x to whole, halves away from zero, the sign kept, also of a zero. From 2 ^ 23 on every f32 is its own
// answer; an infinity and a NaN lie there too.
pub fn round_to_whole(x: f32) -> f32
    ensures { result ≡ rounded x }
{
    let word = word_of_f32(x);
    if WHOLE * FIELD32 <= word % SIGN32 {
        return x;
    }
    if word < SIGN32 {
        std::num::nearest_u32_to_f32(nearest_whole(word))
    } else {
        -std::num::nearest_u32_to_f32(nearest_whole(word - SIGN32))
    }
}
