// The square root of an f64, correctly rounded, worked out from its bits. `nearest_root` is the method: a
// guess in floats, of which nothing is proved, and a check in whole numbers, which alone decides. What
// stands above it are its parts; the functions below it know no method, and bring a double to the form
// that it takes and back.
ghost use Rattle.std.specs.Prelude.{◌≡◌, ℕ, ◌+◌, ◌*◌, ◌^◌, ◌<◌, ◌≤◌, false, from_bits, Float};
ghost use Rattle.std.specs.Float.{binary64};
ghost use Rattle.std.specs.Float.Ieee.Exact.{HasValue};
ghost use Rattle.leaves.specs.Root.{Nearest, NearestRoot, Rooted};
ghost use Rattle.leaves.specs.Steps.{most_scale};

use super::words::{FIELD64, INFINITY64, f64_of_word, word_of_f64};

// The exponent's field of the doubles from 1/2 to 1. Digits that are added to it with their leading one
// make it the field of those from 1 to 2.
const BELOW_ONE: u64 = 1022;

// What 53 digits are divided by to cut them in two, 2 ^ 26: the lower half has 26.
const LOWER_HALF: u64 = 0x400_0000;

// The most that 26 digits are brought down to, 2 ^ 36, so that all of them fit 64 bits.
const MOST_LEFT: u64 = 0x10_0000_0000;

// Stands for a rest that is below zero or not looked at, 2 ^ 63, and is above every other.
const TOO_FAR: u64 = 0x8000_0000_0000_0000;

// How many binary digits a double has, and so its root.
const DIGITS: u64 = 53;

// What 54 digits are divided by to give the first two of them, 2 ^ 52.
const NEXT_TWO: u64 = 0x10_0000_0000_0000;

// Heron's step to the root of a number, of which the half is given: the mean of a guess and of the number
// divided by it. Where the guess is off by a share d of the root, the mean is by about d * d / 2.
fn closer(half: f64, guess: f64) -> f64 {
    guess * 0.5 + half / guess
}

// A guess at the root of digits * 2 ^ 52, less 1; of it only the size is promised. The root of
// x = digits / 2 ^ 52, which lies from 1 to 4, has the same digits. (In x an odd number of 54 digits
// lacks its last.) The parabola is within a share of 0.0053 of that root, and the steps take that to 2e-5,
// 1e-10 and 1e-20, less than the rounding of the last one. The pattern of a double from 1 to 2 ends with
// its 53 digits, and less 1 with those of the double before it.
fn guess_less_one(digits: u64) -> u64
    requires { digits < 2 ^ 54 }
    ensures { result < 2 ^ 53 }
{
    let up = digits / (2 * FIELD64);
    let x = f64_of_word((BELOW_ONE + up) * FIELD64 + (digits >> up));
    let half = x * 0.5;
    let parabola = 0.5186 + x * (0.526 - x * 0.0395);
    let guess = closer(half, closer(half, closer(half, parabola)));
    std::num::wrapping_sub_u64(word_of_f64(guess), 1) % (2 * FIELD64)
}

// What is left, with 26 zeros brought down, less what is taken; TOO_FAR where that is below zero or where
// too much is left to bring them down.
fn brought_down(left: u64, taken: u64) -> u64
    ensures { (result < 2 ^ 63 → left * 2 ^ 26 ≡ taken + result)
        × ((rest : ℕ) → left ≤ 2 ^ 36 → left * 2 ^ 26 ≡ taken + rest → result ≡ rest) }
{
    if MOST_LEFT < left || left * LOWER_HALF < taken {
        TOO_FAR
    } else {
        left * LOWER_HALF - taken
    }
}

// What digits * 2 ^ 52 exceeds the square of a root by, where that is below 2 ^ 60, and else that number
// or TOO_FAR. There are no numbers of 128 bits: of root = high * 2 ^ 26 + low the square is
// high * high * 2 ^ 52 + 2 * high * low * 2 ^ 26 + low * low, and the three are taken away from the top
// down, each from what the one before it left.
fn rest_of_square(digits: u64, root: u64) -> u64
    requires { root < 2 ^ 53 }
    ensures { (result < 2 ^ 63 → digits * 2 ^ 52 ≡ root * root + result)
        × ((rest : ℕ) → rest < 2 ^ 60 → digits * 2 ^ 52 ≡ root * root + rest → result ≡ rest) }
{
    let high = root / LOWER_HALF;
    let low = root % LOWER_HALF;
    if digits < high * high {
        return TOO_FAR;
    }
    let left = brought_down(digits - high * high, 2 * high * low);
    brought_down(left, low * low)
}

// The whole number nearest to the root of digits * 2 ^ 52, by hand, as in long division: each turn takes
// the next two of its 106 digits, and the root gains one. `rest` is what the digits so far exceed the
// square of the root by; `left` holds the digits to come, the next two on top.
fn root_by_digits(digits: u64) -> u64
    requires { (2 ^ 52 ≤ digits) × (digits < 2 ^ 54) }
    ensures { Nearest (digits * 2 ^ 52) result }
{
    let mut left = digits;
    let mut rest: u64 = 0;
    let mut root: u64 = 0;
    for _turn in 0..DIGITS {
        rest = rest * 4 + left / NEXT_TWO;
        left = left % NEXT_TWO * 4;
        root = root * 2;
        if root * 2 < rest {
            rest = rest - (root * 2 + 1);
            root = root + 1;
        }
    }
    if root < rest { root + 1 } else { root }
}

// The whole number nearest to the root of digits * 2 ^ 52, which has 105 or 106 binary digits, so that
// the root has 53. Where the number is root * root + rest, its root is below root + 1/2 for a rest up to
// root, below root + 3/2 up to 3 * root + 2, and below root + 5/2 up to 5 * root + 6: at each half the
// square is 1/4 more. So a guess is put right if the exact root lies from 1 below it to 3/2 above it; for
// any other the digits are worked out by hand.
fn nearest_root(digits: u64) -> u64
    requires { (2 ^ 52 ≤ digits) × (digits < 2 ^ 54) }
    ensures { Nearest (digits * 2 ^ 52) result }
{
    let root = guess_less_one(digits);
    let rest = rest_of_square(digits, root);
    if 5 * root + 6 < rest {
        root_by_digits(digits)
    } else if 3 * root + 2 < rest {
        root + 2
    } else if root < rest {
        root + 1
    } else {
        root
    }
}

// The root of the double digits * 2 ^ scale / 2 ^ 1126, whose digits are 53. With the half power of
// an odd scale taken into the digits, it is n * 4 ^ u / 4 ^ 589 for n = digits * 2 ^ 52 and u half of
// scale. Its root is q * 2 ^ u / 2 ^ 589, which is q * 2 ^ (u + 485) of the least double.
fn scaled_root(digits: u64, scale: u64) -> f64
    requires { (2 ^ 52 ≤ digits) × ((digits < 2 ^ 53) × (scale ≤ most_scale)) }
    ensures { (x : Float) → HasValue x false (digits * 2 ^ scale) (2 ^ 1126) → NearestRoot x result }
{
    let q = nearest_root(digits * (1 + scale % 2));
    f64_of_word((scale / 2 + 485) * FIELD64 + q)
}

// The root of the finite positive double with this pattern, by its 53 digits and their scale. With the
// leading digit in the pattern the number is digits * 2 ^ (field - 1) of the least double, 2 ^ -1074,
// and 52 more make 2 ^ -1126. Where it is not, in a subnormal double, the tail is moved up until its
// digits are 53: 11 fewer places than there are zeros above it in 64 bits.
fn positive_root(bits: u64) -> f64
    requires { (1 ≤ bits) × (bits < 0x7ff0_0000_0000_0000) }
    ensures { NearestRoot (from_bits binary64 bits) result }
{
    let field = bits / FIELD64;
    let tail = bits % FIELD64;
    if field == 0 {
        let shift = (u64::leading_zeros(tail) - 11) as u64;
        scaled_root(tail << shift, 52 - shift)
    } else {
        scaled_root(FIELD64 + tail, field + 51)
    }
}

// IEEE 754's square root: of a NaN and of a number below zero a NaN; of a zero and of plus infinity
// the number itself.
pub fn square_root(x: f64) -> f64
    ensures { Rooted x result }
{
    if x != x {
        return 0.0 / 0.0;
    }
    if x < 0.0 {
        return 0.0 / 0.0;
    }
    if x == 0.0 {
        return x;
    }
    let bits = word_of_f64(x);
    if bits == INFINITY64 {
        return x;
    }
    positive_root(bits)
}
