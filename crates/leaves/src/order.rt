// Magnitude, the larger and the smaller of two, and a number held to a span, as Rust's `abs`, `max`,
// `min` and `clamp`, for both formats at once.
ghost use Rattle.std.specs.Prelude.{◌≡◌, Float, refl};
ghost use Rattle.std.specs.Float.Ieee.{eq, lt};
ghost use Rattle.std.specs.Ordering.{float_partial_cmp};
ghost use Rattle.leaves.specs.Floats.{magnitude, larger, smaller, held};

// A float of either format. `float` says which one a value is, and the two laws that it is ordered and
// compared as such.
pub trait Real: PartialOrd + Copy {
    ghost float: { Self → Float };

    // x without its sign.
    fn without_sign(self) -> Self
        ensures { float result ≡ magnitude (float self) };

    // Whether it is below another, by the format's own comparison: `<` of a type parameter asks for the whole order of
    // the two, which takes up to three.
    fn is_below(self, other: Self) -> bool
        ensures { result ≡ lt (float self) (float other) };

    ghost ordered: { (a b : Self) → Self.partial_cmp a b ≡ float_partial_cmp (float a) (float b) };

    ghost compared: { (a b : Self) → Self.eq a b ≡ eq (float a) (float b) };
}

impl Real for f32 {
    ghost float = { λ x. x };

    ghost ordered = { λ a b. refl };

    ghost compared = { λ a b. refl };

    fn without_sign(self) -> f32 {
        self.abs()
    }

    fn is_below(self, other: f32) -> bool {
        self < other
    }
}

impl Real for f64 {
    ghost float = { λ x. x };

    ghost ordered = { λ a b. refl };

    ghost compared = { λ a b. refl };

    fn without_sign(self) -> f64 {
        self.abs()
    }

    fn is_below(self, other: f64) -> bool {
        self < other
    }
}

// x without its sign; a NaN stays one.
pub fn magnitude<R: Real>(x: R) -> R
    ensures { R.float result ≡ magnitude (R.float x) }
{
    x.without_sign()
}

// The larger of two. Where b is the NaN, a is not below it.
pub fn larger<R: Real>(a: R, b: R) -> R
    ensures { R.float result ≡ larger (R.float a) (R.float b) }
{
    if a != a || a.is_below(b) { b } else { a }
}

// The smaller of two. Where b is the NaN, it is not below a.
pub fn smaller<R: Real>(a: R, b: R) -> R
    ensures { R.float result ≡ smaller (R.float a) (R.float b) }
{
    if a != a || b.is_below(a) { b } else { a }
}

// x held to low .. high; a NaN is beyond neither end, and stays.
pub fn clamp<R: Real>(x: R, low: R, high: R) -> R
    ensures { R.float result ≡ held (R.float low) (R.float high) (R.float x) }
{
    if x.is_below(low) {
        low
    } else if high.is_below(x) {
        high
    } else {
        x
    }
}
