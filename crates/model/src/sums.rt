// The sums of the model, each over lent lists and in the order of its rule.
ghost use Rattle.std.specs.Prelude.{◌≡◌, Bool, ◌+◌, ◌-◌, ◌*◌, ◌≤◌, ◌<◌, length};
ghost use Rattle.std.specs.Float.{binary64};
ghost use Rattle.std.specs.Float.Ieee.{mul};
ghost use Rattle.leaves.specs.Arithmetic.{◌*₆₄◌, at};
ghost use Rattle.model.specs.Model.{most_window, minus, known, mat, lag_sum, shortfall, coef_at, right_side};

// Whether place i of the window lies outside the gap.
fn is_known(g: usize, len: usize, i: usize) -> bool
    requires { g + len ≤ most_window }
    ensures { result ≡ known g len i }
{
    i < g || g + len <= i
}

// r[lag]: the products of known pairs, ascending. A pair is known where both of its places are.
pub fn lag_sum(seg: &[f64], g: usize, len: usize, lag: usize) -> f64
    requires { (g + len ≤ length seg.now) × (length seg.now ≤ most_window) }
    ensures { result ≡ lag_sum seg.now g len lag }
{
    let mut s: f64 = 0.0;
    for i in lag..seg.len() {
        if is_known(g, len, i) && is_known(g, len, i - lag) {
            s += seg[i] * seg[i - lag];
        }
    }
    s
}

// What the i-th order of the model has to make up for: r[i] with a[j] r[i - j] added, j ascending.
pub fn order_shortfall(a: &[f64], r: &[f64], i: usize) -> f64
    requires { (1 ≤ i) × (i < length a.now) × (i < length r.now) }
    ensures { result ≡ shortfall a.now r.now i }
{
    let mut s = r[i];
    for j in 1..i {
        s += a[j] * r[i - j];
    }
    s
}

// b[j]: the sum of a[k] a[k + j].
pub fn coef_at(a: &[f64], p: usize, j: usize) -> f64
    requires { (length a.now ≡ p + 1) × (j ≤ p) }
    ensures { result ≡ coef_at a.now p j }
{
    let count = p + 1 - j;
    let mut s: f64 = 0.0;
    for k in 0..count {
        s += a[k] * a[k + j];
    }
    s
}

// The right side of the gap's i-th row: what the known neighbours within p of it contribute, those
// before the gap and then those behind it.
pub fn right_side(seg: &[f64], b: &[f64], g: usize, len: usize, p: usize, i: usize) -> f64
    requires { (g + len ≤ length seg.now) × (length seg.now ≤ most_window) × (i < len) × (length b.now ≡ p + 1) × (p ≤ 128) }
    ensures { result ≡ right_side seg.now g len b.now p i }
{
    let c = g + i;
    let high = (c + p + 1).min(seg.len());
    let mut s: f64 = 0.0;
    for x in c.saturating_sub(p)..g {
        s += b[c - x] * seg[x];
    }
    for x in g + len..high {
        s += b[x - c] * seg[x];
    }
    -s
}

// s with the products of two stretches taken away in turn: of what stands `from` to before `to`
// places behind x in one list and behind y in the other.
pub fn minus_products(
    l: &[f64],
    x: usize,
    m: &[f64],
    y: usize,
    from: usize,
    to: usize,
    s: f64,
) -> f64
    requires { (x + to ≤ length l.now) × (y + to ≤ length m.now) }
    ensures { result ≡ minus (λ k. at l.now (x + k) *₆₄ at m.now (y + k)) from (to - from) s }
{
    let mut left = s;
    for k in from..to {
        left -= l[x + k] * m[y + k];
    }
    left
}

// s with the products of column i of the band, below its diagonal down to row `high`, and the results
// x from i + 1 on taken away in turn.
pub fn minus_column(band: &[f64], p: usize, i: usize, x: &[f64], high: usize, s: f64) -> f64
    requires { (p * (high + 1) + i < length band.now) × (i ≤ high) × (high - i ≤ length x.now) }
    ensures { result ≡ minus (λ k. mat p band.now k i *₆₄ at x.now (k - (i + 1))) (i + 1) (high - i) s }
{
    let mut left = s;
    for k in i + 1..=high {
        left -= band[p * (k + 1) + i] * x[k - (i + 1)];
    }
    left
}
