// The coefficients of the model, from what is known of the window. The ranges end before p + 1, which is how many
// places an area has: of a loop up to `..=p` that writes, what it leaves would have to be proved twice, at either
// way out.
ghost use Rattle.std.specs.Prelude.{◌≡◌, ◌+◌, ◌*◌, ◌≤◌, ◌<◌, length};
ghost use Rattle.std.proofs.lemmas.List.Edits.{sets};
ghost use Rattle.model.specs.Model.{lags, unit, raised_at, raised, levinson, estimate_ar_known};
ghost use Rattle.model.specs.Order.{levinson_order, model_order};
ghost use Rattle.model.specs.Areas.{area, Only, Laid, coefs_at};

use super::sums::{lag_sum, order_shortfall};
use leaves::order::magnitude;

// Writes r[lag], lag from 0 to p, behind the window.
fn correlate(work: &mut [f64], size: usize, g: usize, len: usize, p: usize)
    requires { Laid size g len p work.old }
    ensures { work.new ≡ sets work.old size (lags (area work.old 0 size) g len p) }
{
    for lag in 0..p + 1 {
        work[size + lag] = lag_sum(&work[0..size], g, len, lag);
    }
}

// Writes the coefficients 1, 0, .., 0 at a.
fn start_unit(work: &mut [f64], a: usize, p: usize)
    requires { (a + (p + 1) ≤ length work.old) × (p ≤ 128) }
    ensures { work.new ≡ sets work.old a (unit p) }
{
    work[a] = 1.0;
    work[a + 1..a + 1 + p].fill(0.0);
}

// The j-th coefficient of the order i.
fn raised_at(a: &[f64], i: usize, k: f64, j: usize) -> f64
    requires { (i < length a.now) × (j < length a.now) }
    ensures { result ≡ raised_at a.now i k j }
{
    if 0 < j && j < i {
        return a[j] + k * a[i - j];
    }
    if j == i { k } else { a[j] }
}

// Writes the coefficients of the order i at `copy`, from those at a.
fn raise_order(work: &mut [f64], copy: usize, a: usize, p: usize, i: usize, k: f64)
    requires { (copy + (p + 1) ≤ a) × (a + (p + 1) ≤ length work.old) × (i ≤ p) × (p ≤ 128) }
    ensures { work.new ≡ sets work.old copy (raised (area work.old a (p + 1)) i k) }
{
    for j in 0..p + 1 {
        work[copy + j] = raised_at(&work[a..a + (p + 1)], i, k, j);
    }
}

// Levinson's recursion over the lags at r: the coefficients come to stand two lists behind them, and
// the list between is where each order's are worked out. It stops where |e| is below 1e-12, before k is
// used, and where e is not above 0, after it, and answers the highest order whose k it used.
fn levinson(work: &mut [f64], r: usize, p: usize) -> usize
    requires { (r + 3 * (p + 1) ≤ length work.old) × (p ≤ 128) }
    ensures { (area work.new (r + 2 * (p + 1)) (p + 1) ≡ levinson (area work.old r (p + 1)) p)
        × Only (r + (p + 1)) (r + 3 * (p + 1)) work.old work.new
        × (result ≡ levinson_order (area work.old r (p + 1)) p) }
{
    let copy = r + (p + 1);
    let a = r + 2 * (p + 1);
    start_unit(work, a, p);
    let mut e = work[r];
    for i in 1..p + 1 {
        let acc = order_shortfall(&work[a..a + (p + 1)], &work[r..r + (p + 1)], i);
        if magnitude(e) < 1e-12 {
            return i - 1;
        }
        let k = -acc / e;
        raise_order(work, copy, a, p, i, k);
        work.copy_within(copy..copy + (p + 1), a);
        e *= 1.0 - k * k;
        if e <= 0.0 {
            return i;
        }
    }
    p
}

// The coefficients of the model of what is known, for the window at the front of the workspace, and the
// highest order that was used. Where the known samples are all 0, so that r[0] is, the model is 1, 0, .., 0
// and no order is used; else r[0] grows by 1e-6 of itself, for stability.
pub fn estimate_ar_known(work: &mut [f64], size: usize, g: usize, len: usize, p: usize) -> usize
    requires { Laid size g len p work.old }
    ensures { (area work.new (coefs_at size p) (p + 1) ≡ estimate_ar_known (area work.old 0 size) g len p)
        × Only size (size + 3 * (p + 1)) work.old work.new
        × (result ≡ model_order (area work.old 0 size) g len p) }
{
    correlate(work, size, g, len, p);
    if work[size] <= 0.0 {
        start_unit(work, size + 2 * (p + 1), p);
        return 0;
    }
    work[size] *= 1.0 + 1e-6;
    levinson(work, size, p)
}
