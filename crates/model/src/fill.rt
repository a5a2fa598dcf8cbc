// One pass of the model: coefficients, equations, results.
ghost use Rattle.std.specs.Prelude.{◌≡◌, ◌+◌, ◌*◌, ◌≤◌, ◌<◌, length};
ghost use Rattle.std.proofs.lemmas.List.Edits.{sets};
ghost use Rattle.model.specs.Model.{most_window, coef_autocorr, right_sides, solve_spd_banded, solved, doubles_for};
ghost use Rattle.model.specs.Order.{model_order};
ghost use Rattle.model.specs.Areas.{area, Only, Laid, band_at, results_at};

use super::banded::{back_solve, factor, forward_solve};
use super::estimate::estimate_ar_known;
use super::sums::{coef_at, right_side};

// Writes b[j], the sum of a[k] a[k + j], for j from 0 to p.
fn coef_autocorr(work: &mut [f64], a: usize, b: usize, p: usize)
    requires { (a + (p + 1) ≤ b) × (b + (p + 1) ≤ length work.old) × (p ≤ 128) }
    ensures { work.new ≡ sets work.old b (coef_autocorr (area work.old a (p + 1)) p) }
{
    for j in 0..p + 1 {
        work[b + j] = coef_at(&work[a..a + (p + 1)], p, j);
    }
}

// Writes the right side of each of the gap's rows.
fn right_sides(work: &mut [f64], size: usize, g: usize, len: usize, b: usize, rhs: usize, p: usize)
    requires { (g + len ≤ size) × (size ≤ most_window) × (p ≤ 128) × (size ≤ b) × (b + (p + 1) ≤ rhs) × (rhs + len ≤ length work.old) }
    ensures { work.new
        ≡ sets work.old rhs (right_sides (area work.old 0 size) g len (area work.old b (p + 1)) p) }
{
    for i in 0..len {
        work[rhs + i] = right_side(&work[0..size], &work[b..b + (p + 1)], g, len, p, i);
    }
}

// Lays down and solves the equations of the gap, from the window and b.
fn solve_gap(work: &mut [f64], size: usize, g: usize, len: usize, p: usize)
    requires { Laid size g len p work.old }
    ensures { (area work.new (results_at size len p) len
        ≡ solve_spd_banded (area work.old (size + 3 * (p + 1)) (p + 1))
        (right_sides (area work.old 0 size) g len (area work.old (size + 3 * (p + 1)) (p + 1)) p) p len)
        × Only (band_at size p) (doubles_for size len p) work.old work.new }
{
    let b = size + 3 * (p + 1);
    let band = size + 4 * (p + 1);
    let rhs = band + len * (p + 1);
    let y = rhs + len;
    right_sides(work, size, g, len, b, rhs, p);
    factor(work, b, band, len, p);
    forward_solve(work, band, rhs, y, len, p);
    back_solve(work, band, y, y + len, len, p);
}

// How many doubles of workspace the stages need, for a window of `size` samples.
pub fn doubles_for(size: usize, len: usize, p: usize) -> usize
    requires { (size ≤ most_window) × (len ≤ 2048) × (p ≤ 128) }
    ensures { result ≡ doubles_for size len p }
{
    size + len * (p + 1) + 3 * len + 4 * (p + 1)
}

// Where in the workspace the gap's doubles come to stand.
pub fn results_at(size: usize, len: usize, p: usize) -> usize
    requires { (size ≤ most_window) × (len ≤ 2048) × (p ≤ 128) }
    ensures { result ≡ results_at size len p }
{
    size + 4 * (p + 1) + len * (p + 1) + 2 * len
}

// The gap's doubles by one pass over the window at the front of the workspace, written at its end; the answer
// is the highest order that the model used.
// The size, the gap and the order stay four parameters here and in the stages: `Laid` and the rules of
// specs/Model.antt, which the promises cite, take them one by one, so that a struct would be taken apart again in
// each clause.
pub fn fill_by_model(work: &mut [f64], size: usize, g: usize, len: usize, p: usize) -> usize
    requires { Laid size g len p work.old }
    ensures { (area work.new (results_at size len p) len ≡ solved (area work.old 0 size) g len p)
        × Only size (doubles_for size len p) work.old work.new
        × (result ≡ model_order (area work.old 0 size) g len p) }
{
    let order = estimate_ar_known(work, size, g, len, p);
    coef_autocorr(work, size + 2 * (p + 1), size + 3 * (p + 1), p);
    solve_gap(work, size, g, len, p);
    order
}
