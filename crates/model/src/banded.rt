// The banded normal equations of the gap: laid down, factored and solved within a band of p + 1 places
// for each of the gap's samples. The places of the areas, p and len stay single parameters: `area work at len` and the
// rules of specs/Model.antt, which the promises cite, take them one by one.
ghost use Rattle.std.specs.Prelude.{◌≡◌, [], ◌+◌, ◌-◌, ◌*◌, ◌≤◌, ◌<◌, length};
ghost use Rattle.std.proofs.lemmas.List.Edits.{sets};
ghost use Rattle.model.specs.Model.{laid, cell_at, cells, factored, forward_at, forward, backward_at, backward};
ghost use Rattle.model.specs.Areas.{area};

use super::sums::{minus_column, minus_products};
use leaves::order::larger;
use leaves::root::square_root;

// The matrix d places before its diagonal, as it is laid down: b by that distance, and on the diagonal
// 1e-6 of it more, which keeps the solve well-conditioned.
fn laid_at(b: &[f64], d: usize) -> f64
    requires { d < length b.now }
    ensures { result ≡ laid b.now d }
{
    if d == 0 { b[0] + 1e-6 * b[0] } else { b[d] }
}

// The place of row i of the factor that is d before the diagonal. All places before it are in the band. A
// place before column 0 is +0; on the diagonal the sum is raised to 1e-12 at least before its root.
fn cell_at(b: &[f64], p: usize, band: &[f64], i: usize, d: usize) -> f64
    requires { (length b.now ≡ p + 1) × (d ≤ p) × (1 ≤ p) × (p ≤ 128) × (i < 2048) × (length band.now ≡ i * (p + 1) + (p - d)) }
    ensures { result ≡ cell_at b.now p band.now i d }
{
    if i < d {
        return 0.0;
    }
    let j = i - d;
    let row = p * (i + 1);
    let other = p * (j + 1);
    let sum = minus_products(
        band,
        row,
        band,
        other,
        i.saturating_sub(p),
        j,
        laid_at(b, d),
    );
    if d == 0 {
        square_root(larger(sum, 1e-12))
    } else {
        sum / band[other + j]
    }
}

// Writes row i of the factor behind the rows before it.
fn factor_row(work: &mut [f64], b: usize, band: usize, p: usize, i: usize)
    requires { (b + (p + 1) ≤ band) × (band + (i + 1) * (p + 1) ≤ length work.old) × (1 ≤ p) × (p ≤ 128) × (i < 2048) }
    ensures { work.new
        ≡ sets work.old band (cells (area work.old b (p + 1)) p i (p + 1) (area work.old band (i * (p + 1)))) }
{
    let row = i * (p + 1);
    for k in 0..p + 1 {
        let c = row + k;
        work[band + c] = cell_at(&work[b..b + (p + 1)], p, &work[band..band + c], i, p - k);
    }
}

// Writes the factor's band of len rows, by Cholesky's method.
pub fn factor(work: &mut [f64], b: usize, band: usize, len: usize, p: usize)
    requires { (b + (p + 1) ≤ band) × (band + len * (p + 1) ≤ length work.old) × (1 ≤ p) × (p ≤ 128) × (len ≤ 2048) }
    ensures { work.new ≡ sets work.old band (factored (area work.old b (p + 1)) p len) }
{
    for i in 0..len {
        factor_row(work, b, band, p, i);
    }
}

// The next of the forward solve's results, behind those in y.
fn forward_at(band: &[f64], rhs: &[f64], p: usize, y: &[f64]) -> f64
    requires { (length y.now < length rhs.now) × (length band.now ≡ length rhs.now * (p + 1)) × (1 ≤ p) × (p ≤ 128) × (length rhs.now ≤ 2048) }
    ensures { result ≡ forward_at band.now rhs.now p y.now }
{
    let i = y.len();
    let row = p * (i + 1);
    let sum = minus_products(band, row, y, 0, i.saturating_sub(p), i, rhs[i]);
    sum / band[row + i]
}

// Solves forward, from the right sides to y.
pub fn forward_solve(work: &mut [f64], band: usize, rhs: usize, y: usize, len: usize, p: usize)
    requires { (band + len * (p + 1) ≤ rhs) × (rhs + len ≤ y) × (y + len ≤ length work.old) × (1 ≤ p) × (p ≤ 128) × (len ≤ 2048) }
    ensures { work.new
        ≡ sets work.old y (forward (area work.old band (len * (p + 1))) (area work.old rhs len) p len []) }
{
    for i in 0..len {
        work[y + i] = forward_at(
            &work[band..band + len * (p + 1)],
            &work[rhs..rhs + len],
            p,
            &work[y..y + i],
        );
    }
}

// The i-th of the back solve's results, before those in x.
fn backward_at(band: &[f64], y: &[f64], p: usize, i: usize, x: &[f64]) -> f64
    requires { (i < length y.now) × (length band.now ≡ length y.now * (p + 1)) × (length x.now ≡ length y.now - (i + 1))
        × (1 ≤ p) × (p ≤ 128) × (length y.now ≤ 2048) }
    ensures { result ≡ backward_at band.now y.now p (length y.now) i x.now }
{
    let high = (i + p).min(y.len() - 1);
    let sum = minus_column(band, p, i, x, high, y[i]);
    sum / band[p * (i + 1) + i]
}

// Solves back, from y to x.
pub fn back_solve(work: &mut [f64], band: usize, y: usize, x: usize, len: usize, p: usize)
    requires { (band + len * (p + 1) ≤ y) × (y + len ≤ x) × (x + len ≤ length work.old) × (1 ≤ p) × (p ≤ 128) × (len ≤ 2048) }
    ensures { work.new
        ≡ sets work.old x (backward (area work.old band (len * (p + 1))) (area work.old y len) p len len []) }
{
    for i in (0..len).rev() {
        work[x + i] = backward_at(
            &work[band..band + len * (p + 1)],
            &work[y..y + len],
            p,
            i,
            &work[x + (i + 1)..x + len],
        );
    }
}
