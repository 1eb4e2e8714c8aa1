// Lists of floats changed in place, element by element, and the projection (005).

ghost use Rattle.std.specs.Prelude.{◌≡◌, ◌+◌, ◌*◌, ◌≤◌, length, replicate};
ghost use Rattle.std.specs.Fn.{FnOnceReturnsAtMut};
ghost use Rattle.laws.specs.Rows.{row_of, set_row};
ghost use Rattle.ieee.specs.Floats.{zero64};
ghost use Rattle.factor.specs.Vectors.{Updated, UpdatedWith, add_scaled, sub_scaled, scaled, multiplied, divided, added, norm, unit, unit_row, projected};

use super::sums::dot;

// Row i of a matrix that lies row after row.
pub fn row(s: &[f64], rank: usize, i: usize) -> &[f64]
    requires { i * rank + rank ≤ length s.now }
    ensures result_value { result.now ≡ row_of rank s.now i }
    ensures result_len { length result.now ≡ rank }
{
    let start = i * rank;
    let end = start + rank;
    &s[start..end]
}

// What f answers of row i, which it may write in its place. A function can't hand such a row out as `row` does: tried with `Lends` and `set_row`, which the check proves
// of a field or of a call's result alone, and not of `&mut s[start..end]`.
pub fn at_row<T, R, F: FnOnce(&mut [T]) -> R>(s: &mut [T], rank: usize, i: usize, f: F) -> R
    requires in_bounds { i * rank + rank ≤ length s.old }
    requires callable { (row : _) → length row.now ≡ rank → F.pre f row }
    ensures { (row : _) × FnOnceReturnsAtMut F.FnOnce f (row_of rank s.old i) result row × (s.new ≡ set_row rank s.old i row) }
{
    let start = i * rank;
    let end = start + rank;
    f(&mut s[start..end])
}

// Every element x becomes f(x). A loop by index: as `iter_mut`, which proves, a sweep with momentum (transcribed to Rust, callgrind) took 1.0016 of the
// instructions at rank 4 and 1.0008 at rank 17, and a sweep may take no more than it did.
fn update<F: Fn(f64) -> f64>(row: &mut [f64], f: F)
    requires { F.IsAlwaysCallable f }
    ensures { Updated (F.post f) row.old row.new }
{
    for j in 0..row.len() {
        row[j] = f(row[j]);
    }
}

// Every element x becomes f(x, y), with y the element of `source` at its place.
pub fn update_with<F: Fn(f64, f64) -> f64>(acc: &mut [f64], source: &[f64], f: F)
    requires same_length { length acc.old ≡ length source.now }
    requires callable { F.IsAlwaysCallable f }
    ensures { UpdatedWith (F.post f) source.now acc.old acc.new }
{
    for j in 0..acc.len() {
        acc[j] = f(acc[j], source[j]);
    }
}

// Every element becomes 0.0: `fill` by the definitions' `zero64`.
pub fn clear(g: &mut [f64])
    ensures { g.new ≡ replicate (length g.old) zero64 }
{
    g.fill(0.0);
}

// `weight` times `source` added to `acc`.
pub fn add_scaled(acc: &mut [f64], weight: f64, source: &[f64])
    requires { length acc.old ≡ length source.now }
    ensures { acc.new ≡ add_scaled weight source.now acc.old }
{
    update_with(acc, source, |x, y| x + weight * y);
}

// `acc` less `weight` times `source`.
pub fn subtract_scaled(acc: &mut [f64], weight: f64, source: &[f64])
    requires { length acc.old ≡ length source.now }
    ensures { acc.new ≡ sub_scaled weight source.now acc.old }
{
    update_with(acc, source, |x, y| x - weight * y);
}

// Each element times `by`.
pub fn scale(row: &mut [f64], by: f64)
    ensures { row.new ≡ scaled by row.old }
{
    update(row, |x| x * by);
}

// `by` times each element. Not `scale`, whose product stands the other way round: the definitions keep the order of 001 and of 002, and one function for
// both would need a law of the product at each use.
pub fn multiply_by(xs: &mut [f64], by: f64)
    ensures { xs.new ≡ multiplied by xs.old }
{
    update(xs, |x| by * x);
}

// Each element divided by `by`.
pub fn divide(row: &mut [f64], by: f64)
    ensures { row.new ≡ divided by row.old }
{
    update(row, |x| x / by);
}

// `source` added to `acc`.
pub fn add(acc: &mut [f64], source: &[f64])
    requires { length acc.old ≡ length source.now }
    ensures { acc.new ≡ added source.now acc.old }
{
    update_with(acc, source, |x, y| x + y);
}

// The norm of a row: the root of its sum of squares.
pub fn norm_l2(row: &[f64]) -> f64
    ensures { result ≡ norm row.now }
{
    ieee::sqrt(dot(row, row))
}

// The row divided by its norm.
#[tactic(auto, unfolding(crate::specs::Vectors::unit))]
pub fn normalize(row: &mut [f64])
    ensures { row.new ≡ unit row.old }
{
    let norm = norm_l2(row);
    divide(row, norm);
}

// Row i divided by its norm.
fn normalize_row(factor: &mut [f64], rank: usize, i: usize)
    requires { i * rank + rank ≤ length factor.old }
    ensures { factor.new ≡ unit_row rank i factor.old }
{
    at_row(factor, rank, i, |row| normalize(row));
}

// Every one of m rows divided by its norm.
#[tactic(auto, unfolding(laws::specs::Turns::up_to, crate::specs::Vectors::projected))]
pub fn project(factor: &mut [f64], rank: usize, m: usize)
    requires { m * rank ≤ length factor.old }
    ensures { factor.new ≡ projected rank m factor.old }
{
    for i in 0..m {
        normalize_row(factor, rank, i);
    }
}
