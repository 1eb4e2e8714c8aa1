// Rules 3 and 4: one coordinate sweep, each operation rounded once (001, `coordinate_sweep`), with a count of the rows it leaves.
#![tactic(auto)]

mod pairs; // pairs.rt: two rows at once

ghost use Rattle.std.specs.Prelude.{◌≡◌, false, cond, ◌+◌, ◌*◌, ◌≤◌, ◌<◌, length, replicate};
ghost use Rattle.ieee.specs.Floats.{◌/ᶠ◌, zero64, one64};
ghost use Rattle.ieee.specs.Sqrt.{sqrt_of};
ghost use Rattle.factor.specs.Norms.{squared_norm};
ghost use Rattle.factor.specs.Shapes.{RowFits, Shaped};
ghost use Rattle.coordinate_sweep.specs.Sweep.{exact_row, momentum_row, normalized, wrote, update_row, gradient_at, row_to, swept_row, meets_next, SweepsOn, sweep_to, norm_at, stands, standing_to, StandsOn};

use factor::rows::{at_row, clear, scale, update_with};
use factor::sums::squared_norm;
use factor::table::Prepared;
use pairs::{next_apart, renew_pair};
use row_gradient::pair4::gradients;
use row_gradient::ranks::gradient;

// What a step of a sweep did: the row after it, and how many rows it left as they were. Both are there after every step: no Option, no Result.
#[derive(Drop)]
struct Went {
    next: usize,
    left: usize,
}

// Whether a row whose gradient has this norm is written.
fn writes(norm: f64) -> bool
    ensures { result ≡ wrote norm }
{
    norm >= 1E-24
}

// Rows left as they were, of one: none where it was written.
fn left_of(written: bool) -> usize
    ensures { result ≡ cond written 0 1 }
{
    usize::from(!written)
}

// The exact update: the gradient times `inv`.
fn set_exact(row: &mut [f64], g: &[f64], inv: f64)
    requires { length row.old ≡ length g.now }
    ensures { row.new ≡ exact_row g.now inv row.old }
{
    update_with(row, g, |_, x| x * inv);
}

// (1 + beta) times the exact update, less beta times the old row.
fn set_momentum(row: &mut [f64], g: &[f64], inv: f64, beta: f64)
    requires { length row.old ≡ length g.now }
    ensures { row.new ≡ momentum_row g.now inv beta row.old }
{
    update_with(row, g, |old, x| (1.0 + beta) * (x * inv) - beta * old);
}

// 1.0 divided by the norm of a row.
fn inverse_norm(row: &[f64]) -> f64
    ensures { result ≡ one64 /ᶠ sqrt_of (squared_norm row.now) }
{
    1.0 / ieee::sqrt(squared_norm(row))
}

// The row times 1.0 divided by its norm.
#[tactic(auto, unfolding(crate::specs::Sweep::normalized))]
fn normalize(row: &mut [f64])
    ensures { row.new ≡ normalized row.old }
{
    let inv = inverse_norm(row);
    scale(row, inv);
}

// The row by its gradient g, of norm `norm`; a gradient too small leaves it. Whether it was written.
#[tactic(auto, unfolding(crate::specs::Sweep::update_row))]
fn update_row(row: &mut [f64], g: &[f64], norm: f64, beta: f64) -> bool
    requires { length row.old ≡ length g.now }
    ensures value { result ≡ wrote norm }
    ensures row_after { row.new ≡ update_row beta g.now norm row.old }
{
    if writes(norm) {
        let inv = 1.0 / norm;
        if beta == 0.0 {
            set_exact(row, g, inv);
            return true;
        }
        set_momentum(row, g, inv, beta);
        normalize(row);
        return true;
    }
    false
}

// Row i of the factor, by its gradient g, of norm `norm`. Whether it was written.
#[tactic(auto, unfolding(crate::specs::Sweep::row_to))]
fn update_at(factor: &mut [f64], g: &[f64], i: usize, norm: f64, beta: f64) -> bool
    requires { i * length g.now + length g.now ≤ length factor.old }
    ensures value { result ≡ wrote norm }
    ensures factor_after { factor.new ≡ row_to (length g.now) factor.old i (update_row beta g.now norm) }
{
    at_row(factor, g.len(), i, |row| update_row(row, g, norm, beta))
}

// The gradient of row i.
#[tactic(auto, unfolding(crate::specs::Sweep::gradient_at))]
fn gradient_at(table: Prepared, factor: &[f64], i: usize, g: &mut [f64])
    requires { RowFits table.cols.now table.values.now table.starts.now factor.now (length g.old) i }
    ensures { g.new ≡ gradient_at table.entry.cols.now table.entry.values.now table.entry.starts.now (length g.old) factor.now i }
{
    gradient(table.row(i), factor, i, g);
}

// The gradients of rows i and i + 1. `i < 65536` here and in `sweep_pair`: see the head of pairs.rt.
#[tactic(auto, unfolding(crate::specs::Sweep::gradient_at))]
fn gradients_at(table: Prepared, factor: &[f64], i: usize, g: &mut [f64], h: &mut [f64])
    requires row_fits { RowFits table.cols.now table.values.now table.starts.now factor.now (length g.old) i }
    requires row_fits_2 { RowFits table.cols.now table.values.now table.starts.now factor.now (length g.old) (i + 1) }
    requires h_len { (length h.old ≡ length g.old) × (i < 65536) }
    ensures g_after { g.new ≡ gradient_at table.entry.cols.now table.entry.values.now table.entry.starts.now (length g.old) factor.now i }
    ensures h_after { h.new ≡ gradient_at table.entry.cols.now table.entry.values.now table.entry.starts.now (length g.old) factor.now (i + 1) }
{
    if g.len() == 4 {
        gradients(table.row(i), table.row(i + 1), factor, i, g, h);
    } else {
        gradient_at(table, factor, i, g);
        gradient_at(table, factor, i + 1, h);
    }
}

// Row i of the factor anew; g is left at its gradient. Whether the row was written.
#[tactic(auto, unfolding(crate::specs::Sweep::swept_row, crate::specs::Sweep::row_by))]
fn sweep_row(table: Prepared, factor: &mut [f64], g: &mut [f64], i: usize, beta: f64) -> bool
    requires { RowFits table.cols.now table.values.now table.starts.now factor.old (length g.old) i }
    ensures value { result ≡ wrote (sqrt_of (squared_norm (gradient_at table.entry.cols.now table.entry.values.now table.entry.starts.now (length g.old) factor.old i))) }
    ensures factor_after { factor.new ≡ swept_row table.entry.cols.now table.entry.values.now table.entry.starts.now (length g.old) beta factor.old i }
    ensures g_after { g.new ≡ gradient_at table.entry.cols.now table.entry.values.now table.entry.starts.now (length g.old) factor.old i }
{
    gradient_at(table, factor, i, g);
    let norm = ieee::sqrt(squared_norm(g));
    update_at(factor, g, i, norm, beta)
}

// Rows i and i + 1 of the factor anew, where no entry of the second lies in column i; g and h are left at their gradients. How many of the two
// were left.
#[tactic(auto, using(crate::proofs::TwoRows::rows_swept, crate::proofs::Standing::norm_away))]
fn sweep_pair(
    table: Prepared,
    factor: &mut [f64],
    g: &mut [f64],
    h: &mut [f64],
    i: usize,
    beta: f64,
) -> usize
    requires row_fits { RowFits table.cols.now table.values.now table.starts.now factor.old (length g.old) i }
    requires row_fits_2 { RowFits table.cols.now table.values.now table.starts.now factor.old (length g.old) (i + 1) }
    requires h_len { (length h.old ≡ length g.old) × (i < 65536) × (meets_next table.cols.now table.starts.now i ≡ false) }
    ensures factor_after { factor.new ≡ swept_row table.entry.cols.now table.entry.values.now table.entry.starts.now (length g.old) beta
        (swept_row table.entry.cols.now table.entry.values.now table.entry.starts.now (length g.old) beta factor.old i) (i + 1) }
    ensures value { result ≡ stands (norm_at table.entry.cols.now table.entry.values.now table.entry.starts.now (length g.old) factor.old i)
        + stands (norm_at table.entry.cols.now table.entry.values.now table.entry.starts.now (length g.old)
        (swept_row table.entry.cols.now table.entry.values.now table.entry.starts.now (length g.old) beta factor.old i) (i + 1)) }
{
    gradients_at(table, factor, i, g, h);
    renew_pair(factor, g, h, i, beta)
}

// Row i anew, and row i + 1 with it where that can be.
#[tactic(auto, using(crate::proofs::TwoRows::sweep_one, crate::proofs::TwoRows::sweep_two, crate::proofs::Standing::standing_one, crate::proofs::Standing::standing_two, factor::proofs::Shaping::shaped_row))]
fn sweep_on(
    table: Prepared,
    m: usize,
    factor: &mut [f64],
    g: &mut [f64],
    h: &mut [f64],
    i: usize,
    beta: f64,
) -> Went
    requires shaped { Shaped table.cols.now table.values.now table.starts.now factor.old m (length g.old) }
    requires h_len { (length h.old ≡ length g.old) × (i < m) }
    ensures { (i < result.next) × (result.next ≤ m)
        × SweepsOn table.entry.cols.now table.entry.values.now table.entry.starts.now (length g.old) beta i result.next factor.old factor.new
        × StandsOn table.entry.cols.now table.entry.values.now table.entry.starts.now (length g.old) beta i result.next result.left factor.old }
{
    if next_apart(table.cols, table.starts, m, i) {
        let left = sweep_pair(table, factor, g, h, i, beta);
        return Went { next: i + 2, left };
    }
    let written = sweep_row(table, factor, g, i, beta);
    Went {
        next: i + 1,
        left: left_of(written),
    }
}

// One sweep over the m rows, the diagonal left out; how many rows it left as they were. The row g is left cleared; what is left in h is free.
#[tactic(auto, using(crate::proofs::Standing::standing_few), unfolding(crate::specs::Sweep::sweep_to, crate::specs::Sweep::standing_to, laws::specs::Turns::up_to))]
pub fn coordinate_sweep(
    table: Prepared,
    m: usize,
    factor: &mut [f64],
    g: &mut [f64],
    h: &mut [f64],
    beta: f64,
) -> usize
    requires shaped { Shaped table.cols.now table.values.now table.starts.now factor.old m (length g.old) }
    requires h_len { length h.old ≡ length g.old }
    ensures value { result ≡ standing_to table.entry.cols.now table.entry.values.now table.entry.starts.now (length g.old) beta factor.old m }
    ensures factor_after { factor.new ≡ sweep_to table.entry.cols.now table.entry.values.now table.entry.starts.now (length g.old) beta factor.old m }
    ensures g_after { g.new ≡ replicate (length g.old) zero64 }
{
    let mut i = 0;
    let mut left: usize = 0;
    // One row or two a turn, as the entries allow: no range counts so. Tried as `for i in 0..m` with a mark of the next row: a test at each row, and the
    // mark, its two bounds and a proof by both ways of that test more.
    while i < m {
        let went = sweep_on(table, m, factor, g, h, i, beta);
        left += went.left;
        i = went.next;
    }
    clear(g);
    left
}
