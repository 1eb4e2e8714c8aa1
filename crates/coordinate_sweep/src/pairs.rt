// Two rows that follow each other, at once: where no entry of the second lies in the first one's column, its gradient can be taken before the
// first is made anew, and the two roots then don't wait for each other. The rows come out as one after the other. `i < 65536` is asked where i + 1 is
// counted, here and at two functions of lib.rt: as a `u16`, four of the five would make it a usize first, a line for a clause, and a struct of i and this bound
// would be opened at each of some 40 places that name i. h's length is asked where two rows are: lib.rt writes factor, g and h, so that a value of them would
// need the clause at each function that each of its references keeps its name.

ghost use Rattle.std.specs.Prelude.{◌≡◌, true, false, cond, ℕ, ◌+◌, ◌*◌, ◌≤◌, ◌<◌, eqb, length, get_or};
ghost use Rattle.std.specs.Float.Ieee as Ieee;
ghost use Rattle.laws.specs.Rows.{row_of};
ghost use Rattle.laws.specs.Lists.{any_below};
ghost use Rattle.ieee.specs.Floats.{◌/ᶠ◌, zero64, one64};
ghost use Rattle.ieee.specs.Sqrt.{sqrt_of};
ghost use Rattle.factor.specs.Norms.{squared_norm};
ghost use Rattle.factor.specs.Vectors.{scaled};
ghost use Rattle.coordinate_sweep.specs.Sweep.{momentum_row, normalized, wrote, row_by, row_to, meets_next, stands};

use super::{inverse_norm, left_of, set_momentum, update_at, writes};
use factor::rows::{at_row, row, scale};
use factor::sums::squared_norm;

// Row i by the momentum rule, not yet divided by its norm.
#[tactic(auto, unfolding(crate::specs::Sweep::row_to))]
fn move_row(factor: &mut [f64], g: &[f64], i: usize, inv: f64, beta: f64)
    requires { i * length g.now + length g.now ≤ length factor.old }
    ensures { factor.new ≡ row_to (length g.now) factor.old i (momentum_row g.now inv beta) }
{
    at_row(factor, g.len(), i, |row| set_momentum(row, g, inv, beta));
}

// Row i times `by`.
#[tactic(auto, unfolding(crate::specs::Sweep::row_to))]
fn scale_row(factor: &mut [f64], rank: usize, i: usize, by: f64)
    requires { i * rank + rank ≤ length factor.old }
    ensures { factor.new ≡ row_to rank factor.old i (scaled by) }
{
    at_row(factor, rank, i, |row| scale(row, by));
}

// Rows i and i + 1, each times 1.0 divided by its norm.
fn normalize_pair(factor: &mut [f64], rank: usize, i: usize)
    requires { ((i + 1) * rank + rank ≤ length factor.old) × (i < 65536) }
    ensures { factor.new ≡ row_to rank
        (row_to rank factor.old i (scaled (one64 /ᶠ sqrt_of (squared_norm (row_of rank factor.old i)))))
        (i + 1) (scaled (one64 /ᶠ sqrt_of (squared_norm (row_of rank factor.old (i + 1))))) }
{
    let a = inverse_norm(row(factor, rank, i));
    let b = inverse_norm(row(factor, rank, i + 1));
    scale_row(factor, rank, i, a);
    scale_row(factor, rank, i + 1, b);
}

// Rows i and i + 1 by the momentum rule; a and b are 1.0 divided by the norms of their gradients.
fn move_pair(factor: &mut [f64], g: &[f64], h: &[f64], i: usize, a: f64, b: f64, beta: f64)
    requires { ((i + 1) * length g.now + length g.now ≤ length factor.old) × (length h.now ≡ length g.now) × (i < 65536) }
    ensures { factor.new ≡ row_to (length g.now)
        (row_to (length g.now) factor.old i (λ r. normalized (momentum_row g.now a beta r)))
        (i + 1) (λ r. normalized (momentum_row h.now b beta r)) }
{
    let rank = g.len();
    move_row(factor, g, i, a, beta);
    move_row(factor, h, i + 1, b, beta);
    normalize_pair(factor, rank, i);
}

// Whether both norms are large enough and the momentum isn't 0.
fn moves(a: f64, b: f64, beta: f64) -> bool
    ensures { result ≡ true → (wrote a ≡ true) × (wrote b ≡ true) × (Ieee.eq beta zero64 ≡ false) }
{
    if beta == 0.0 {
        return false;
    }
    if writes(a) {
        return writes(b);
    }
    false
}

// Rows i and i + 1 by their gradients g and h; how many of the two were left.
#[tactic(auto, using(crate::proofs::TwoRows::pair_moves), unfolding(crate::specs::Sweep::row_by))]
pub fn renew_pair(factor: &mut [f64], g: &[f64], h: &[f64], i: usize, beta: f64) -> usize
    requires { ((i + 1) * length g.now + length g.now ≤ length factor.old) × (length h.now ≡ length g.now) × (i < 65536) }
    ensures factor_after { factor.new ≡ row_by beta h.now (length g.now) (row_by beta g.now (length g.now) factor.old i) (i + 1) }
    ensures value { result ≡ stands (sqrt_of (squared_norm g.now)) + stands (sqrt_of (squared_norm h.now)) }
{
    let a = ieee::sqrt(squared_norm(g));
    let b = ieee::sqrt(squared_norm(h));
    if moves(a, b, beta) {
        move_pair(factor, g, h, i, 1.0 / a, 1.0 / b, beta);
        return 0;
    }
    let first = update_at(factor, g, i, a, beta);
    let second = update_at(factor, h, i + 1, b, beta);
    left_of(first) + left_of(second)
}

// Whether column i is found by now, after one more.
fn found_by(found: bool, column: u16, i: u16) -> bool
    ensures { result ≡ cond (eqb column i) true found }
{
    column == i || found
}

// Whether one of the columns is i. All are looked at, in vectors: `contains` and `any` leave at the first hit and look at one by one, which took
// 2.2 µs a sweep of 128 rows of 35 entries in the place of 1.1 (the two loops in C, clang -O2), and a sweep may take no more than it did.
#[tactic(auto, using(laws::proofs::Any::below_next), unfolding(laws::specs::Lists::any_below))]
fn meets(cols: &[u16], i: u16) -> bool
    ensures { result ≡ any_below (length cols.now) (λ e. eqb (get_or cols.now e 0) i) }
{
    let mut found = false;
    for e in 0..cols.len() {
        found = found_by(found, cols[e], i);
    }
    found
}

// Whether there is a row i + 1 none of whose entries lies in column i. `i as u16` after the test: tried as `u16::try_from(i)`, which proves with no answer, but takes 1.014 of
// the instructions of a sweep at rank 4 (1.0004 at rank 17), and a sweep may take no more than it did.
#[tactic(auto, unfolding(crate::specs::Sweep::meets_next))]
pub fn next_apart(cols: &[u16], starts: &[usize], m: usize, i: usize) -> bool
    requires { (m < length starts.now) × ((k : ℕ) → k < m → get_or starts.now k 0 ≤ get_or starts.now (k + 1) 0) × ((k : ℕ) → k < m → get_or starts.now (k + 1) 0 ≤ length cols.now) × (i < m) }
    ensures { result ≡ true → (i + 1 < m) × (i < 65536) × (meets_next cols.now starts.now i ≡ false) }
{
    if i + 1 < m {
        if i < 65536 {
            let lo = starts[i + 1];
            let hi = starts[i + 1 + 1];
            if meets(&cols[lo..hi], i as u16) {
                return false;
            }
            return true;
        }
    }
    false
}
