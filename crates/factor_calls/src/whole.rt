// 002's `dual_variables(Q, V)`: over the whole table, the diagonal in it, in one pass over the entries; and the same with equation 8's denominator. The
// result field of a run is `maxcut_oracle::objective::dual_variables`.

ghost use Rattle.std.specs.Prelude.{◌≡◌, ◌+◌, ◌*◌, ◌≤◌, length};
ghost use Rattle.laws.specs.Rows.{row_of};
ghost use Rattle.ieee.specs.Floats.{◌/ᶠ◌, eighth_of};
ghost use Rattle.sign_table.specs.Walk.{At};
ghost use Rattle.factor.specs.Vectors.{add_scaled};
ghost use Rattle.factor.specs.Norms.{dot_of};
ghost use Rattle.maxcut_oracle.specs.Whole.{whole_row};
ghost use Rattle.factor_calls.specs.Equation8.{value_of, multipliers_by};
ghost use Rattle.tables.specs.Entries.{listed};

use super::qv::Qv;
use factor::rows::{add_scaled, clear, row};
use factor::sums::dot;

// An entry of column j and `value` eighths: `value` / 8 times row j of the factor, added to `sums`.
fn take_entry(j: usize, value: i64, factor: &[f64], rank: usize, sums: &mut [f64])
    requires { (j * rank + rank ≤ length factor.now) × (length sums.old ≡ rank) }
    ensures { sums.new ≡ add_scaled (eighth_of value) (row_of rank factor.now j) sums.old }
{
    add_scaled(sums, ieee::eighth(value), row(factor, rank, j));
}

// Row i of the table, whose entries start at `from`, times the factor; the result is where those of row i + 1 start.
fn whole_row(qv: Qv, i: usize, from: usize, sums: &mut [f64]) -> usize
    requires { At (listed qv.table) from i 0 × (length sums.old ≡ qv.rank) }
    ensures sums_after { let q = qv.entry in sums.new ≡ whole_row (listed q.table) q.rank q.factor.now i }
    ensures at { At (listed qv.entry.table) result (i + 1) 0 }
{
    clear(sums);
    let table = qv.table;
    for e in from..table.count {
        if usize::from(table.rows[e]) != i {
            return e;
        }
        take_entry(
            usize::from(table.cols[e]),
            table.values[e],
            qv.factor,
            qv.rank,
            sums,
        );
    }
    table.count
}

// A row's sums times the row, divided by the row's product with itself: both products in one pass.
#[tactic(auto, unfolding(factor::specs::Norms::dot_to))]
fn quotient(sums: &[f64], v: &[f64]) -> f64
    requires { length sums.now ≡ length v.now }
    ensures { result ≡ dot_of sums.now v.now /ᶠ dot_of v.now v.now }
{
    let mut above = 0.0;
    let mut below = 0.0;
    for i in 0..v.len() {
        let x = v[i];
        above = above + sums[i] * x;
        below = below + x * x;
    }
    above / below
}

// A row's multiplier, from its sums. `divided` stays a flag, for a closure would be no plainer: the definition `multipliers_by` has the flag, so that
// it and its theorems speak of both calls in a word.
fn value_of(divided: bool, sums: &[f64], v: &[f64]) -> f64
    requires { length sums.now ≡ length v.now }
    ensures { result ≡ value_of divided sums.now v.now }
{
    if divided {
        return quotient(sums, v);
    }
    dot(sums, v)
}

// The multipliers of m rows over the whole table. What is left in `sums` is free.
pub fn whole_multipliers(divided: bool, qv: Qv, sums: &mut [f64], dual: &mut [f64])
    requires { (length sums.old ≡ qv.rank) × (length dual.old ≡ qv.m) }
    ensures { let q = qv.entry in dual.new ≡ multipliers_by divided (listed q.table) q.m q.rank q.factor.now }
{
    let mut from = 0;
    for i in 0..qv.m {
        from = whole_row(qv, i, from, sums);
        dual[i] = value_of(divided, sums, row(qv.factor, qv.rank, i));
    }
}
