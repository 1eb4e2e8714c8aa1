// The table times the factor (002). The factor and its rank stay two parameters: as one value (`Factor { rank, numbers }`, tried in `multiply` and `grad`) each clause
// says `factor.entry.numbers.now factor.entry.rank` for `factor.now rank`, and callers, who write the slice between calls, make the value anew at each.

ghost use Rattle.std.specs.Prelude.{◌≡◌, ◌+◌, ◌*◌, ◌≤◌, length};
ghost use Rattle.laws.specs.Rows.{set_row};
ghost use Rattle.factor.specs.Shapes.{ColumnsWithin, RowFits, Shaped};
ghost use Rattle.factor.specs.Multiply.{product_row, product_at, product_of, grad_of};

use super::blocks::put_sums;
use super::rows::multiply_by;
use super::table::{Prepared, Row};
use super::term::Product;

// One row of the matrix times the factor.
#[tactic(auto, using(crate::proofs::ByColumns::product_sums))]
pub fn multiply_row(row: Row, factor: &[f64], out: &mut [f64])
    requires { ColumnsWithin row.cols.now (length out.old) factor.now }
    ensures { out.new ≡ product_row row.entry.cols.now row.entry.values.now factor.now (length out.old) }
{
    put_sums(Product, row, factor, out);
}

// Row i of the matrix times the factor, written to row i of `out`.
// Tried by `at_row`: of a closure that captures a `Row` nothing is known after the call, and with two clauses of its own it is longer than the cut.
fn multiply_at(table: Prepared, factor: &[f64], rank: usize, i: usize, out: &mut [f64])
    requires row_fits { RowFits table.cols.now table.values.now table.starts.now factor.now rank i }
    requires rank_in_bounds { i * rank + rank ≤ length out.old }
    ensures { out.new ≡ set_row rank out.old i (product_at table.entry.cols.now table.entry.values.now table.entry.starts.now factor.now rank i) }
{
    let start = i * rank;
    let end = start + rank;
    multiply_row(table.row(i), factor, &mut out[start..end]);
}

// The matrix times the factor.
#[tactic(auto, using(crate::proofs::Shaping::product_next), unfolding(crate::specs::Multiply::product_of))]
pub fn multiply(table: Prepared, factor: &[f64], rank: usize, m: usize, out: &mut [f64])
    requires shaped { Shaped table.cols.now table.values.now table.starts.now factor.now m rank }
    requires out_len { length out.old ≡ m * rank }
    ensures { out.new ≡ product_of table.entry.cols.now table.entry.values.now table.entry.starts.now factor.now rank m }
{
    for i in 0..m {
        multiply_at(table, factor, rank, i, out);
    }
}

// The gradient of the objective: twice the matrix times the factor.
#[tactic(auto, unfolding(crate::specs::Multiply::grad_of))]
pub fn grad(table: Prepared, factor: &[f64], rank: usize, m: usize, out: &mut [f64])
    requires shaped { Shaped table.cols.now table.values.now table.starts.now factor.now m rank }
    requires out_len { length out.old ≡ m * rank }
    ensures { out.new ≡ grad_of table.entry.cols.now table.entry.values.now table.entry.starts.now factor.now rank m }
{
    multiply(table, factor, rank, m, out);
    multiply_by(out, 2.0);
}
