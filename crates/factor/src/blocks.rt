// The sums over a row of the table by blocks of columns, one sum per column: a column's sum runs over the row's entries in their
// order, whichever block it is in.

ghost use Rattle.std.specs.Prelude.{◌≡◌, ◌+◌, ◌≤◌, ◌<◌, length, take};
ghost use Rattle.laws.specs.Lists.{over, tabulate};
ghost use Rattle.factor.specs.Shapes.{ColumnsWithin};
ghost use Rattle.factor.specs.Columns.{sum_of_column, sums_of};

use super::block::put_block;
use super::columns::{column, put_columns};
use super::table::Row;
use super::term::Term;

// As many whole blocks of N columns as there are from `first` on; the first column that is left.
fn put_blocks<T: Term, const N: usize>(
    term: T,
    row: Row,
    factor: &[f64],
    first: usize,
    g: &mut [f64],
) -> usize
    requires n_positive { 0 < N }
    requires first_in_bounds { first ≤ length g.old }
    requires columns_within { ColumnsWithin row.cols.now (length g.old) factor.now }
    requires g_value { take first g.old ≡ tabulate (sum_of_column (T.joins term) (T.leaves term) row.cols.now row.values.now factor.now (length g.old)) first }
    ensures { (result ≤ length g.old) × (length g.old < result + N)
        × (g.new ≡ over (tabulate (sum_of_column (T.joins term) (T.leaves term) row.entry.cols.now row.entry.values.now factor.now (length g.old)) result) g.old) }
{
    let rank = g.len();
    let count = (rank - first) / N;
    for b in 0..count {
        let offset = first + b * N;
        put_block::<T, N>(term, row, factor, offset, g);
    }
    first + count * N
}

// The last columns, fewer than 4: one by itself; two or three by a last block of 4 columns, which goes over some once more:
// their sums are the same.
fn put_rest<T: Term>(term: T, row: Row, factor: &[f64], first: usize, g: &mut [f64])
    requires in_bounds { (4 ≤ length g.old) × (first ≤ length g.old) × (length g.old < first + 4) }
    requires columns_within { ColumnsWithin row.cols.now (length g.old) factor.now }
    requires g_value { take first g.old ≡ tabulate (sum_of_column (T.joins term) (T.leaves term) row.cols.now row.values.now factor.now (length g.old)) first }
    ensures { g.new ≡ tabulate (sum_of_column (T.joins term) (T.leaves term) row.entry.cols.now row.entry.values.now factor.now (length g.old)) (length g.old) }
{
    let rank = g.len();
    if first == rank {
        return;
    }
    if rank - first == 1 {
        g[first] = column(term, row, factor, rank, first);
        return;
    }
    put_block::<T, 4>(term, row, factor, rank - 4, g);
}

// All columns, for a rank of at least 4.
#[tactic(auto, unfolding(laws::specs::Lists::tabulate))]
fn put_all<T: Term>(term: T, row: Row, factor: &[f64], g: &mut [f64])
    requires in_bounds { 4 ≤ length g.old }
    requires columns_within { ColumnsWithin row.cols.now (length g.old) factor.now }
    ensures { g.new ≡ tabulate (sum_of_column (T.joins term) (T.leaves term) row.entry.cols.now row.entry.values.now factor.now (length g.old)) (length g.old) }
{
    let whole = put_blocks::<T, 16>(term, row, factor, 0, g);
    let first = put_blocks::<T, 4>(term, row, factor, whole, g);
    put_rest(term, row, factor, first, g);
}

// The sums, at any rank.
#[tactic(auto, using(crate::proofs::ByColumns::sums_columns))]
pub fn put_sums<T: Term>(term: T, row: Row, factor: &[f64], g: &mut [f64])
    requires { ColumnsWithin row.cols.now (length g.old) factor.now }
    ensures { g.new ≡ sums_of (T.joins term) (T.leaves term) row.entry.cols.now row.entry.values.now factor.now (length g.old) }
{
    if g.len() < 4 {
        put_columns(term, row, factor, g);
    } else {
        put_all(term, row, factor, g);
    }
}
