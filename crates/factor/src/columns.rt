// The sums over a row of the table a column at a time.

ghost use Rattle.std.specs.Prelude.{◌≡◌, ◌<◌, length};
ghost use Rattle.factor.specs.Shapes.{ColumnsWithin};
ghost use Rattle.factor.specs.Columns.{with_entry, sum_of_column, sums_of};

use super::table::Row;
use super::term::Term;

// The sum of a column with the entry at column k, whose element of the factor is x.
fn with_entry<T: Term>(term: T, sum: f64, k: usize, weight: f64, x: f64) -> f64
    ensures { result ≡ with_entry (T.joins term) (T.leaves term k) weight x sum }
{
    if term.leaves_out(k) {
        return sum;
    }
    term.joined(sum, weight * x)
}

// The sum of column j.
#[tactic(auto, unfolding(crate::specs::Columns::sum_to_column))]
pub fn column<T: Term>(term: T, row: Row, factor: &[f64], rank: usize, j: usize) -> f64
    requires j_lt_rank { j < rank }
    requires columns_within { ColumnsWithin row.cols.now rank factor.now }
    ensures { result ≡ sum_of_column (T.joins term) (T.leaves term) row.entry.cols.now row.entry.values.now factor.now rank j }
{
    let mut sum = 0.0;
    for e in 0..row.cols.len() {
        let k = usize::from(row.cols[e]);
        let place = k * rank + j;
        sum = with_entry(term, sum, k, row.values[e], factor[place]);
    }
    sum
}

// All columns, one by one: for ranks below the least block's width.
#[tactic(auto, using(laws::proofs::Made::tabulate_all, crate::proofs::ByColumns::sums_columns), unfolding(laws::specs::Lists::tabulate))]
pub(crate) fn put_columns<T: Term>(term: T, row: Row, factor: &[f64], g: &mut [f64])
    requires { ColumnsWithin row.cols.now (length g.old) factor.now }
    ensures { g.new ≡ sums_of (T.joins term) (T.leaves term) row.entry.cols.now row.entry.values.now factor.now (length g.old) }
{
    let rank = g.len();
    for j in 0..rank {
        g[j] = column(term, row, factor, rank, j);
    }
}
