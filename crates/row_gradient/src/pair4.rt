// The gradients of two rows that follow each other, at rank 4, in one go over the entries of both: a column's sum waits for its last
// subtraction, and the two rows' don't wait for each other.

ghost use Rattle.std.specs.Prelude.{◌≡◌, ◌+◌, ◌≤◌, ◌<◌, length};
ghost use Rattle.factor.specs.Shapes.{ColumnsWithin};
ghost use Rattle.row_gradient.specs.Columns.{block_to};
ghost use Rattle.row_gradient.specs.Gradient.{gradient_of};

use super::against::Against;
use factor::block::{add_entry, copy};
use factor::table::Row;

// The 4 sums of row `vertex` less the entries from `first` on.
fn subtract_rest(row: Row, factor: &[f64], vertex: usize, first: usize, sums: &mut [f64; 4])
    requires first_in_bounds { first ≤ length row.cols.now }
    requires columns_within { ColumnsWithin row.cols.now 4 factor.now }
    requires sums_value { sums.old ≡ block_to row.cols.now row.values.now factor.now vertex 4 0 4 first }
    ensures { sums.new ≡ block_to row.entry.cols.now row.entry.values.now factor.now vertex 4 0 4 (length row.entry.cols.now) }
{
    let term = Against { vertex };
    for e in first..row.cols.len() {
        let k = usize::from(row.cols[e]);
        let start = k * 4;
        add_entry(term, sums, factor, k, row.values[e], start);
    }
}

// The gradients of row `vertex`, of the entries `row`, and of the next, of the entries `other`.
#[tactic(auto, using(factor::proofs::ByColumns::block_start_lem))]
pub fn gradients(row: Row, other: Row, factor: &[f64], vertex: usize, g: &mut [f64], h: &mut [f64])
    requires g_len { (length g.old ≡ 4) × (length h.old ≡ 4) × (vertex < 65536) }
    requires columns_within { ColumnsWithin row.cols.now 4 factor.now }
    requires columns_within_2 { ColumnsWithin other.cols.now 4 factor.now }
    ensures g_after { g.new ≡ gradient_of row.entry.cols.now row.entry.values.now factor.now vertex 4 }
    ensures h_after { h.new ≡ gradient_of other.entry.cols.now other.entry.values.now factor.now (vertex + 1) 4 }
{
    let next = vertex + 1;
    let first = Against { vertex };
    let second = Against { vertex: next };
    let both = row.cols.len().min(other.cols.len());
    let mut a = [0.0; 4];
    let mut b = [0.0; 4];
    for e in 0..both {
        let k = usize::from(row.cols[e]);
        let l = usize::from(other.cols[e]);
        let start = k * 4;
        let there = l * 4;
        add_entry(first, &mut a, factor, k, row.values[e], start);
        add_entry(second, &mut b, factor, l, other.values[e], there);
    }
    subtract_rest(row, factor, vertex, both, &mut a);
    subtract_rest(other, factor, next, both, &mut b);
    copy(g, &a);
    copy(h, &b);
}
