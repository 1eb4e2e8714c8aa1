// The gradient of a row in one go over its entries, by two blocks: the first N columns and the last M, some of them twice; their sums are the
// same.

ghost use Rattle.std.specs.Prelude.{◌≡◌, ◌+◌, ◌*◌, ◌≤◌, length, take, drop};
ghost use Rattle.laws.specs.Rows.{map_first};
ghost use Rattle.ieee.specs.Floats.{at};
ghost use Rattle.factor.specs.Columns.{put_block};
ghost use Rattle.factor.specs.Shapes.{ColumnsWithin};
ghost use Rattle.row_gradient.specs.Gradient.{gradient_of};

use super::against::Against;
use factor::block::{add_entry, copy};
use factor::table::Row;

// The N sums, written from `offset` on.
fn put_sums<const N: usize>(g: &mut [f64], offset: usize, sums: &[f64; N])
    requires { offset + N ≤ length g.old }
    ensures { g.new ≡ put_block N offset (map_first (λ j old. at sums.now j) N (take N (drop offset g.old))) g.old }
{
    let end = offset + N;
    copy(&mut g[offset..end], sums);
}

// The gradient. The rank is the length of g; inlined, so that the compiler sees it where the caller names it.
#[tactic(auto, using(factor::proofs::ByColumns::block_start_lem))]
#[inline(always)]
pub fn two_blocks<const N: usize, const M: usize>(
    row: Row,
    factor: &[f64],
    vertex: usize,
    rank: usize,
    g: &mut [f64],
)
    requires in_bounds { (N ≤ length g.old) × (M ≤ length g.old) × (length g.old ≤ N + M) × (rank ≡ length g.old) }
    requires columns_within { ColumnsWithin row.cols.now (length g.old) factor.now }
    ensures { g.new ≡ gradient_of row.entry.cols.now row.entry.values.now factor.now vertex (length g.old) }
{
    let term = Against { vertex };
    let second = rank - M;
    let mut low = [0.0; N];
    let mut high = [0.0; M];
    for e in 0..row.cols.len() {
        let k = usize::from(row.cols[e]);
        let start = k * rank;
        let there = start + second;
        add_entry(term, &mut low, factor, k, row.values[e], start);
        add_entry(term, &mut high, factor, k, row.values[e], there);
    }
    put_sums(g, 0, &low);
    put_sums(g, second, &high);
}
