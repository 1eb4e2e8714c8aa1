// A block of N columns of the sums over a row of the table, which stay in registers (002, `grad`; 001, `gradient_block::<N>`). The row and the factor stay
// two parameters, here and in columns.rt and blocks.rt: the rank is most often the length of g, so that a value of both, with its rank and what is asked of
// its columns, would have each function ask that its rank is that length, a clause for a clause. The term and the row stay two as well: `add`,
// `add_entry` and `with_entry` take the term alone, and of a value of both each clause would say `both.entry.row.cols.now` for `row.entry.cols.now`.

ghost use Rattle.std.specs.Prelude.{◌≡◌, false, ℕ, ◌+◌, ◌*◌, ◌≤◌, ◌<◌, length, get_or, take, drop};
ghost use Rattle.laws.specs.Rows.{map_first};
ghost use Rattle.ieee.specs.Floats.{at};
ghost use Rattle.factor.specs.Shapes.{ColumnsWithin};
ghost use Rattle.factor.specs.Columns.{block_entry, block_to, put_block};

use super::table::Row;
use super::term::Term;

// The N sums with weight times source.
#[tactic(auto, unfolding(laws::specs::Rows::map_first))]
fn add<T: Term, const N: usize>(term: T, sums: &mut [f64; N], weight: f64, source: &[f64])
    requires { length source.now ≡ N }
    ensures { sums.new ≡ block_entry (T.joins term) false N weight source.now sums.old }
{
    for j in 0..N {
        sums[j] = term.joined(sums[j], weight * source[j]);
    }
}

// One entry of the row, at column k, whose N elements of the factor lie from `start` on.
pub fn add_entry<T: Term, const N: usize>(
    term: T,
    sums: &mut [f64; N],
    factor: &[f64],
    k: usize,
    weight: f64,
    start: usize,
)
    requires { start + N ≤ length factor.now }
    ensures { sums.new ≡ block_entry (T.joins term) (T.leaves term k) N weight (take N (drop start factor.now)) sums.old }
{
    if term.leaves_out(k) {
        return;
    }
    let end = start + N;
    add(term, sums, weight, &factor[start..end]);
}

// The N sums, copied.
#[tactic(auto, unfolding(laws::specs::Rows::map_first))]
pub fn copy<const N: usize>(out: &mut [f64], sums: &[f64; N])
    requires { length out.old ≡ N }
    ensures { out.new ≡ map_first (λ j old. at sums.now j) N out.old }
{
    // A loop: with `copy_from_slice` a product (transcribed to Rust, callgrind) took 0.996 of the instructions at rank 4, 1.0014 at 17 and 1.0022 at 32, and no
    // product may take more than it did.
    for j in 0..N {
        out[j] = sums[j];
    }
}

// The sums of N columns from `offset` on. Inlined, so that the compiler sees the rank where the caller names it.
#[tactic(auto, using(crate::proofs::ByColumns::block_start_lem, crate::proofs::ByColumns::block_next))]
#[inline(always)]
pub fn block<T: Term, const N: usize>(
    term: T,
    row: Row,
    factor: &[f64],
    rank: usize,
    offset: usize,
    out: &mut [f64],
)
    requires out_len { length out.old ≡ N }
    requires by_index { (e : ℕ) → e < length row.cols.now → get_or row.cols.now e 0 * rank + offset + N ≤ length factor.now }
    ensures { out.new ≡ block_to (T.joins term) (T.leaves term) row.entry.cols.now row.entry.values.now factor.now rank offset N (length row.entry.cols.now) }
{
    let mut sums = [0.0; N];
    for e in 0..row.cols.len() {
        let k = usize::from(row.cols[e]);
        let start = k * rank + offset;
        add_entry(term, &mut sums, factor, k, row.values[e], start);
    }
    copy(out, &sums);
}

// The columns from `offset` on, written where they lie in g.
pub fn put_block<T: Term, const N: usize>(
    term: T,
    row: Row,
    factor: &[f64],
    offset: usize,
    g: &mut [f64],
)
    requires offset_in_bounds { offset + N ≤ length g.old }
    requires columns_within { ColumnsWithin row.cols.now (length g.old) factor.now }
    ensures { g.new ≡ put_block N offset
        (block_to (T.joins term) (T.leaves term) row.entry.cols.now row.entry.values.now factor.now (length g.old) offset N (length row.entry.cols.now)) g.old }
{
    let rank = g.len();
    let end = offset + N;
    block::<T, N>(term, row, factor, rank, offset, &mut g[offset..end]);
}
