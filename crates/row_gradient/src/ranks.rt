// The gradient of a row, by its rank. Some ranks the code names, so that the compiler sees them: 4, 8, 16, and 17, which 0 means at 128 signs.

ghost use Rattle.std.specs.Prelude.{◌≡◌, length};
ghost use Rattle.factor.specs.Shapes.{ColumnsWithin};
ghost use Rattle.row_gradient.specs.Gradient.{gradient_of};

use super::against::Against;
use super::gradient::gradient_blocks;
use super::two_blocks::two_blocks;
use factor::block::block;
use factor::table::Row;

// Rank N: a block of N columns.
fn one_block<const N: usize>(row: Row, factor: &[f64], vertex: usize, g: &mut [f64])
    requires g_len { length g.old ≡ N }
    requires columns_within { ColumnsWithin row.cols.now (length g.old) factor.now }
    ensures { g.new ≡ gradient_of row.entry.cols.now row.entry.values.now factor.now vertex (length g.old) }
{
    block::<Against, N>(Against { vertex }, row, factor, N, 0, g);
}

// The negated gradient of row `vertex` without its diagonal: one sum per column over the row's entries, in one go over them at rank 1 and from 4 to 24.
pub fn gradient(row: Row, factor: &[f64], vertex: usize, g: &mut [f64])
    requires { ColumnsWithin row.cols.now (length g.old) factor.now }
    ensures { g.new ≡ gradient_of row.entry.cols.now row.entry.values.now factor.now vertex (length g.old) }
{
    let rank = g.len();
    match rank {
        4 => one_block::<4>(row, factor, vertex, g),
        5..=7 => two_blocks::<4, 4>(row, factor, vertex, rank, g),
        8 => one_block::<8>(row, factor, vertex, g),
        9..=15 => two_blocks::<8, 8>(row, factor, vertex, rank, g),
        16 => one_block::<16>(row, factor, vertex, g),
        17 => two_blocks::<16, 1>(row, factor, vertex, 17, g),
        18..=20 => two_blocks::<16, 4>(row, factor, vertex, rank, g),
        21..=24 => two_blocks::<16, 8>(row, factor, vertex, rank, g),
        _ => gradient_blocks(row, factor, vertex, g),
    }
}
