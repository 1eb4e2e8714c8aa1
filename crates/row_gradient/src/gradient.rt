// The gradient of a row by blocks of columns, one sum per column (001, `coordinate_sweep`).

ghost use Rattle.std.specs.Prelude.{◌≡◌, length};
ghost use Rattle.factor.specs.Shapes.{ColumnsWithin};
ghost use Rattle.row_gradient.specs.Gradient.{gradient_of};

use super::against::Against;
use factor::blocks::put_sums;
use factor::table::Row;

// The negated gradient of row `vertex` without its diagonal, at any rank.
#[tactic(auto, unfolding(crate::specs::Gradient::gradient_of))]
pub fn gradient_blocks(row: Row, factor: &[f64], vertex: usize, g: &mut [f64])
    requires { ColumnsWithin row.cols.now (length g.old) factor.now }
    ensures { g.new ≡ gradient_of row.entry.cols.now row.entry.values.now factor.now vertex (length g.old) }
{
    put_sums(Against { vertex }, row, factor, g);
}
