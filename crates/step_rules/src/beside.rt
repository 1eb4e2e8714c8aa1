// How an entry of row `vertex` enters the sums of rule 2.

ghost use Rattle.std.specs.Prelude.{eqb};
ghost use Rattle.ieee.specs.Floats.{◌+ᶠ◌};

use factor::term::Term;

// The terms of the sums beside row `vertex`: every entry off the diagonal, added. row_gradient's against.rt says why it has a type of its own.
#[derive(Clone, Copy)]
pub struct Beside {
    pub vertex: usize,
}

impl Term for Beside {
    ghost joins = { λ t. ◌+ᶠ◌ };

    ghost leaves = { λ t k. eqb k t.vertex };

    fn joined(self, sum: f64, share: f64) -> f64 {
        sum + share
    }

    fn leaves_out(self, k: usize) -> bool {
        k == self.vertex
    }
}
