// How an entry of row `vertex` enters the sums of its gradient.

ghost use Rattle.std.specs.Prelude.{eqb};
ghost use Rattle.ieee.specs.Floats.{◌-ᶠ◌};

use factor::term::Term;

// The terms of the negated gradient of row `vertex`: every entry off the diagonal, subtracted. `Beside` in step_rules adds them. One type for both would have the operation as a parameter:
// a trait of its own, with its law and two impls, for the two lines here that differ.
#[derive(Clone, Copy)]
pub struct Against {
    pub vertex: usize,
}

impl Term for Against {
    ghost joins = { λ t. ◌-ᶠ◌ };

    ghost leaves = { λ t k. eqb k t.vertex };

    fn joined(self, sum: f64, share: f64) -> f64 {
        sum - share
    }

    fn leaves_out(self, k: usize) -> bool {
        k == self.vertex
    }
}
