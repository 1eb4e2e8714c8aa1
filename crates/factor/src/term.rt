// How an entry of a row of the table enters the sums over the row: `Product` here adds it, row_gradient's `Against` subtracts it
// unless it is the diagonal's, and step_rules' `Beside` adds it unless it is the diagonal's.

ghost use Rattle.std.specs.Prelude.{◌≡◌, ℕ, Bool, false, Float};
ghost use Rattle.ieee.specs.Floats.{◌+ᶠ◌};

pub trait Term: Copy + Drop {
    ghost joins: { Self → Float → Float → Float };

    ghost leaves: { Self → ℕ → Bool };

    // The sum with an entry's share, its value times an element of the factor.
    fn joined(self, sum: f64, share: f64) -> f64
        ensures { result ≡ joins self sum share };

    // Whether the entry at column k enters no sum.
    fn leaves_out(self, k: usize) -> bool
        ensures { result ≡ leaves self k };
}

// The terms of the table times the factor: every entry, added.
#[derive(Clone, Copy)]
pub struct Product;

impl Term for Product {
    ghost joins = { λ t. ◌+ᶠ◌ };

    ghost leaves = { λ t k. false };

    fn joined(self, sum: f64, share: f64) -> f64 {
        sum + share
    }

    fn leaves_out(self, k: usize) -> bool {
        false
    }
}
