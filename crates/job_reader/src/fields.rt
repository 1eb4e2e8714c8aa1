// Fields of eight bytes that are known to be there, as what they stand for.
ghost use Rattle.std.specs.Prelude.{◌≡◌, ◌+◌, ◌≤◌, ℕ, List, length};
ghost use Rattle.job_reader.specs.Bytes.{signed_at, double_at};

use crate::big_endian;
use ieee::bits::{double_of, signed_of};

// A type of which a record holds values, in eight bytes each.
pub trait Stored: Copy + Drop {
    ghost stored: { List ℕ → ℕ → Self };

    // The value at `at`.
    fn stored_at(bytes: &[u8], at: usize) -> Self
        requires { at + 8 ≤ length bytes.now }
        ensures { result ≡ stored bytes.now at };
}

impl Stored for i64 {
    ghost stored = { signed_at };

    fn stored_at(bytes: &[u8], at: usize) -> i64 {
        signed_of(big_endian(bytes, at, 8))
    }
}

impl Stored for f64 {
    ghost stored = { double_at };

    fn stored_at(bytes: &[u8], at: usize) -> f64 {
        double_of(big_endian(bytes, at, 8))
    }
}
