// Arrays for the float work and for the signs, of which the first places are used: every place holds 0. They stay
// functions of their own: one generic function would be `[zero; N]` itself, and each caller would have to say type and size.
ghost use Rattle.std.specs.Prelude.{◌≡◌, ◌+◌, length, replicate};
ghost use Rattle.ieee.specs.Floats.{zero64};
ghost use Rattle.limits.specs.Limits.{most_signs, most_rank, most_factor};

use limits::{MOST_FACTOR, MOST_RANK, MOST_SIGNS};

// A place more than a factor has.
const SUMS: usize = MOST_FACTOR + 1;

// Rows of as many numbers as a factor's.
pub fn rows_of_numbers() -> [f64; MOST_FACTOR]
    ensures value { result ≡ replicate most_factor zero64 }
    ensures most_factor_value { most_factor ≡ length result }
{
    [0.0; MOST_FACTOR]
}

// The same with a place behind them: beside the others a sweep's sums then start where 16 divides. Without it rule 2 took 7 % more (docs/DECISIONS.md 96; measured
// before a prepared table was one value, and not since).
pub fn rows_of_sums() -> [f64; SUMS]
    ensures value { result ≡ replicate (most_factor + 1) zero64 }
    ensures most_factor_value { most_factor + 1 ≡ length result }
{
    [0.0; SUMS]
}

// A number for each sign.
pub fn numbers() -> [f64; MOST_SIGNS]
    ensures value { result ≡ replicate most_signs zero64 }
    ensures most_signs_value { most_signs ≡ length result }
{
    [0.0; MOST_SIGNS]
}

// A direction.
pub fn direction() -> [f64; MOST_RANK]
    ensures value { result ≡ replicate most_rank zero64 }
    ensures most_rank_value { most_rank ≡ length result }
{
    [0.0; MOST_RANK]
}

// Signs.
pub fn signs() -> [u8; MOST_SIGNS]
    ensures value { result ≡ replicate most_signs 0 }
    ensures most_signs_value { most_signs ≡ length result }
{
    [0; MOST_SIGNS]
}
