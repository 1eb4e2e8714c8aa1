// The choice that signs decode to. `m, signs, b` are in no struct: they are the arguments of a call of the C interface.
ghost use Rattle.std.specs.Prelude.{◌≡◌, ◌-◌};
ghost use Rattle.laws.specs.Lists.{fill};
ghost use Rattle.tables.specs.Cost.{decoded_byte};
ghost use Rattle.refusal.specs.Number.{numbered};
ghost use Rattle.table_calls.specs.Answer.{kept_if_refused};
ghost use Rattle.table_calls.specs.Numbers.{decode_short, decode_number};

use refusal::Refusal;
use tables::check::{bad_signs, signs_number};
use tables::objective;

// 31 of `qubo_binary_from_sign_solution`, for m signs and a choice of so many bytes.
#[tactic(auto, unfolding(tables::specs::Check::bad_signs, crate::specs::Numbers::decode_short, laws::specs::Refusal::any_of, laws::specs::Refusal::short))]
fn decode_short(m: usize, signs: &[u8], b: &[u8]) -> bool
    ensures { result ≡ decode_short m signs.now b.now }
{
    !bad_signs(m) && (signs.len() < m || b.len() < m - 1)
}

// The number of `qubo_binary_from_sign_solution`.
#[tactic(auto, unfolding(crate::specs::Numbers::decode_number))]
fn decode_number(m: usize, signs: &[u8], b: &[u8]) -> Result<(), Refusal>
    ensures { numbered result ≡ decode_number m signs.now b.now }
{
    signs_number(decode_short(m, signs, b), m)
}

// Wagon i is 1 exactly where sign i differs from the anchor's, the last.
#[tactic(auto, unfolding(crate::specs::Answer::answered))]
pub fn qubo_binary_from_sign_solution(m: usize, signs: &[u8], b: &mut [u8]) -> Result<(), Refusal>
    ensures { (numbered result ≡ decode_number m signs.now b.old)
        × (b.new ≡ kept_if_refused (decode_number m signs.now b.old) b.old (fill (decoded_byte (m - 1) signs.now) (m - 1) b.old)) }
{
    decode_number(m, signs, b)?;
    objective::qubo_binary_from_sign_solution(m - 1, signs, b);
    Ok(())
}
