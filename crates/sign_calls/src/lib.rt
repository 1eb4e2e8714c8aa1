// The calls on choices in words. Neither has a `requires`: what can't be used is refused, and a refusal writes nothing.
// `m, x, y` and `m, signs, words` are in no struct: they are the arguments of a call of the C interface.
#![tactic(auto)]

mod numbers;

ghost use Rattle.std.specs.Prelude.{◌≡◌};
ghost use Rattle.refusal.specs.Number.{numbered, in_numbers};
ghost use Rattle.sign_words.specs.Size.{sign_words};
ghost use Rattle.sign_words.specs.Distance.{ones_apart};
ghost use Rattle.sign_calls.specs.Numbers.{distance_number};
ghost use Rattle.sign_calls.specs.Answers.{distance_answer, PacksSigns};

use crate::numbers::{distance_number, pack_number};
use refusal::Refusal;
use sign_words::distance;
use sign_words::pack::pack;
use sign_words::size::sign_words;

// The number of ones in the exclusive or of two choices of m signs: of all their words as lent, so a set bit behind the last sign counts too. Words
// behind those of m signs are not read.
#[tactic(auto, using(crate::proofs::Accepting::distance_accepted, crate::proofs::Accepting::first_words, table_calls::proofs::Accepting::accepted_is, table_calls::proofs::Accepting::refused_is))]
pub fn distance(m: usize, x: &[u64], y: &[u64]) -> Result<u64, Refusal>
    ensures { in_numbers result ≡ distance_answer (distance_number m x.now y.now) (ones_apart (sign_words m) x.now y.now) }
{
    distance_number(m, x, y)?;
    let count = sign_words(m);
    Ok(distance::distance(&x[..count], &y[..count]))
}

// The first m signs, any byte but 0 for −, into the words that a choice of m signs takes, unused bits 0.
#[tactic(auto, using(crate::proofs::Accepting::pack_room, crate::proofs::Accepting::packs_accepted))]
pub fn pack_signs(m: usize, signs: &[u8], words: &mut [u64]) -> Result<(), Refusal>
    ensures { PacksSigns m signs.now words.old (numbered result) words.new }
{
    pack_number(m, signs, words)?;
    let count = sign_words(m);
    pack(&signs[..m], &mut words[..count]);
    Ok(())
}
