// The calls on choices in words.
ghost use Rattle.std.specs.Prelude.{◌≡◌};
ghost use Rattle.sign_words.specs.Distance.{ones_apart};
ghost use Rattle.sign_words.specs.Size.{sign_words};
ghost use Rattle.sign_calls.specs.Numbers.{distance_number};
ghost use Rattle.sign_calls.specs.Answers.{distance_answer, PacksSigns};
ghost use Rattle.exports.specs.Answers.{by_number, Stays};

use crate::answers::hand_over;
use refusal::number_in;
use sign_calls::{distance, pack_signs};

#[unsafe(no_mangle)]
pub extern "C" fn wagonplan_raw_distance(m: usize, x: &[u64], y: &[u64], signs: &mut u64) -> u8
    ensures signs_after { by_number result signs.new ≡ distance_answer (distance_number m x.now y.now) (ones_apart (sign_words m) x.now y.now) }
    ensures stays { Stays result signs.old signs.new }
{
    hand_over(distance(m, x, y), signs)
}

#[unsafe(no_mangle)]
pub extern "C" fn wagonplan_raw_pack_signs(m: usize, signs: &[u8], words: &mut [u64]) -> u8
    ensures { PacksSigns m signs.now words.old result words.new }
{
    number_in(pack_signs(m, signs, words))
}
