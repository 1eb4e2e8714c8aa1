// What each call refuses, by its number. These write nothing.
// `m, x, y` and `m, signs, words` are in no struct: they are the arguments of a call of the C interface.
ghost use Rattle.std.specs.Prelude.{◌≡◌};
ghost use Rattle.refusal.specs.Number.{numbered};
ghost use Rattle.sign_calls.specs.Numbers.{distance_short, distance_number, pack_short, pack_number};

use refusal::Refusal;
use sign_words::size::sign_words;
use tables::check::{bad_signs, signs_number, too_short};

// 31 of `distance`.
#[tactic(auto, unfolding(crate::specs::Numbers::distance_short, laws::specs::Refusal::any_of))]
fn distance_short(m: usize, x: &[u64], y: &[u64]) -> bool
    ensures { result ≡ distance_short m x.now y.now }
{
    let bad = bad_signs(m);
    let needed = sign_words(m);
    too_short(bad, needed, x.len()) || too_short(bad, needed, y.len())
}

// The number of `distance`.
#[tactic(auto, unfolding(crate::specs::Numbers::distance_number))]
pub fn distance_number(m: usize, x: &[u64], y: &[u64]) -> Result<(), Refusal>
    ensures { numbered result ≡ distance_number m x.now y.now }
{
    signs_number(distance_short(m, x, y), m)
}

// 31 of `pack_signs`.
#[tactic(auto, unfolding(crate::specs::Numbers::pack_short, laws::specs::Refusal::any_of))]
fn pack_short(m: usize, signs: &[u8], words: &[u64]) -> bool
    ensures { result ≡ pack_short m signs.now words.now }
{
    let bad = bad_signs(m);
    too_short(bad, m, signs.len()) || too_short(bad, sign_words(m), words.len())
}

// The number of `pack_signs`.
#[tactic(auto, unfolding(crate::specs::Numbers::pack_number))]
pub fn pack_number(m: usize, signs: &[u8], words: &[u64]) -> Result<(), Refusal>
    ensures { numbered result ≡ pack_number m signs.now words.now }
{
    signs_number(pack_short(m, signs, words), m)
}
