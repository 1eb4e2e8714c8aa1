// A choice of bytes into words and out again.
ghost use Rattle.std.specs.Prelude.{◌≡◌, ◌*◌, ◌≤◌, ◌<◌, length};
ghost use Rattle.laws.specs.Lists.{elem};
ghost use Rattle.sign_words.specs.Signs.{sign_digit, Binary};
ghost use Rattle.sign_words.specs.Packed.{unpacked, word, digit_at, packed, Packs};

use crate::words::sign_in;

// A sign's byte as 0 or 1: any byte but 0 is 1.
pub fn sign_digit(x: u8) -> u8
    ensures { result ≡ sign_digit x }
{
    u8::from(x != 0)
}

// The bit of a sign's byte; 0 behind the last sign.
fn sign_bit(signs: &[u8], i: usize) -> u64
    ensures { result ≡ sign_digit (elem signs.now i) }
{
    u64::from(i < signs.len() && signs[i] != 0)
}

// Word k of the signs.
fn pack_word(signs: &[u8], k: usize) -> u64
    requires { k < 65536 }
    ensures { result ≡ word (digit_at signs.now k) 64 }
{
    let mut w: u64 = 0;
    for j in (0..64).rev() {
        w = 2 * w + sign_bit(signs, 64 * k + j);
    }
    w
}

// The signs in words, as many as the slice holds; any byte but 0 is −, and unused bits are 0.
#[tactic(auto, unfolding(laws::specs::Lists::tabulate))]
pub fn pack(signs: &[u8], words: &mut [u64])
    requires { (length words.old ≤ 65536) × (length signs.now ≤ 64 * length words.old) }
    ensures words_after { words.new ≡ packed (length words.old) signs.now }
    ensures packs { Packs (length signs.now) signs.now words.new }
{
    for k in 0..words.len() {
        words[k] = pack_word(signs, k);
    }
}

// The signs, a byte for each, 0 or 1, as many as the slice holds.
#[tactic(auto, unfolding(laws::specs::Lists::tabulate), using(laws::proofs::Made::tabulate_next))]
pub fn unpack(words: &[u64], signs: &mut [u8])
    requires { length signs.old ≤ 64 * length words.now }
    ensures signs_after { signs.new ≡ unpacked (length signs.old) words.now }
    ensures binary { Binary signs.new }
{
    for i in 0..signs.len() {
        signs[i] = sign_in(words, i);
    }
}
