// One sign of a choice in words, and a copy of words.
ghost use Rattle.std.specs.Prelude.{◌≡◌, ◌*◌, ◌^◌, ◌<◌, length};
ghost use Rattle.std.specs.Int.{bit_at};
ghost use Rattle.sign_words.specs.Packed.{sign_in, flip_in, Flipped};

// Bit i of a word. `as`: no `From` takes a u64 to a u8; a rest by 2 fits.
fn bit(w: u64, i: usize) -> u8
    requires { i < 64 }
    ensures { result ≡ bit_at w i }
{
    ((w >> i) % 2) as u8
}

// Sign i.
#[tactic(auto, unfolding(crate::specs::Packed::sign_in))]
pub fn sign_in(words: &[u64], i: usize) -> u8
    requires { i < 64 * length words.now }
    ensures { result ≡ sign_in words.now i }
{
    bit(words[i / 64], i % 64)
}

// The number with bit i set.
fn one_at(i: usize) -> u64
    requires { i < 64 }
    ensures { result ≡ 2 ^ i }
{
    1 << i
}

// Flips sign i.
#[tactic(auto, using(crate::proofs::PackedLaws::flipped_signs), unfolding(crate::specs::Packed::flip_in))]
pub fn flip_in(words: &mut [u64], i: usize)
    requires { i < 64 * length words.old }
    ensures words_after { words.new ≡ flip_in i words.old }
    ensures flipped { Flipped i words.old words.new }
{
    words[i / 64] ^= one_at(i % 64);
}

// A level's words or objectives, copied. A loop: with the library's `copy_from_slice` in both places a search took 1.03 to 1.07 of its time (W 1, 16, 128).
#[tactic(auto, using(std::proofs::lemmas::List::same_lists))]
pub fn copy<T: Copy>(to: &mut [T], from: &[T])
    requires { length to.old ≡ length from.now }
    ensures { to.new ≡ from.now }
{
    for k in 0..from.len() {
        to[k] = from[k];
    }
}
