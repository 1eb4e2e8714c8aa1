// The rows of a level, in words (sign_words), and the signs of a choice, a byte for each.
ghost use Rattle.std.specs.Prelude.{◌≡◌, ◌*◌, ◌<◌, length, get_or};
ghost use Rattle.sign_words.specs.Signs.{flip_byte, flip_sign};
ghost use Rattle.sign_words.specs.Packed.{flip_in};

use sign_words::words::{copy, flip_in};

// The byte of sign `i`.
pub fn sign_at(row: &[u8], i: usize) -> u8
    requires { i < length row.now }
    ensures { result ≡ get_or row.now i 0 }
{
    row[i]
}

// The other sign.
#[tactic(auto, unfolding(sign_words::specs::Signs::flip_byte))]
pub fn flip_byte(sign: u8) -> u8
    ensures { result ≡ flip_byte sign }
{
    u8::from(sign == 0)
}

// Flips sign `i`.
#[tactic(auto, unfolding(sign_words::specs::Signs::flip_sign))]
pub fn flip_sign(row: &mut [u8], i: usize)
    requires { i < length row.old }
    ensures { row.new ≡ flip_sign i row.old }
{
    row[i] = flip_byte(row[i]);
}

// The parent's signs, with sign `i` flipped.
pub fn copy_flip(row: &mut [u64], parent: &[u64], i: usize)
    requires { (length row.old ≡ length parent.now) × (i < 64 * length parent.now) }
    ensures { row.new ≡ flip_in i parent.now }
{
    copy(row, parent);
    flip_in(row, i);
}
