// What a call answered, handed to C: the number as the result, the value to the place lent for it.
ghost use Rattle.std.specs.Prelude.{◌≡◌, ◌≤◌, length};
ghost use Rattle.refusal.specs.Number.{in_numbers, numbered};
ghost use Rattle.exports.specs.Answers.{by_number, Stays, written};

use refusal::Refusal;
use slices::copy;

// A refusal leaves the place as it is.
pub fn hand_over<T: Copy>(answer: Result<T, Refusal>, place: &mut T) -> u8
    ensures place_after { by_number result place.new ≡ in_numbers answer }
    ensures stays { Stays result place.old place.new }
{
    match answer {
        Ok(value) => {
            *place = value;
            0
        }
        Err(refusal) => refusal.number(),
    }
}

// The same of a value of two parts, each with a place of its own.
pub fn hand_both<T: Copy, U: Copy>(
    answer: Result<(T, U), Refusal>,
    first: &mut T,
    second: &mut U,
) -> u8
    ensures places_after { by_number result (first.new, second.new) ≡ in_numbers answer }
    ensures stays { Stays result first.old first.new × Stays result second.old second.new }
{
    match answer {
        Ok((one, other)) => {
            *first = one;
            *second = other;
            0
        }
        Err(refusal) => refusal.number(),
    }
}

// A value in words, over the front of those lent for it; a refusal leaves them.
pub fn hand_words<const N: usize>(answer: Result<[u64; N], Refusal>, words: &mut [u64]) -> u8
    requires { N ≤ length words.old }
    ensures { (result ≡ numbered answer.entry) × (words.new ≡ written answer.entry words.old) }
{
    match answer {
        Ok(made) => {
            copy(&mut words[..N], &made);
            0
        }
        Err(refusal) => refusal.number(),
    }
}
