// How many words a choice takes.
ghost use Rattle.std.specs.Prelude.{◌≡◌};
ghost use Rattle.sign_words.specs.Size.{sign_words};

use limits::{MOST_WORDS, SMALL_SIGNS, SMALL_WORDS};

// The words of a choice of m signs.
#[tactic(auto, unfolding(crate::specs::Size::sign_words))]
pub fn sign_words(m: usize) -> usize
    ensures { result ≡ sign_words m }
{
    if m <= SMALL_SIGNS {
        return SMALL_WORDS;
    }
    MOST_WORDS
}
