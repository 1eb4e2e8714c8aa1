// Slices copied by a loop, so that the archive for C asks its host for no `memmove`, as it would by the library's `copy_from_slice`. `sign_words::words::copy`
// is the same for the words of a search, and stays there, so that sign_words stands on no more than it does.
#![tactic(auto)]

ghost use Rattle.std.specs.Prelude.{◌≡◌, length};

// The elements of another slice of this length.
#[tactic(auto, using(std::proofs::lemmas::List::same_lists))]
pub fn copy<T: Copy>(to: &mut [T], from: &[T])
    requires { length to.old ≡ length from.now }
    ensures { to.new ≡ from.now }
{
    for k in 0..from.len() {
        to[k] = from[k];
    }
}
