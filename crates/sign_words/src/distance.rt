// How far two choices in words are apart, and where.
ghost use Rattle.std.specs.Prelude.{◌≡◌, ◌*◌, ◌≤◌, ◌<◌, length};
ghost use Rattle.std.specs.Int.Bits.{bit_xor};
ghost use Rattle.std.specs.Int.Count.{ones};
ghost use Rattle.sign_words.specs.Distance.{ones_apart, BitApart, SignApart};

// The number of ones in a word.
fn ones_in(w: u64) -> u64
    ensures { (result ≡ ones w) × (result ≤ 64) }
{
    u64::from(w.count_ones())
}

// The number of bits in which two words differ.
fn bits_apart(a: u64, b: u64) -> u64
    ensures { (result ≡ ones (bit_xor a b)) × (result ≤ 64) }
{
    ones_in(a ^ b)
}

// The number of ones in the exclusive or of two choices, word by word.
pub fn distance(a: &[u64], b: &[u64]) -> u64
    requires { (length a.now ≡ length b.now) × (length a.now < 65536) }
    ensures value { result ≡ ones_apart (length a.now) a.now b.now }
    ensures few { result ≤ 64 * length a.now }
{
    (0..a.len()).map(|k| bits_apart(a[k], b[k])).sum()
}

// The first bit from `from` on in which two words differ. `as`: no `From` takes a u32 to a usize.
#[tactic(auto, using(crate::proofs::ApartLaws::apart_inside, crate::proofs::ApartLaws::apart_nowhere))]
fn bit_apart(a: u64, b: u64, from: usize) -> Option<usize>
    requires { from < 64 }
    ensures { BitApart a b from result }
{
    let r = from + ((a ^ b) >> from).trailing_zeros() as usize;
    if r < 64 { Some(r) } else { None }
}

// The first sign from `from` on in which two choices differ. Words that are the same are passed over whole.
#[tactic(auto, using(crate::proofs::ApartLaws::found, crate::proofs::ApartLaws::same_on, crate::specs::Distance::none))]
pub fn sign_apart(a: &[u64], b: &[u64], from: usize) -> Option<usize>
    requires { (length a.now ≡ length b.now) × (length a.now < 65536) × (from ≤ 64 * length a.now) }
    ensures { SignApart a.now b.now from result }
{
    let mut at = from % 64;
    for k in from / 64..a.len() {
        if let Some(r) = bit_apart(a[k], b[k], at) {
            return Some(64 * k + r);
        }
        at = 0;
    }
    None
}
