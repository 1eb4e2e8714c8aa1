// The root of a finite double above 0: a guess by floats, tested by whole numbers. Where the test fails, as for
// subnormals, the root's digits.
ghost use Rattle.std.specs.Prelude.{◌≡◌, ◌^◌, ◌<◌, true, not, T, from_bits};
ghost use Rattle.std.specs.Float.{binary64};
ghost use Rattle.std.specs.Float.Ieee.{nan_bits};
ghost use Rattle.ieee.specs.Sqrt.{sqrt_of, NearRoot};

use super::scale::{Positive, scaled};

// Most often the root of the double with the bits b, if that is normal. Its digits with an exponent of 0 or -1 are x, and y is 1 / √x
// by Newton's steps on a first guess from the bits; `high` is √x to 26 digits, so that its square is exact, and `scale` has
// the root's exponent. Nothing rests on its being right.
#[tactic(auto, using(crate::proofs::Patterns::not_nan))]
fn guess(b: Positive) -> f64 {
    let digits = b.bits % 0x20_0000_0000_0000;
    let x = f64::from_bits(digits + 0x3fe0_0000_0000_0000);
    let scale = f64::from_bits((b.bits / 0x10_0000_0000_0000 + 1024) / 2 * 0x10_0000_0000_0000);
    let half = x * 0.5;
    let mut y = f64::from_bits(0x3ff6_eb50_c7b5_37a9 - digits / 2);
    y = y * 1.5008789 - half * y * (y * y);
    y = y * 1.50000057 - half * y * (y * y);
    let near = x * y;
    let high = near + 100_663_296.0 - 100_663_296.0;
    let slope = y * 0.5;
    let last = 1.5 - near * slope;
    let low = near * last - high;
    high * scale + (x - high * high + low * low) * (slope * last * scale)
}

// Whether r is the root of m * 2^52, to the nearest whole number. With r = a * 2^26 + b the difference of m * 2^52 and
// r * r is 2^26 * ((m - a * a) * 2^26 - 2 * a * b) - b * b; 2^28 and 2^54 keep it above 0.
fn is_rounded(m: u64, r: u64) -> bool
    requires { r < 2 ^ 53 }
    ensures { result ≡ true → NearRoot m r }
{
    let a = r / 0x400_0000;
    let b = r % 0x400_0000;
    let square = a * a;
    if m < square {
        return false;
    }
    let rest = m - square;
    if 0x1000_0000 < rest {
        return false;
    }
    let left = rest * 0x400_0000 + 0x1000_0000;
    let product = 2 * (a * b);
    if left < product {
        return false;
    }
    let t = left - product;
    if 0x2000_0000 < t {
        return false;
    }
    let high = t * 0x400_0000;
    let low = b * b + 0x40_0000_0000_0000;
    if high + r <= low {
        return false;
    }
    high <= low + r
}

// Whether f is the root of the double with the bits b.
fn is_root(b: Positive, f: f64) -> bool
    ensures { result ≡ true → f ≡ sqrt_of (from_bits binary64 b.bits) }
{
    if f.is_nan() {
        return false;
    }
    let bits = f64::to_bits(f);
    let s = scaled(b);
    let r = bits % 0x10_0000_0000_0000 + 0x10_0000_0000_0000;
    if bits != (s.h - 26) * 0x10_0000_0000_0000 + r {
        return false;
    }
    is_rounded(s.m, r)
}

// The bits of the root of the double with the bits b. The root of m * 2^54 has 54
// digits, one more than a double keeps, and is never a tie: the last digit alone says where it
// rounds to.
fn root_bits(b: Positive) -> u64
    ensures { (T (not (nan_bits binary64 result))) × (from_bits binary64 result ≡ sqrt_of (from_bits binary64 b.bits)) }
{
    let s = scaled(b);
    let q = super::digits::isqrt54(s.m);
    (s.h - 26) * 0x10_0000_0000_0000 + (q + 1) / 2
}

// The root of the double with the bits b.
pub fn nearest(b: Positive) -> f64
    ensures { result ≡ sqrt_of (from_bits binary64 b.bits) }
{
    let f = guess(b);
    if is_root(b, f) {
        return f;
    }
    f64::from_bits(root_bits(b))
}
