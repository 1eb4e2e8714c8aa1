// A double and a signed number from 64 bits, and back; of the NaNs there is one (01, "Carried over and
// made new": records hold every NaN as 7FF8000000000000).
ghost use Rattle.std.specs.Prelude.{◌≡◌};
ghost use Rattle.ieee.specs.Floats.{double_of, bits_of, signed_of, bits_of_signed};

// The double of 64 bits. Every NaN's pattern is the one NaN; `from_bits` is not defined there.
pub fn double_of(bits: u64) -> f64
    ensures { result ≡ double_of bits }
{
    if 0x7ff0_0000_0000_0000 < bits % 0x8000_0000_0000_0000 {
        return f64::NAN;
    }
    f64::from_bits(bits)
}

// The 64 bits of a double: of the NaN 7FF8000000000000, whichever the machine holds.
pub fn bits_of(x: f64) -> u64
    ensures { result ≡ bits_of x }
{
    if x.is_nan() {
        return 0x7ff8_0000_0000_0000;
    }
    f64::to_bits(x)
}

// The signed number of 64 bits, in two's complement.
pub fn signed_of(bits: u64) -> i64
    ensures { result ≡ signed_of bits }
{
    bits.cast_signed()
}

// The 64 bits of a signed number, in two's complement.
pub fn bits_of_signed(x: i64) -> u64
    ensures { result ≡ bits_of_signed x }
{
    x.cast_unsigned()
}
