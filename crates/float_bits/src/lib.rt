// Floats as bit patterns, one pattern for every NaN.
#![tactic(auto)]

ghost use Rattle.std.specs.Prelude.{◌≡◌};
ghost use Rattle.std.specs.Float.{binary64};
ghost use Rattle.std.specs.Float.Ieee.{of_bits, to_bits};
ghost use Rattle.float_bits.specs.Unsigned.{unsigned};

/// The float of a bit pattern. Any of a NaN's patterns is the NaN.
pub fn float_of(bits: u64) -> f64
    ensures { result ≡ of_bits binary64 bits }
{
    if bits % 0x8000_0000_0000_0000 > 0x7ff0_0000_0000_0000 {
        return f64::NAN;
    }
    f64::from_bits(bits)
}

/// The bit pattern of a float, one pattern for every NaN.
pub fn bits_of(x: f64) -> u64
    ensures { result ≡ to_bits binary64 x }
{
    if x.is_nan() {
        return 0x7ff8_0000_0000_0000;
    }
    x.to_bits()
}

/// A computed float as it is written: a zero without its sign.
#[tactic(auto, unfolding(crate::specs::Unsigned::unsigned))]
pub fn computed(x: f64) -> f64
    ensures { result ≡ unsigned x }
{
    if x == 0.0 { 0.0 } else { x }
}
