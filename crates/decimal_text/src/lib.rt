//! A float in decimal to six places, exact as C's "%.6f": the digits are those of the binary value,
//! rounded to the nearest, ties to even. Its shape is proved; the digits are compared with Python's.
#![tactic(auto)]

ghost use Rattle.std.specs.Prelude.{◌≡◌, true, ◌≤◌, ◌<◌, length, take};
ghost use Rattle.std.specs.Float.{binary64};
ghost use Rattle.std.specs.Float.Ieee.{to_bits};
ghost use Rattle.io.specs.Counts.{IsPrefixLen};
ghost use Rattle.decimal_text.specs.Texts.{all_digits, sign_of, name_of, shown_of, Laid, Numbered, Written, WrittenAt};

use crate::letters::put;
use crate::limbs::millionths;
use digits::{first_shown, spell};
use float_bits::bits_of;

pub mod letters;
pub mod limbs;

fn write_sign(bits: u64, out: &mut [u8]) -> usize
    requires { 317 ≤ length out.old }
    ensures { Laid 0 (sign_of bits) out.old out.new result }
{
    if bits / 0x8000_0000_0000_0000 == 0 {
        return 0;
    }
    put(out, 0, b"-")
}

fn write_name(bits: u64, out: &mut [u8], at: usize) -> usize
    requires { (317 ≤ length out.old) × (at ≤ 1) }
    ensures { Laid at (name_of bits) out.old out.new result }
{
    if bits % 0x10_0000_0000_0000 == 0 {
        return put(out, at, b"inf");
    }
    put(out, at, b"nan")
}

// The point stands before the last six of the digits.
fn write_shown(digits: &[u8], first: usize, out: &mut [u8], at: usize) -> usize
    requires { (length digits.now ≡ 315) × (first ≤ 308) × (317 ≤ length out.old) × (at ≤ 1) }
    ensures { Laid at (shown_of digits.now first) out.old out.new result }
{
    let whole = put(out, at, &digits[first..309]);
    let point = put(out, whole, b".");
    put(out, point, &digits[309..315])
}

fn write_digits(digits: &[u8; 315], out: &mut [u8], at: usize) -> usize
    requires { (all_digits digits.now ≡ true) × (317 ≤ length out.old) × (at ≤ 1) }
    ensures { Numbered at out.old out.new result }
{
    write_shown(digits, first_shown(digits), out, at)
}

fn write_number(exponent: u64, fraction: u64, out: &mut [u8], at: usize) -> usize
    requires { (fraction < 4503599627370496) × (317 ≤ length out.old) × (at ≤ 1) }
    ensures { Numbered at out.old out.new result }
{
    let mut n = [0u32; 35];
    millionths(exponent, fraction, &mut n);
    let mut digits = [b'0'; 315];
    spell(&n, &mut digits);
    write_digits(&digits, out, at)
}

fn write_pattern(bits: u64, out: &mut [u8]) -> usize
    requires { 317 ≤ length out.old }
    ensures { WrittenAt bits out.old out.new result }
{
    let at = write_sign(bits, out);
    let exponent = bits / 0x10_0000_0000_0000 % 2048;
    if exponent == 2047 {
        return write_name(bits, out, at);
    }
    write_number(exponent, bits % 0x10_0000_0000_0000, out, at)
}

/// The text at the start of out, and how many bytes it has.
pub fn write_six(x: f64, out: &mut [u8; 320]) -> usize
    ensures upper_bound { (result ≤ 317) × IsPrefixLen result out.new }
    ensures written { Written (to_bits binary64 x) (take result out.new) }
{
    write_pattern(bits_of(x), out)
}
