//! A bit pattern as hexadecimal digits.
#![tactic(auto)]

ghost use Rattle.std.specs.Prelude.{◌≡◌, ◌<◌, length};
ghost use Rattle.io.specs.Digits.{hex_digit_ascii as Digits·glyph};
ghost use Rattle.hex_text.specs.Spelled.{spelled};

// The digit of a value below 16.
fn glyph(d: u64) -> u8
    requires { d < 16 }
    ensures { result ≡ Digits·glyph d }
{
    if d < 10 {
        b'0' + d as u8
    } else {
        b'a' + (d - 10) as u8
    }
}

/// All 16 digits, the last first. io::hex does as much, with three divisions for a digit.
#[tactic(auto, unfolding(crate::specs::Spelled::spelled))]
pub fn spell(n: u64) -> [u8; 16]
    ensures { (result ≡ spelled n) × (16 ≡ length result) }
{
    let mut letters = [0u8; 16];
    let mut rest = n;
    for i in (0..16).rev() {
        letters[i] = glyph(rest % 16);
        rest /= 16;
    }
    letters
}
