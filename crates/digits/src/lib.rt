//! The digits of a whole number in limbs.
#![tactic(auto)]

ghost use Rattle.std.specs.Prelude.{◌≡◌, true, ◌≤◌, ◌<◌, get_or};
ghost use Rattle.digits.specs.Digits.{all_digits};

fn glyph(n: u32) -> u8
    ensures { (48 ≤ result) × (result < 58) }
{
    b'0' + (n % 10) as u8
}

// The nine digits of a limb, the last before end.
fn spell_limb(limb: u32, digits: &mut [u8; 315], end: usize)
    requires { (9 ≤ end) × (end ≤ 315) × (all_digits digits.old ≡ true) }
    ensures { all_digits digits.new ≡ true }
{
    let mut rest = limb;
    for k in 1..10 {
        digits[end - k] = glyph(rest);
        rest /= 10;
    }
}

/// All 315 digits, the first first.
pub fn spell(n: &[u32; 35], digits: &mut [u8; 315])
    requires { all_digits digits.old ≡ true }
    ensures { all_digits digits.new ≡ true }
{
    for (i, limb) in n.iter().enumerate() {
        spell_limb(*limb, digits, 315 - 9 * i);
    }
}

/// Where a text begins: at the first digit that is no zero, or just before the point.
pub fn first_shown(digits: &[u8; 315]) -> usize
    ensures { (result ≤ 308) × (result < 308 → get_or digits.now result 0 ≡ 48 → ⊥) }
{
    for i in 0..308 {
        if digits[i] != b'0' {
            return i;
        }
    }
    308
}
