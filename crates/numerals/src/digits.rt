//! What the digits of a word say.
ghost use Rattle.std.specs.Prelude.{◌≡◌, ◌≤◌};
ghost use Rattle.numerals.specs.Numbers.{digit_of, digit_found, value_from, hex_of, decimal_of};

/// The value of a digit, those above 9 in lower case; 16 where the byte is no digit.
#[tactic(auto, unfolding(crate::specs::Numbers::digit_of))]
pub fn digit(b: u8) -> u64
    ensures { result ≡ digit_of b }
{
    match b {
        b'0'..=b'9' => u64::from(b - b'0'),
        b'a'..=b'f' => u64::from(b - b'a') + 10,
        _ => 16,
    }
}

/// The value of a digit, as `digit` has it; `None` where the byte is no digit.
#[tactic(auto, unfolding(crate::specs::Numbers::digit_found))]
pub fn digit_found(b: u8) -> Option<u64>
    ensures { result ≡ digit_found b }
{
    let d = digit(b);
    if d < 16 { Some(d) } else { None }
}

// The base is a const parameter, so that the test for what does not fit divides by a constant.
fn value<const BASE: u64>(word: &[u8]) -> Option<u64>
    requires { BASE ≤ 16 }
    ensures { result ≡ value_from BASE 0 word.now }
{
    let mut v: u64 = 0;
    for b in word {
        let d = digit(*b);
        if d >= BASE {
            return None;
        }
        v = v.checked_mul(BASE)?.checked_add(d)?;
    }
    Some(v)
}

/// The value of a word of 16 hexadecimal digits.
#[tactic(auto, unfolding(crate::specs::Numbers::hex_of))]
pub fn hex(word: &[u8]) -> Option<u64>
    ensures { result ≡ hex_of word.now }
{
    if word.len() != 16 {
        return None;
    }
    value::<16>(word)
}

/// The value of a word of decimal digits. Zeros in front change nothing.
#[tactic(auto, unfolding(crate::specs::Numbers::decimal_of))]
pub fn decimal(word: &[u8]) -> Option<u64>
    ensures { result ≡ decimal_of word.now }
{
    if word.is_empty() {
        return None;
    }
    value::<10>(word)
}
