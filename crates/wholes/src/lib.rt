//! Whole numbers with a sign, of 32 bits.
#![tactic(auto)]

ghost use Rattle.std.specs.Prelude.{◌≡◌, Some, nat_abs};
ghost use Rattle.wholes.specs.Wholes.{plain_of, negated_of, whole_of};

use numerals::digits::decimal;

#[tactic(auto, unfolding(crate::specs::Wholes::plain_of))]
fn plain(n: u64) -> Option<i32>
    ensures { result ≡ plain_of (Some n) }
{
    i32::try_from(n).ok()
}

// By way of 128 bits, so that the least number fits on the way.
#[tactic(auto, unfolding(crate::specs::Wholes::negated_of, crate::specs::Wholes::below_zero))]
fn negated(n: u64) -> Option<i32>
    ensures { result ≡ negated_of (Some n) }
{
    i32::try_from(-i128::from(n)).ok()
}

/// The number that a word says: decimal digits, with a minus before them or none.
#[tactic(auto, unfolding(crate::specs::Wholes::whole_of, crate::specs::Wholes::plain_of, crate::specs::Wholes::negated_of))]
pub fn whole_in(word: &[u8]) -> Option<i32>
    ensures { result ≡ whole_of word.now }
{
    if !word.is_empty() && word[0] == b'-' {
        return decimal(&word[1..]).and_then(negated);
    }
    decimal(word).and_then(plain)
}

/// A number without its sign.
pub fn size(x: i32) -> u64
    ensures { result ≡ nat_abs x }
{
    u64::from(x.unsigned_abs())
}
