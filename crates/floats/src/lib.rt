// What Rust has as methods on f64, and the zero test of the search.
#![tactic(auto)]

ghost use Rattle.std.specs.Prelude.{◌≡◌};
ghost use Rattle.floats.specs.Float.{max_of, min_of, is_finite, abs_of, is_zero};

// Below this in size an entry counts as a zero.
const TINY: f64 = 1e-10;

/// The larger, and the other operand where one is a NaN.
// Kept: of 0.0 and -0.0, f64::max may answer either; what may not change is that `max_of` says which.
#[tactic(auto, unfolding(crate::specs::Float::max_of))]
pub fn max(x: f64, y: f64) -> f64
    ensures { result ≡ max_of x y }
{
    if x < y || x.is_nan() { y } else { x }
}

/// The smaller, and the other operand where one is a NaN.
// Kept: of 0.0 and -0.0, f64::min may answer either; what may not change is that `min_of` says which.
#[tactic(auto, unfolding(crate::specs::Float::min_of))]
pub fn min(x: f64, y: f64) -> f64
    ensures { result ≡ min_of x y }
{
    if y < x || x.is_nan() { y } else { x }
}

/// Neither a NaN nor an infinity.
// Kept: one operator, since the definition `is_finite` may not change and wrong versions of it are tried (must-fail/).
#[tactic(auto, using(crate::proofs::Tests::finite_same))]
pub fn is_finite(x: f64) -> bool
    ensures { result ≡ is_finite x }
{
    x.is_finite()
}

/// The number without its sign, but for a zero, which keeps the one it has.
// Kept: f64::abs clears a zero's sign; what may not change is that `abs_of` keeps it.
pub fn abs(x: f64) -> f64
    ensures { result ≡ abs_of x }
{
    if x < 0.0 { -x } else { x }
}

/// Whether an entry counts as a zero.
pub fn is_zero(x: f64) -> bool
    ensures { result ≡ is_zero x }
{
    abs(x) < TINY
}
