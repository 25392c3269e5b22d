// The sides of an intersection: the larger of two floats, the smaller, and what they enclose.
// Ported from norfair-rs, internal/motmetrics/iou.rs, which follows py-motmetrics (NOTICE).
#![tactic(auto)]

ghost use Rattle.std.specs.Prelude.{◌≡◌, cond};
ghost use Rattle.std.specs.Float.Ieee.{lt};
ghost use Rattle.floats.specs.Float.{max_of, zero64};
ghost use Rattle.sides.specs.Sides.{rectangle_of};

/// The larger of two floats by one comparison, where max would take two. It differs from max only where x is a NaN, and
/// then the area of x's box is a NaN too and decides the answer.
pub fn upper(x: f64, y: f64) -> f64
    ensures { result ≡ cond (lt x y) y x }
{
    if x < y { y } else { x }
}

/// The smaller of two floats by one comparison, as `upper` has the larger.
pub fn lower(x: f64, y: f64) -> f64
    ensures { result ≡ cond (lt y x) y x }
{
    if y < x { y } else { x }
}

/// Width times height, and 0 where a side is the wrong way round.
#[tactic(auto, unfolding(crate::specs::Sides::rectangle_of))]
pub fn rectangle(x_min: f64, y_min: f64, x_max: f64, y_max: f64) -> f64
    ensures { result ≡ rectangle_of x_min y_min x_max y_max }
{
    if x_max < x_min || y_max < y_min {
        return 0.0;
    }
    (x_max - x_min) * (y_max - y_min)
}

/// A side clamped at 0: max(side, 0.0) by one comparison.
pub fn clamp(side: f64) -> f64
    ensures { result ≡ max_of side zero64 }
{
    if 0.0 <= side { side } else { 0.0 }
}
