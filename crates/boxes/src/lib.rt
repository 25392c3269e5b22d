// A box, whether it is refused, and its area.
// Ported from norfair-rs, internal/motmetrics/iou.rs, which follows py-motmetrics (NOTICE).
#![tactic(auto)]

ghost use Rattle.std.specs.Prelude.{◌≡◌};
ghost use Rattle.boxes.specs.Boxes.{bad_box, area_of};

/// A box: its corner with the smaller coordinates, and the opposite one.
#[repr(C)]
#[derive(Clone, Copy)]
pub struct Box {
    pub x_min: f64,
    pub y_min: f64,
    pub x_max: f64,
    pub y_max: f64,
}

/// Whether a box is refused: it has no width or no height. Both tests are false where a NaN stands.
#[tactic(auto, unfolding(crate::specs::Boxes::bad_box))]
pub fn is_bad(b: Box) -> bool
    ensures { result ≡ bad_box b }
{
    b.x_max <= b.x_min || b.y_max <= b.y_min
}

/// Width times height.
#[tactic(auto, unfolding(crate::specs::Boxes::area_of))]
pub fn area(b: Box) -> f64
    ensures { result ≡ area_of b }
{
    (b.x_max - b.x_min) * (b.y_max - b.y_min)
}
