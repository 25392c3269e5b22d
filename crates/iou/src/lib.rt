// How much of their area two boxes share: as a distance, and as iou_matrix has it.
// Ported from norfair-rs, internal/motmetrics/iou.rs, which follows py-motmetrics (NOTICE).
#![tactic(auto)]

ghost use Rattle.std.specs.Prelude.{◌≡◌, false};
ghost use Rattle.iou.specs.Boxes.{any_nan, area_of, intersection_of, distance_of, Answered, shared_of, iou_share_of};

use boxes::{Box, area, is_bad};
use refusals::Refusal;
use sides::{clamp, lower, rectangle, upper};

fn intersection(box1: Box, box2: Box) -> f64
    ensures { any_nan box1 ≡ false → result ≡ intersection_of box1 box2 }
{
    let x_min_inter = upper(box1.x_min, box2.x_min);
    let y_min_inter = upper(box1.y_min, box2.y_min);
    let x_max_inter = lower(box1.x_max, box2.x_max);
    let y_max_inter = lower(box1.y_max, box2.y_max);
    rectangle(x_min_inter, y_min_inter, x_max_inter, y_max_inter)
}

/// The distance of two boxes that are not refused, with their areas at hand: a matrix takes each box's area once.
pub fn box_distance(box1: Box, area1: f64, box2: Box, area2: f64) -> f64
    requires { (area1 ≡ area_of box1) × (area2 ≡ area_of box2) }
    ensures { result ≡ distance_of box1 box2 }
{
    let inter = intersection(box1, box2);
    let union = area1 + area2 - inter;
    if union == 0.0 {
        return 1.0;
    }
    1.0 - inter / union
}

/// 1.0 less the intersection's share of the union: 0.0 for equal boxes, 1.0 for boxes that share nothing.
///
/// # Errors
/// `EmptyBox` where one of the boxes has no width or no height.
pub fn iou_distance(box1: Box, box2: Box) -> Result<f64, Refusal>
    ensures { Answered box1 box2 result }
{
    if is_bad(box1) || is_bad(box2) {
        return Err(Refusal::EmptyBox);
    }
    Ok(box_distance(box1, area(box1), box2, area(box2)))
}

fn shared(box1: Box, box2: Box) -> f64
    ensures { any_nan box1 ≡ false → result ≡ shared_of box1 box2 }
{
    let inter_w = lower(box1.x_max, box2.x_max) - upper(box1.x_min, box2.x_min);
    let inter_h = lower(box1.y_max, box2.y_max) - upper(box1.y_min, box2.y_min);
    clamp(inter_w) * clamp(inter_h)
}

/// The share of two boxes, with their areas at hand.
pub fn box_share(box1: Box, area1: f64, box2: Box, area2: f64) -> f64
    requires { (area1 ≡ area_of box1) × (area2 ≡ area_of box2) }
    ensures { result ≡ iou_share_of box1 box2 }
{
    let inter_area = shared(box1, box2);
    let union_area = area1 + area2 - inter_area;
    if union_area > 0.0 {
        inter_area / union_area
    } else {
        0.0
    }
}

/// What iou_matrix has for two boxes: the intersection's share of the union, and 0.0 where the union is not above 0.
pub fn iou_share(box1: Box, box2: Box) -> f64
    ensures { result ≡ iou_share_of box1 box2 }
{
    box_share(box1, area(box1), box2, area(box2))
}
