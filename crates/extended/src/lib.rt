//! The extended accumulator's update: a frame paired, summed and booked whole, or refused with the state as it came.
//! Ported from norfair-rs, internal/motmetrics/accumulator.rs, which follows py-motmetrics (NOTICE).
#![tactic(auto)]

ghost use Rattle.std.specs.Prelude.{◌≡◌, ◌≤◌};
ghost use Rattle.extended.specs.Update.{frame_after, update_of};

use extended_booking::{book, refused};
use frame::Booked;
use rows::ExtendedMOTAccumulator;

/// The update of a state that is sound already: nothing of its table is tested again. Of soundness it needs the used count alone.
pub fn update_sound(
    s: ExtendedMOTAccumulator,
    gt_ids: &[i32],
    gt_bboxes: &[f64],
    pred_ids: &[i32],
    pred_bboxes: &[f64],
    threshold: f64,
) -> Booked
    requires { s.used ≤ 256 }
    ensures { result ≡ frame_after s gt_ids.now gt_bboxes.now pred_ids.now pred_bboxes.now threshold }
{
    let total = s.total_distance;
    match pairing::pair(
        gt_ids.len(),
        gt_bboxes,
        pred_ids.len(),
        pred_bboxes,
        threshold,
        total,
    ) {
        Ok(p) => book(s, gt_ids, pred_ids, p),
        Err(refusal) => refused(refusal.number(), s),
    }
}

/// The update of any state by any frame: the lowest number that applies, and the state.
pub fn update(
    s: ExtendedMOTAccumulator,
    gt_ids: &[i32],
    gt_bboxes: &[f64],
    pred_ids: &[i32],
    pred_bboxes: &[f64],
    threshold: f64,
) -> Booked
    ensures { result ≡ update_of s gt_ids.now gt_bboxes.now pred_ids.now pred_bboxes.now threshold }
{
    if !frame::sound(s) {
        return refused(1, s);
    }
    update_sound(s, gt_ids, gt_bboxes, pred_ids, pred_bboxes, threshold)
}
