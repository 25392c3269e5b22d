//! The update of the public module's MOTAccumulator: a frame paired by falling IoU and booked whole, or refused with the state as it came.
//! Ported from norfair-rs, metrics/accumulator.rs (NOTICE).
#![tactic(auto)]

ghost use Rattle.std.specs.Prelude.{◌≡◌, ◌*◌, ◌≤◌, length};
ghost use Rattle.metrics_update.specs.Update.{Within, stored_of, paired_after, frame_after, update_of};

use metrics::MOTAccumulator;
use metrics_booking::{Updated, book};

// A frame whose IoUs are known: paired, and booked with 1.0 less each as its distance. The IoUs lent are written over by those.
fn book_shares(
    s: MOTAccumulator,
    frame: i32,
    gt_ids: &[i32],
    hyp_ids: &[i32],
    shares: &mut [f64],
    iou_threshold: f64,
) -> Updated
    requires within { Within s }
    requires gt_ids_len_bound { (length gt_ids.now ≤ 64) × (length hyp_ids.now ≤ 64) × (length shares.old ≡ length gt_ids.now * length hyp_ids.now) }
    ensures { (result ≡ paired_after s frame gt_ids.now hyp_ids.now shares.old iou_threshold) × (shares.new ≡ stored_of shares.old) }
{
    let p = greedy_pairs::pair_by_share(shares, iou_threshold, gt_ids.len(), hyp_ids.len());
    book(s, frame, gt_ids, hyp_ids, &shares[..], p)
}

/// The update of a state that is sound already: nothing of its tables is tested again. Of soundness it needs the used counts alone.
pub fn update_sound(
    s: MOTAccumulator,
    frame: i32,
    gt_ids: &[i32],
    hyp_ids: &[i32],
    gt_boxes: &[f64],
    hyp_boxes: &[f64],
    iou_threshold: f64,
) -> Updated
    requires { Within s }
    ensures { result ≡ frame_after s frame gt_ids.now hyp_ids.now gt_boxes.now hyp_boxes.now iou_threshold }
{
    let rows = gt_ids.len();
    let columns = hyp_ids.len();
    if let Err(refusal) = shape::check_shape(rows, gt_boxes.len(), columns, hyp_boxes.len()) {
        return Updated {
            number: refusal.number(),
            state: s,
        };
    }
    let mut m = [0.0f64; 4096];
    matrix::iou_matrix(gt_boxes, hyp_boxes, &mut m);
    let n = rows * columns;
    book_shares(s, frame, gt_ids, hyp_ids, &mut m[..n], iou_threshold)
}

/// The update of any state by any frame: the lowest number that applies, and the state.
pub fn update(
    s: MOTAccumulator,
    frame: i32,
    gt_ids: &[i32],
    hyp_ids: &[i32],
    gt_boxes: &[f64],
    hyp_boxes: &[f64],
    iou_threshold: f64,
) -> Updated
    ensures { result ≡ update_of s frame gt_ids.now hyp_ids.now gt_boxes.now hyp_boxes.now iou_threshold }
{
    if !s.sound() {
        return Updated {
            number: 1,
            state: s,
        };
    }
    update_sound(
        s,
        frame,
        gt_ids,
        hyp_ids,
        gt_boxes,
        hyp_boxes,
        iou_threshold,
    )
}
