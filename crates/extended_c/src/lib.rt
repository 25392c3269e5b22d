//! The extended accumulator for C and Rust: its state is lent as flat numbers, and stays with the caller between updates.
#![tactic(auto)]

ghost use Rattle.extended_flat.specs.Flat.{Answered};

/// The extended accumulator: nine columns of 256 numbers, seven counters, one distance.
#[unsafe(no_mangle)]
pub extern "C" fn mot_extended_update(
    run: &mut [i32],
    counters: &mut [i32],
    distance: &mut [f64],
    gt_ids: &[i32],
    gt_bboxes: &[f64],
    pred_ids: &[i32],
    pred_bboxes: &[f64],
    threshold: f64,
) -> u32
    ensures { Answered run.old counters.old distance.old gt_ids.now gt_bboxes.now pred_ids.now pred_bboxes.now threshold run.new counters.new distance.new result }
{
    extended_flat::update(
        run,
        counters,
        distance,
        gt_ids,
        gt_bboxes,
        pred_ids,
        pred_bboxes,
        threshold,
    )
}
