//! Module 4's accumulator for C and Rust: its state is lent as flat numbers, and stays with the caller between updates.
#![tactic(auto)]

ghost use Rattle.metrics_in_place.specs.InPlace.{runs_of};
ghost use Rattle.metrics_flat.specs.Flat.{Answered};

/// Module 4's MOTAccumulator: the log as in module 3, the truth ids' three columns of 256, 1,024 hypothesis ids, three used counts.
#[unsafe(no_mangle)]
pub extern "C" fn mot_metrics_update(
    numbers: &mut [i32],
    log_distances: &mut [f64],
    table: &mut [i32],
    hypotheses: &mut [i32],
    used: &mut [usize],
    frame: i32,
    gt_ids: &[i32],
    hyp_ids: &[i32],
    gt_boxes: &[f64],
    hyp_boxes: &[f64],
    iou_threshold: f64,
) -> u32
    ensures { Answered (runs_of numbers.old log_distances.old table.old hypotheses.old) used.old frame gt_ids.now hyp_ids.now gt_boxes.now hyp_boxes.now iou_threshold (runs_of numbers.new log_distances.new table.new hypotheses.new) used.new result }
{
    metrics_flat::update(
        numbers,
        log_distances,
        table,
        hypotheses,
        used,
        frame,
        gt_ids,
        hyp_ids,
        gt_boxes,
        hyp_boxes,
        iou_threshold,
    )
}
