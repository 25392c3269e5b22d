//! Updates of module 4's MOTAccumulator by one frame so many times, from a new state; how many events are logged then.
use metrics::MOTAccumulator;
use metrics_in_place::Used;

/// The public update.
#[unsafe(no_mangle)]
pub extern "C" fn bench_metrics_update(
    gt_ids: &[i32],
    hyp_ids: &[i32],
    gt_boxes: &[f64],
    hyp_boxes: &[f64],
    iou_threshold: f64,
    times: u64,
) -> usize {
    let mut s = MOTAccumulator::new();
    for _ in 0..times {
        s = metrics_update::update(s, 1, gt_ids, hyp_ids, gt_boxes, hyp_boxes, iou_threshold).state;
    }
    s.log.used
}

/// The inner update, which asks for used counts within the log and the tables.
#[unsafe(no_mangle)]
pub extern "C" fn bench_metrics_update_sound(
    gt_ids: &[i32],
    hyp_ids: &[i32],
    gt_boxes: &[f64],
    hyp_boxes: &[f64],
    iou_threshold: f64,
    times: u64,
) -> usize {
    let mut s = MOTAccumulator::new();
    for _ in 0..times {
        if s.log.used > 1024 || s.truths.used > 256 || s.hypotheses.used > 1024 {
            return 0;
        }
        let u = metrics_update::update_sound(
            s,
            1,
            gt_ids,
            hyp_ids,
            gt_boxes,
            hyp_boxes,
            iou_threshold,
        );
        s = u.state;
    }
    s.log.used
}

/// The inner update on runs that are lent by the caller, with so many ids in use, as in `mot`.
#[unsafe(no_mangle)]
pub extern "C" fn bench_metrics_update_in_place(
    numbers: &mut [i32],
    log_distances: &mut [f64],
    table: &mut [i32],
    hypotheses: &mut [i32],
    truths: usize,
    known: usize,
    gt_ids: &[i32],
    hyp_ids: &[i32],
    gt_boxes: &[f64],
    hyp_boxes: &[f64],
    iou_threshold: f64,
    times: u64,
) -> usize {
    if numbers.len() != 4096 || log_distances.len() != 1024 {
        return 0;
    }
    if table.len() != 768 || hypotheses.len() != 1024 {
        return 0;
    }
    if truths > 256 || known > 1024 {
        return 0;
    }
    let mut used = Used {
        events: 0,
        truths,
        hypotheses: known,
    };
    'updates: for _ in 0..times {
        let c = metrics_in_place::update_in_place(
            numbers,
            log_distances,
            table,
            hypotheses,
            used,
            1,
            gt_ids,
            hyp_ids,
            gt_boxes,
            hyp_boxes,
            iou_threshold,
        );
        used = c.used;
    }
    used.events
}
