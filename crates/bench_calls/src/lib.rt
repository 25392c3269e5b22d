//! Calls for bench/run that are over in nanoseconds, made many times; the search by value; new states; and the scores and counts of a
//! state that updates by one frame have made.
#![tactic(auto)]

use evaluation::MOTMetrics;
use events::Log;
use lifecycle::TrackLifecycle;
use metrics::{Count, EventType};
use partners::Truths;
use rows::ExtendedMOTAccumulator;

/// A sum, and on it the distances of the first box to every box of a run.
fn distances_onto(sum: f64, boxes: &[f64]) -> f64 {
    let mut total = sum;
    for i in 0..boxes.len() / 4 {
        let first = matrix_numbers::box_at(boxes, 0);
        let other = matrix_numbers::box_at(boxes, i);
        if let Ok(d) = iou::iou_distance(first, other) {
            total += d;
        }
    }
    total
}

/// These distances so many times, summed.
#[unsafe(no_mangle)]
pub extern "C" fn bench_iou_distances(boxes: &[f64], times: u64) -> f64 {
    let mut total = 0.0f64;
    for _ in 0..times {
        total = distances_onto(total, boxes);
    }
    total
}

/// A match and a miss, so many times, with the coverage after each two; the sum of the coverages.
#[unsafe(no_mangle)]
pub extern "C" fn bench_lifecycles(frame: i32, times: u64) -> f64 {
    let mut it = TrackLifecycle::new(1, frame);
    let mut total = 0.0f64;
    for _ in 0..times {
        let matched = it.update_matched(frame).lifecycle;
        it = matched.update_missed(frame).lifecycle;
        total += it.coverage().value;
    }
    total
}

/// The extended metrics of a state after one frame, so many times; how often there was an object mostly tracked.
#[unsafe(no_mangle)]
pub extern "C" fn bench_extended_metrics(
    gt_ids: &[i32],
    gt_bboxes: &[f64],
    pred_ids: &[i32],
    pred_bboxes: &[f64],
    threshold: f64,
    times: u64,
) -> f64 {
    let new = ExtendedMOTAccumulator::new();
    let s = extended::update(new, gt_ids, gt_bboxes, pred_ids, pred_bboxes, threshold).state;
    let mut good = 0.0f64;
    for _ in 0..times {
        if extended_metrics::compute_extended_metrics(s).mostly_tracked > 0 {
            good += 1.0;
        }
    }
    good
}

/// Module 3's metrics of a state after so many frames, so many times; the sum of the MOTAs.
#[unsafe(no_mangle)]
pub extern "C" fn bench_mot_metrics(
    object_ids: &[i32],
    hypothesis_ids: &[i32],
    distances: &[f64],
    frames: u64,
    times: u64,
) -> f64 {
    let mut s = motmetrics::MOTAccumulator::new();
    for _ in 0..frames {
        s = motmetrics_update::update(s, 1, object_ids, hypothesis_ids, distances).state;
    }
    let mut total = 0.0f64;
    for _ in 0..times {
        total += s.compute_metrics().metrics.mota;
    }
    total
}

/// The search by value, and what stands at a place of its lists: no list can be left out then.
#[unsafe(no_mangle)]
pub extern "C" fn bench_assignment(
    cost: &[f64],
    rows: usize,
    cols: usize,
    max_cost: f64,
    place: usize,
) -> usize {
    let found = optimize::linear_sum_assignment(cost, rows, cols, max_cost);
    if place >= 64 {
        return found.corrections;
    }
    if found.unmatched_rows[place] > 0 {
        return found.num_unmatched_rows;
    }
    if found.unmatched_cols[place] > 0 {
        return found.num_unmatched_cols;
    }
    let pair = found.assignments[place];
    if pair.row_idx > place {
        return found.num_assignments;
    }
    pair.col_idx
}

/// New states of the extended accumulator, so many; the id at a place of the last.
#[unsafe(no_mangle)]
pub extern "C" fn bench_new_extended(place: usize, times: u64) -> i32 {
    if place >= 256 {
        return 0;
    }
    let mut id = 0i32;
    for _ in 0..times {
        let s = ExtendedMOTAccumulator::new();
        id = s.slots[place].lifecycle.gt_id;
    }
    id
}

/// What a log and a table of truth ids hold at a place: the frame, or the id where that is 0.
fn at_place(log: Log, truths: Truths, place: usize) -> i32 {
    if place >= 256 {
        return 0;
    }
    let event = log.events[place];
    if event.frame != 0 {
        return event.frame;
    }
    truths.ids[place]
}

/// New states of module 3's accumulator, so many; what is at a place of the last.
#[unsafe(no_mangle)]
pub extern "C" fn bench_new_mot(place: usize, times: u64) -> i32 {
    let mut held = 0i32;
    for _ in 0..times {
        let s = motmetrics::MOTAccumulator::new();
        held = at_place(s.log, s.last_match, place);
    }
    held
}

/// New states of module 4's accumulator, so many; what is at a place of the last.
#[unsafe(no_mangle)]
pub extern "C" fn bench_new_metrics(place: usize, times: u64) -> i32 {
    let mut held = 0i32;
    for _ in 0..times {
        let s = metrics::MOTAccumulator::new();
        held = at_place(s.log, s.truths, place);
    }
    held
}

/// Module 4's state after so many frames.
fn state_after(
    gt_ids: &[i32],
    hyp_ids: &[i32],
    gt_boxes: &[f64],
    hyp_boxes: &[f64],
    iou_threshold: f64,
    frames: u64,
) -> metrics::MOTAccumulator {
    let mut s = metrics::MOTAccumulator::new();
    for _ in 0..frames {
        s = metrics_update::update(s, 1, gt_ids, hyp_ids, gt_boxes, hyp_boxes, iou_threshold).state;
    }
    s
}

/// Module 4's MOTA and MOTP, or module 5's metrics, of a state after so many frames, so many times; the sum of them.
#[unsafe(no_mangle)]
pub extern "C" fn bench_scores(
    gt_ids: &[i32],
    hyp_ids: &[i32],
    gt_boxes: &[f64],
    hyp_boxes: &[f64],
    iou_threshold: f64,
    frames: u64,
    times: u64,
    whole: bool,
) -> f64 {
    let s = state_after(gt_ids, hyp_ids, gt_boxes, hyp_boxes, iou_threshold, frames);
    let mut total = 0.0f64;
    for _ in 0..times {
        if whole {
            total += MOTMetrics::from_accumulator(s).metrics.mota;
        } else {
            total += s.mota().value + s.motp().value;
        }
    }
    total
}

/// A sum, and 1.0 on it where a count is above 0.
fn some_onto(sum: f64, count: Count) -> f64 {
    if count.value > 0 { sum + 1.0 } else { sum }
}

/// The matches of a state after so many frames by count_events, or all six counts by their calls, so many times; how often one was
/// above 0.
#[unsafe(no_mangle)]
pub extern "C" fn bench_counts(
    gt_ids: &[i32],
    hyp_ids: &[i32],
    gt_boxes: &[f64],
    hyp_boxes: &[f64],
    iou_threshold: f64,
    frames: u64,
    times: u64,
    all: bool,
) -> f64 {
    let s = state_after(gt_ids, hyp_ids, gt_boxes, hyp_boxes, iou_threshold, frames);
    let mut total = 0.0f64;
    for _ in 0..times {
        if all {
            total = some_onto(total, s.num_matches());
            total = some_onto(total, s.num_false_positives());
            total = some_onto(total, s.num_misses());
            total = some_onto(total, s.num_switches());
            total = some_onto(total, s.num_gt_ids());
            total = some_onto(total, s.num_hyp_ids());
        } else {
            total = some_onto(total, s.count_events(EventType::Match));
        }
    }
    total
}
