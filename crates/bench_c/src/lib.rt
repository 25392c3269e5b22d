//! Updates for bench/run, made one after the other on this side of the border, where the state stays.
#![tactic(auto)]

mod metric_updates;
mod mot;

use rows::ExtendedMOTAccumulator;
use totals::Totals;

/// The public update by one frame so many times, from a new state; the total distance.
#[unsafe(no_mangle)]
pub extern "C" fn bench_update(
    gt_ids: &[i32],
    gt_bboxes: &[f64],
    pred_ids: &[i32],
    pred_bboxes: &[f64],
    threshold: f64,
    times: u64,
) -> f64 {
    let mut s = ExtendedMOTAccumulator::new();
    for _ in 0..times {
        s = extended::update(s, gt_ids, gt_bboxes, pred_ids, pred_bboxes, threshold).state;
    }
    s.total_distance
}

/// The same by the inner update, which asks for a used count within the table.
#[unsafe(no_mangle)]
pub extern "C" fn bench_update_sound(
    gt_ids: &[i32],
    gt_bboxes: &[f64],
    pred_ids: &[i32],
    pred_bboxes: &[f64],
    threshold: f64,
    times: u64,
) -> f64 {
    let mut s = ExtendedMOTAccumulator::new();
    for _ in 0..times {
        if s.used > 256 {
            return 0.0;
        }
        s = extended::update_sound(s, gt_ids, gt_bboxes, pred_ids, pred_bboxes, threshold).state;
    }
    s.total_distance
}

/// The same by the inner update in a table that is lent, with so many slots in use.
#[unsafe(no_mangle)]
pub extern "C" fn bench_update_in_place(
    run: &mut [i32],
    used: usize,
    gt_ids: &[i32],
    gt_bboxes: &[f64],
    pred_ids: &[i32],
    pred_bboxes: &[f64],
    threshold: f64,
    times: u64,
) -> f64 {
    if run.len() != 2304 || used > 256 {
        return 0.0;
    }
    let mut totals = Totals {
        used,
        ..Totals::new()
    };
    'updates: for _ in 0..times {
        let c = extended_in_place::update_in_place(
            run,
            totals,
            gt_ids,
            gt_bboxes,
            pred_ids,
            pred_bboxes,
            threshold,
        );
        totals = c.totals;
    }
    totals.total_distance
}
