// The two matrices over runs of box floats, written row by row.
// Ported from norfair-rs, internal/motmetrics/iou.rs, which follows py-motmetrics (NOTICE).
#![tactic(auto)]

ghost use Rattle.std.specs.Prelude.{◌≡◌, ◌*◌, ◌/◌, ◌≤◌, length};
ghost use Rattle.iou.specs.Boxes.{area_of};
ghost use Rattle.refusals.specs.Refusals.{outcome_of};
ghost use Rattle.matrix.specs.Matrix.{AreasOf, measured_of, row_of, matrix_of, overwrite, distance_matrix_no, iou_matrix_no, matrix_after};

use boxes::{Box, area};
use iou::{box_distance, box_share};
use matrix_numbers::{box_at, check_distance_matrix, check_iou_matrix};
use refusals::{Refusal, outcome};

/// Which matrix is written.
#[derive(Clone, Copy)]
pub enum Measure {
    /// The distance of two boxes.
    Away,
    /// The share of their areas that two boxes have in common.
    Shared,
}

fn measured(m: Measure, a: Box, area_a: f64, b: Box, area_b: f64) -> f64
    requires { (area_a ≡ area_of a) × (area_b ≡ area_of b) }
    ensures { result ≡ measured_of m a b }
{
    match m {
        Measure::Away => box_distance(a, area_a, b, area_b),
        Measure::Shared => box_share(a, area_a, b, area_b),
    }
}

// The area of every box of the run, each taken once.
fn write_areas(run: &[f64], areas: &mut [f64; 64])
    requires { (length run.now / 4 ≤ 64) × (length areas.old ≡ 64) }
    ensures { AreasOf run.now areas.new (length run.now / 4) }
{
    for k in 0..run.len() / 4 {
        areas[k] = area(box_at(run, k));
    }
}

// One row: the first places of out are a's measures to the boxes of run.
fn write_row(m: Measure, a: Box, run: &[f64], areas: &[f64; 64], out: &mut [f64])
    requires { (length run.now / 4 ≤ length out.old) × (length run.now / 4 ≤ 64) × AreasOf run.now areas.now (length run.now / 4) }
    ensures { out.new ≡ overwrite (row_of m a run.now (length run.now / 4)) out.old }
{
    let area_a = area(a);
    for j in 0..run.len() / 4 {
        out[j] = measured(m, a, area_a, box_at(run, j), areas[j]);
    }
}

// All rows, each after the one before.
fn write_rows(m: Measure, gt: &[f64], pred: &[f64], out: &mut [f64])
    requires pred_in_bounds { (length gt.now / 4) * (length pred.now / 4) ≤ length out.old }
    requires gt_len_bound { length gt.now / 4 ≤ 64 }
    requires pred_len_bound { length pred.now / 4 ≤ 64 }
    ensures { out.new ≡ overwrite (matrix_of m gt.now pred.now (length gt.now / 4)) out.old }
{
    let mut areas = [0.0; 64];
    write_areas(pred, &mut areas);
    let cols = pred.len() / 4;
    for i in 0..gt.len() / 4 {
        write_row(m, box_at(gt, i), pred, &areas, &mut out[i * cols..]);
    }
}

/// Writes the distance of every truth box to every predicted box over the first places of out, row by row.
///
/// # Errors
/// The first that applies of `TooMany`, `Misfit`, `EmptyBox` and `NoRoom`; out stays as it was.
#[tactic(auto, using(crate::proofs::Laws::kept), unfolding(crate::specs::Matrix::matrix_after))]
pub fn write_distances(
    gt_bboxes: &[f64],
    pred_bboxes: &[f64],
    out: &mut [f64],
) -> Result<(), Refusal>
    ensures number { outcome_of result ≡ distance_matrix_no gt_bboxes.now pred_bboxes.now (length out.old) }
    ensures written { out.new ≡ matrix_after Measure.Away (outcome_of result) gt_bboxes.now pred_bboxes.now out.old }
{
    check_distance_matrix(gt_bboxes, pred_bboxes, out.len())?;
    write_rows(Measure::Away, gt_bboxes, pred_bboxes, out);
    Ok(())
}

/// Writes the share of every box of the first run with every box of the second over the first places of out.
///
/// # Errors
/// The first that applies of `TooMany`, `Misfit` and `NoRoom`; out stays as it was.
#[tactic(auto, using(crate::proofs::Laws::kept), unfolding(crate::specs::Matrix::matrix_after))]
pub fn write_shares(boxes_a: &[f64], boxes_b: &[f64], out: &mut [f64]) -> Result<(), Refusal>
    ensures number { outcome_of result ≡ iou_matrix_no boxes_a.now boxes_b.now (length out.old) }
    ensures written { out.new ≡ matrix_after Measure.Shared (outcome_of result) boxes_a.now boxes_b.now out.old }
{
    check_iou_matrix(boxes_a, boxes_b, out.len())?;
    write_rows(Measure::Shared, boxes_a, boxes_b, out);
    Ok(())
}

/// `write_distances`, with the refusal as its number, and 0 where nothing is refused.
// Kept: the C interface, which answers by the number.
pub fn compute_iou_distance_matrix(gt_bboxes: &[f64], pred_bboxes: &[f64], out: &mut [f64]) -> u32
    ensures number { result ≡ distance_matrix_no gt_bboxes.now pred_bboxes.now (length out.old) }
    ensures written { out.new ≡ matrix_after Measure.Away result gt_bboxes.now pred_bboxes.now out.old }
{
    outcome(write_distances(gt_bboxes, pred_bboxes, out))
}

/// `write_shares`, with the refusal as its number, and 0 where nothing is refused.
// Kept: the C interface, which answers by the number.
pub fn iou_matrix(boxes_a: &[f64], boxes_b: &[f64], out: &mut [f64]) -> u32
    ensures number { result ≡ iou_matrix_no boxes_a.now boxes_b.now (length out.old) }
    ensures written { out.new ≡ matrix_after Measure.Shared result boxes_a.now boxes_b.now out.old }
{
    outcome(write_shares(boxes_a, boxes_b, out))
}
