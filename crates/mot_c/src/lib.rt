// Modules 1 and 2 for C and Rust: each slice is a pointer and a length. Every function promises what the call behind it does.
#![tactic(auto)]

ghost use Rattle.std.specs.Prelude.{◌≡◌, length};
ghost use Rattle.refusals.specs.Refusals.{outcome_of};
ghost use Rattle.solver_flat.specs.Flat.{Handed};
ghost use Rattle.matrix.specs.Matrix.{distance_matrix_no, iou_matrix_no, matrix_after};
ghost use Rattle.matrix.specs.declared.Measure.TheVariants.{Away, Shared};

use refusals::Refusal;

#[unsafe(no_mangle)]
pub extern "C" fn mot_compute_iou_distance_matrix(
    gt_bboxes: &[f64],
    pred_bboxes: &[f64],
    out: &mut [f64],
) -> u32
    ensures number { result ≡ distance_matrix_no gt_bboxes.now pred_bboxes.now (length out.old) }
    ensures written { out.new ≡ matrix_after Away result gt_bboxes.now pred_bboxes.now out.old }
{
    matrix::compute_iou_distance_matrix(gt_bboxes, pred_bboxes, out)
}

#[unsafe(no_mangle)]
pub extern "C" fn mot_iou_matrix(boxes_a: &[f64], boxes_b: &[f64], out: &mut [f64]) -> u32
    ensures number { result ≡ iou_matrix_no boxes_a.now boxes_b.now (length out.old) }
    ensures written { out.new ≡ matrix_after Shared result boxes_a.now boxes_b.now out.old }
{
    matrix::iou_matrix(boxes_a, boxes_b, out)
}

// The counts and lists in 261 places of the lent run, which stays as it is at a refusal.
#[tactic(auto, using(optimize::proofs::Number::fits, solver_flat::proofs::Border::handed_refused, solver_flat::proofs::Border::handed_short, solver_flat::proofs::Border::handed_alone, solver_flat::proofs::Border::handed_found))]
fn write_answer(
    cost: &[f64],
    rows: usize,
    cols: usize,
    max_cost: f64,
    out: &mut [usize],
) -> Result<(), Refusal>
    ensures { Handed cost.now rows cols max_cost (outcome_of result) out.old out.new }
{
    optimize::check_sizes(cost.len(), rows, cols)?;
    if out.len() < 261 {
        return Err(Refusal::NoRoom);
    }
    if cols == 0 {
        solver_flat::write_rows_alone(rows, out);
    } else {
        solver_flat::write_found(cost, rows, cols, max_cost, out);
    }
    Ok(())
}

/// The counts and lists of the search's answer, in 261 places of the lent run.
#[unsafe(no_mangle)]
pub extern "C" fn mot_linear_sum_assignment(
    cost: &[f64],
    rows: usize,
    cols: usize,
    max_cost: f64,
    out: &mut [usize],
) -> u32
    ensures { Handed cost.now rows cols max_cost result out.old out.new }
{
    refusals::outcome(write_answer(cost, rows, cols, max_cost, out))
}
