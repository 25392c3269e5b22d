// Why a matrix is refused: too many boxes, a bad box, too little room; and the boxes of a run of floats.
// Ported from norfair-rs, internal/motmetrics/iou.rs, which follows py-motmetrics (NOTICE).
#![tactic(auto)]

ghost use Rattle.std.specs.Prelude.{◌≡◌, ◌/◌, ◌<◌, ◌≤◌, length};
ghost use Rattle.refusals.specs.Refusals.{outcome_of};
ghost use Rattle.matrix_numbers.specs.Numbers.{box_at, any_bad, any_read_bad, shape_no, room_no, distance_matrix_no, iou_matrix_no};

use boxes::{Box, is_bad};
use refusals::Refusal;

/// The box whose four floats start at 4 * i.
pub fn box_at(run: &[f64], i: usize) -> Box
    requires { i < length run.now / 4 }
    ensures { result ≡ box_at run.now i }
{
    let at = 4 * i;
    Box {
        x_min: run[at],
        y_min: run[at + 1],
        x_max: run[at + 2],
        y_max: run[at + 3],
    }
}

// Whether one of the boxes is bad.
fn any_bad(run: &[f64]) -> bool
    ensures { result ≡ any_bad run.now (length run.now / 4) }
{
    for i in 0..run.len() / 4 {
        if is_bad(box_at(run, i)) {
            return true;
        }
    }
    false
}

// Whether a box that is read is bad: none is read where a side is empty.
#[tactic(auto, unfolding(crate::specs::Numbers::any_read_bad))]
fn any_read_bad(gt: &[f64], pred: &[f64]) -> bool
    ensures { result ≡ any_read_bad gt.now pred.now }
{
    gt.len() / 4 != 0 && pred.len() / 4 != 0 && (any_bad(gt) || any_bad(pred))
}

// At most 64 boxes on a side, and no run that ends within a box: what goes by lengths alone.
#[tactic(auto, unfolding(crate::specs::Numbers::shape_no))]
fn check_lengths(gt: usize, pred: usize) -> Result<(), Refusal>
    ensures { outcome_of result ≡ shape_no gt pred }
{
    if gt / 4 > 64 || pred / 4 > 64 {
        return Err(Refusal::TooMany);
    }
    if gt % 4 != 0 || pred % 4 != 0 {
        return Err(Refusal::Misfit);
    }
    Ok(())
}

// Room for a matrix of so many rows and columns in the places lent.
#[tactic(auto, unfolding(crate::specs::Numbers::room_no))]
fn check_room(rows: usize, cols: usize, places: usize) -> Result<(), Refusal>
    requires { (rows ≤ 64) × (cols ≤ 64) }
    ensures { outcome_of result ≡ room_no rows cols places }
{
    if places < rows * cols {
        Err(Refusal::NoRoom)
    } else {
        Ok(())
    }
}

/// Whether the distance matrix of these boxes can be written into so many places.
///
/// # Errors
/// The first that applies of `TooMany`, `Misfit`, `EmptyBox` and `NoRoom`.
#[tactic(auto, using(crate::proofs::Laws::shape_small), unfolding(crate::specs::Numbers::distance_matrix_no))]
pub fn check_distance_matrix(gt: &[f64], pred: &[f64], places: usize) -> Result<(), Refusal>
    ensures { outcome_of result ≡ distance_matrix_no gt.now pred.now places }
{
    check_lengths(gt.len(), pred.len())?;
    if any_read_bad(gt, pred) {
        return Err(Refusal::EmptyBox);
    }
    check_room(gt.len() / 4, pred.len() / 4, places)
}

/// Whether the matrix of shares of these boxes can be written into so many places. It refuses no box.
///
/// # Errors
/// The first that applies of `TooMany`, `Misfit` and `NoRoom`.
#[tactic(auto, using(crate::proofs::Laws::shape_small), unfolding(crate::specs::Numbers::iou_matrix_no))]
pub fn check_iou_matrix(gt: &[f64], pred: &[f64], places: usize) -> Result<(), Refusal>
    ensures { outcome_of result ≡ iou_matrix_no gt.now pred.now places }
{
    check_lengths(gt.len(), pred.len())?;
    check_room(gt.len() / 4, pred.len() / 4, places)
}
