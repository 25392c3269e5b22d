// How a frame's truth boxes are paired with its predictions, or why it is refused: too many of them, a misfit, a bad box.
// Ported from norfair-rs, internal/motmetrics/accumulator.rs, which follows py-motmetrics (NOTICE).
#![tactic(auto)]

ghost use Rattle.std.specs.Prelude.{◌≡◌, ℕ, ◌+◌, ◌*◌, ◌<◌, ◌≤◌, length, get_or};
ghost use Rattle.shape.specs.Shape.{shape_no};
ghost use Rattle.pairing.specs.Pairing.{rows_of, cols_of, sum_of, paired_of, no_pairs, pairing_of, found, answered};

use optimize::Assignment;
use refusals::Refusal;

/// The pairs by row and column, the rows that are left, and how many predictions are extra; zeros beyond each count.
/// The distance is the total so far with that of every pair added, in order.
#[derive(Clone, Copy)]
pub struct Pairing {
    pub pair_rows: [usize; 64],
    pub pair_cols: [usize; 64],
    pub left_rows: [usize; 64],
    pub pairs: usize,
    pub lefts: usize,
    pub extra: usize,
    pub distance: f64,
}

// The rows and the columns of the pairs, all 64 places: those beyond the pairs are 0 in the solver's list.
fn indices(assignments: [Assignment; 64]) -> ([usize; 64], [usize; 64])
    ensures { (result.0 ≡ rows_of assignments) × (result.1 ≡ cols_of assignments) }
{
    let mut rows = [0; 64];
    let mut cols = [0; 64];
    // Kept: tried and slower, by the array's `map`: 713 ns against 105, each with the filling and reading of the lists.
    for k in 0..64 {
        let pair = assignments[k];
        rows[k] = pair.row_idx;
        cols[k] = pair.col_idx;
    }
    (rows, cols)
}

// The distances of the pairs, added to the total in their order.
fn sum_distances(
    m: &[f64],
    w: usize,
    rows: &[usize; 64],
    cols: &[usize; 64],
    pairs: usize,
    total: f64,
) -> f64
    requires { (pairs ≤ 64) × ((k : ℕ) → k < pairs → get_or rows.now k 0 * w + get_or cols.now k 0 < length m.now) }
    ensures { result ≡ sum_of m.now w rows.now cols.now pairs total }
{
    let mut sum = total;
    for k in 0..pairs {
        sum += m[rows[k] * w + cols[k]];
    }
    sum
}

// No pair and no row left: predictions that are all extra, and the total as it was.
#[tactic(auto, unfolding(crate::specs::Pairing::no_pairs))]
fn no_pairs(extra: usize, total: f64) -> Pairing
    ensures { found result ≡ no_pairs 0 extra total }
{
    Pairing {
        pair_rows: [0; 64],
        pair_cols: [0; 64],
        left_rows: [0; 64],
        pairs: 0,
        lefts: 0,
        extra,
        distance: total,
    }
}

// The pairing of a frame with truth, whose distances are known.
fn paired(m: &[f64], h: usize, w: usize, max_cost: f64, total: f64) -> Pairing
    requires { (0 < h) × (h ≤ 64) × (w ≤ 64) × (length m.now ≡ h * w) }
    ensures { found result ≡ paired_of m.now h w max_cost total }
{
    let found = solver::solve(m, h, w, max_cost);
    let assignments = found.assignments;
    let left_rows = found.unmatched_rows;
    let pairs = found.num_assignments;
    let (pair_rows, pair_cols) = indices(assignments);
    let distance = sum_distances(m, w, &pair_rows, &pair_cols, pairs, total);
    Pairing {
        pair_rows,
        pair_cols,
        left_rows,
        pairs,
        lefts: found.num_unmatched_rows,
        extra: found.num_unmatched_cols,
        distance,
    }
}

// The pairing of a frame in shape, with its distances in a lent run that has room for them.
fn pair_in(
    gt_ids: usize,
    gt_bboxes: &[f64],
    pred_ids: usize,
    pred_bboxes: &[f64],
    threshold: f64,
    total: f64,
    m: &mut [f64],
) -> Result<Pairing, Refusal>
    requires in_shape { shape_no gt_ids (length gt_bboxes.now) pred_ids (length pred_bboxes.now) ≡ 0 }
    requires has_room { gt_ids * pred_ids ≤ length m.old }
    ensures { answered result ≡ pairing_of gt_ids gt_bboxes.now pred_ids pred_bboxes.now threshold total }
{
    matrix::write_distances(gt_bboxes, pred_bboxes, m)?;
    if gt_ids == 0 {
        return Ok(no_pairs(pred_ids, total));
    }
    let n = gt_ids * pred_ids;
    Ok(paired(&m[..n], gt_ids, pred_ids, threshold, total))
}

// The pairing of a frame in shape whose distances fit N places.
fn pair_within<const N: usize>(
    gt_ids: usize,
    gt_bboxes: &[f64],
    pred_ids: usize,
    pred_bboxes: &[f64],
    threshold: f64,
    total: f64,
) -> Result<Pairing, Refusal>
    requires in_shape { shape_no gt_ids (length gt_bboxes.now) pred_ids (length pred_bboxes.now) ≡ 0 }
    requires has_room { gt_ids * pred_ids ≤ N }
    requires few { N ≤ 4096 }
    ensures { answered result ≡ pairing_of gt_ids gt_bboxes.now pred_ids pred_bboxes.now threshold total }
{
    let mut m = [0.0; N];
    pair_in(
        gt_ids,
        gt_bboxes,
        pred_ids,
        pred_bboxes,
        threshold,
        total,
        &mut m,
    )
}

/// The pairing of a frame of so many ids and these boxes. `total` is the sum of distances so far.
///
/// # Errors
/// The first that applies of `TooMany`, `Misfit` and `EmptyBox`.
pub fn pair(
    gt_ids: usize,
    gt_bboxes: &[f64],
    pred_ids: usize,
    pred_bboxes: &[f64],
    threshold: f64,
    total: f64,
) -> Result<Pairing, Refusal>
    ensures { answered result ≡ pairing_of gt_ids gt_bboxes.now pred_ids pred_bboxes.now threshold total }
{
    shape::check_shape(gt_ids, gt_bboxes.len(), pred_ids, pred_bboxes.len())?;
    // To clear 4,096 places costs more than all else of a small frame.
    let n = gt_ids * pred_ids;
    if n <= 64 {
        pair_within::<64>(gt_ids, gt_bboxes, pred_ids, pred_bboxes, threshold, total)
    } else if n <= 1024 {
        pair_within::<1024>(gt_ids, gt_bboxes, pred_ids, pred_bboxes, threshold, total)
    } else {
        pair_within::<4096>(gt_ids, gt_bboxes, pred_ids, pred_bboxes, threshold, total)
    }
}
