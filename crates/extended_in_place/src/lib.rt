//! The extended accumulator's inner update in place: the table is a lent run of numbers, and no state is copied. Playback and the
//! border to C call it.
//! Ported from norfair-rs, internal/motmetrics/accumulator.rs, which follows py-motmetrics (NOTICE).
#![tactic(auto)]

ghost use Rattle.std.specs.Prelude.{◌≡◌, ◌≤◌, length};
ghost use Rattle.pairing.specs.Pairing.{found};
ghost use Rattle.extended.specs.Update.{Lie, rows_in};
ghost use Rattle.inplace.specs.InPlace.{Framed};
ghost use Rattle.extended_in_place.specs.Updated.{Updated};

use inplace::Closed;
use pairing::Pairing;
use totals::Totals;

// A frame whose pairing is there.
fn book(run: &mut [i32], totals: Totals, gt_ids: &[i32], pred_ids: &[i32], p: Pairing) -> Closed
    requires used_bound { (totals.used ≤ 256) × (length run.old ≡ 2304) }
    requires lie { Lie (length gt_ids.now) (length pred_ids.now) (found p) }
    ensures { Framed run.old totals (rows_in gt_ids.now pred_ids.now (found p)) p.pairs p.lefts p.extra (length gt_ids.now) p.distance run.new result }
{
    inplace::book_frame(
        run,
        totals,
        gt_ids,
        pred_ids,
        &p.pair_rows,
        &p.pair_cols,
        &p.left_rows,
        p.pairs,
        p.lefts,
        p.extra,
        p.distance,
    )
}

/// The update of a state that is sound already, in its lent table: 2, 3, 4, 5, 7 or 0, and the totals. Of soundness it needs the used count alone.
pub fn update_in_place(
    run: &mut [i32],
    totals: Totals,
    gt_ids: &[i32],
    gt_bboxes: &[f64],
    pred_ids: &[i32],
    pred_bboxes: &[f64],
    threshold: f64,
) -> Closed
    requires { (totals.used ≤ 256) × (length run.old ≡ 2304) }
    ensures { Updated run.old totals gt_ids.now gt_bboxes.now pred_ids.now pred_bboxes.now threshold run.new result }
{
    let total = totals.total_distance;
    match pairing::pair(
        gt_ids.len(),
        gt_bboxes,
        pred_ids.len(),
        pred_bboxes,
        threshold,
        total,
    ) {
        Ok(p) => book(run, totals, gt_ids, pred_ids, p),
        Err(refusal) => Closed {
            number: refusal.number(),
            totals,
        },
    }
}
