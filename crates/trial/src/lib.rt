// The rows of a frame, booked in a table of slots on a copy of the state: what would come of the frame, before anything of it is kept.
// Ported from norfair-rs, internal/motmetrics/accumulator.rs, which follows py-motmetrics (NOTICE).
#![tactic(auto)]

ghost use Rattle.std.specs.Prelude.{◌≡◌, ◌+◌, ◌≤◌, length};
ghost use Rattle.rows.specs.Rows.{Lies, row_at, trial_after};

use counts::either;
use rows::{ExtendedMOTAccumulator, Trial, book_at, place_of, row_at};

/// The rows of a pairing, booked in order on a copy of the state, to the last one, whatever comes of those before it.
pub fn book_rows(
    s: ExtendedMOTAccumulator,
    gt_ids: &[i32],
    pred_ids: &[i32],
    pair_rows: &[usize; 64],
    pair_cols: &[usize; 64],
    left_rows: &[usize; 64],
    pairs: usize,
    lefts: usize,
    frame: i32,
) -> Trial
    requires used_bound { s.used ≤ 256 }
    requires lies { Lies (length gt_ids.now) (length pred_ids.now) pair_rows.now pair_cols.now left_rows.now pairs lefts }
    ensures booked { result ≡ trial_after (row_at gt_ids.now pred_ids.now pair_rows.now pair_cols.now left_rows.now pairs) frame s (pairs + lefts) }
    ensures few { result.switches ≤ pairs + lefts }
{
    let mut t = s;
    let mut ids = slot_tables::ids_of(&t.slots, t.used);
    let mut full = false;
    let mut over = false;
    let mut switches: usize = 0;
    for k in 0..pairs + lefts {
        let row = row_at(
            gt_ids, pred_ids, pair_rows, pair_cols, left_rows, pairs, lefts, k,
        );
        let found = ids::seek(&ids[..t.used], row.id);
        let place = place_of(found, t.used);
        let at = place.map_or(0, |place| place.at);
        let step = book_at(place, t.slots[at], t.used, row, frame);
        t.slots[at] = step.slot;
        ids[at] = step.slot.lifecycle.gt_id;
        t.used = step.used;
        full = either(full, step.full);
        over = either(over, step.over);
        switches += counts::one_if(step.switched);
    }
    Trial {
        state: t,
        full,
        over,
        switches,
    }
}
