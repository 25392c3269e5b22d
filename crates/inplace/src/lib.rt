// A frame whose pairing is handed in, booked in a lent table, or refused with the table as it came: no state is copied.
// Ported from norfair-rs, internal/motmetrics/accumulator.rs, which follows py-motmetrics (NOTICE).
#![tactic(auto)]

ghost use Rattle.std.specs.Prelude.{◌≡◌, ℕ, ◌+◌, ◌<◌, ◌≤◌, length, get_or};
ghost use Rattle.refusals.specs.Refusals.{outcome_of};
ghost use Rattle.rows.specs.Rows.{Lies, row_at};
ghost use Rattle.frame.specs.Frame.{Few};
ghost use Rattle.inplace.specs.InPlace.{Tried, undone, number_of, Framed};

use refusals::Refusal;
use slot_cells::Cells;
use slots::Slot;
use totals::{Shares, Totals};

/// What came of a trial, beside the table: full where a new id found no place, over where a count would have passed.
// Kept: flags beside the totals, as in `rows::Trial`.
#[derive(Clone, Copy)]
pub struct Tally {
    pub totals: Totals,
    pub full: bool,
    pub over: bool,
    pub switches: usize,
}

/// The number of a frame, and the totals: beside a refusal those that came.
// Kept: a refusal is a number beside the totals at each public call, for C callers too.
#[derive(Clone, Copy)]
pub struct Closed {
    pub number: u32,
    pub totals: Totals,
}

/// The rows of a pairing, booked in order in the table, to the last one. What stood at the place of each goes into the log.
fn book_rows(
    run: &mut [i32],
    totals: Totals,
    gt_ids: &[i32],
    pred_ids: &[i32],
    pair_rows: &[usize; 64],
    pair_cols: &[usize; 64],
    left_rows: &[usize; 64],
    pairs: usize,
    lefts: usize,
    frame: i32,
    places: &mut [usize],
    log: &mut [i32],
) -> Tally
    requires used_bound { (totals.used ≤ 256) × (length run.old ≡ 2304) × (length places.old ≡ 64) × (length log.old ≡ 576) }
    requires lies { Lies (length gt_ids.now) (length pred_ids.now) pair_rows.now pair_cols.now left_rows.now pairs lefts }
    ensures { Tried (row_at gt_ids.now pred_ids.now pair_rows.now pair_cols.now left_rows.now pairs) frame run.old totals (pairs + lefts) run.new places.new log.new result }
{
    let mut t = totals;
    let mut full = false;
    let mut over = false;
    let mut switches: usize = 0;
    for k in 0..pairs + lefts {
        let row = rows::row_at(
            gt_ids, pred_ids, pair_rows, pair_cols, left_rows, pairs, lefts, k,
        );
        let found = ids::seek(&run[..t.used], row.id);
        let place = rows::place_of(found, t.used);
        let at = place.map_or(0, |place| place.at);
        let old = columns::read(run, 256, at);
        places[k] = at;
        columns::write(log, 64, k, old);
        let step = rows::book_at(place, Slot::from(old), t.used, row, frame);
        columns::write(run, 256, at, Cells::from(step.slot));
        t.used = step.used;
        full = counts::either(full, step.full);
        over = counts::either(over, step.over);
        switches += counts::one_if(step.switched);
    }
    Tally {
        totals: t,
        full,
        over,
        switches,
    }
}

/// The last n rows of the log put back, the latest first.
fn undo(run: &mut [i32], places: &[usize], log: &[i32], n: usize)
    requires { (length run.old ≡ 2304) × (length places.now ≡ 64) × (length log.now ≡ 576) × (n ≤ 64) × ((j : ℕ) → j < n → get_or places.now j 0 < 256) }
    ensures { run.new ≡ undone run.old places.now log.now n }
{
    for k in (0..n).rev() {
        columns::write(run, 256, places[k], columns::read(log, 64, k));
    }
}

/// Why a frame is refused, by what came of its rows: a new id found no place, and else a count would pass.
#[tactic(auto, unfolding(crate::specs::InPlace::number_of))]
fn check(t: Tally, by: Shares) -> Result<(), Refusal>
    requires { Few by }
    ensures { outcome_of result ≡ number_of t by }
{
    if t.full {
        return Err(Refusal::FullTable);
    }
    if t.over || !totals::room_for_all(t.totals, by) {
        return Err(Refusal::Overflow);
    }
    Ok(())
}

/// A frame whose pairing is handed in: its rows booked in the table, and put back where the frame is refused.
pub fn book_frame(
    run: &mut [i32],
    totals: Totals,
    gt_ids: &[i32],
    pred_ids: &[i32],
    pair_rows: &[usize; 64],
    pair_cols: &[usize; 64],
    left_rows: &[usize; 64],
    pairs: usize,
    lefts: usize,
    extra: usize,
    distance: f64,
) -> Closed
    requires used_bound { (totals.used ≤ 256) × (length run.old ≡ 2304) }
    requires lies { Lies (length gt_ids.now) (length pred_ids.now) pair_rows.now pair_cols.now left_rows.now pairs lefts }
    requires gt_ids_len_bound { (length gt_ids.now ≤ 64) × (extra ≤ 64) }
    ensures { Framed run.old totals (row_at gt_ids.now pred_ids.now pair_rows.now pair_cols.now left_rows.now pairs) pairs lefts extra (length gt_ids.now) distance run.new result }
{
    let frame = totals::next_frame(totals.frame_id);
    let mut places = [0usize; 64];
    let mut log = [0i32; 576];
    let tally = book_rows(
        run,
        totals,
        gt_ids,
        pred_ids,
        pair_rows,
        pair_cols,
        left_rows,
        pairs,
        lefts,
        frame,
        &mut places,
        &mut log,
    );
    let by = Shares {
        matches: pairs,
        misses: lefts,
        false_positives: extra,
        switches: tally.switches,
        objects: gt_ids.len(),
    };
    match check(tally, by) {
        Ok(()) => Closed {
            number: 0,
            totals: totals::raised_by(tally.totals, by, distance),
        },
        Err(refusal) => {
            undo(run, &places, &log, pairs + lefts);
            Closed {
                number: refusal.number(),
                totals,
            }
        }
    }
}
