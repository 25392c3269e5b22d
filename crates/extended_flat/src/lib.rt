//! The extended accumulator's public update over flat lent numbers, as it goes over the border to C: no enum and no struct crosses.
//! Ported from norfair-rs, internal/motmetrics/accumulator.rs, which follows py-motmetrics (NOTICE).
#![tactic(auto)]

ghost use Rattle.std.specs.Prelude.{◌≡◌, true, [], ◌∷◌, ◌≤◌, pos, length, take, get_or};
ghost use Rattle.std.specs.Int.Signed.{non_neg};
ghost use Rattle.slots.specs.Slots.{counts_sound, sound_of};
ghost use Rattle.columns.specs.Columns.{slots_of};
ghost use Rattle.frame.specs.Frame.{sound_state};
ghost use Rattle.inplace.specs.InPlace.{state_of};
ghost use Rattle.extended_flat.specs.Flat.{totals_in, counters_of, whole_of, Checked, Answered};

use inplace::Closed;
use totals::Totals;

// Whether no slot in use has a negative count. It goes on to the end whatever it finds, so that the compiler can test several at a time.
fn counts_sound(run: &[i32], used: usize) -> bool
    requires { (used ≤ 256) × (length run.now ≡ 2304) }
    ensures { result ≡ counts_sound (take used (slots_of run.now)) }
{
    let mut all = true;
    for i in 0..used {
        let slot = slot_cells::slot_of(columns::read(run, 256, i));
        if !slot.lifecycle.sound() {
            all = false;
        }
    }
    all
}

// Whether a table that is handed in is one that refusal 1 lets by.
#[tactic(auto, using(columns::proofs::Laws::ids_there), unfolding(slots::specs::Slots::sound_of))]
fn table_sound(run: &[i32], used: usize) -> bool
    requires { length run.now ≡ 2304 }
    ensures { result ≡ sound_of (slots_of run.now) used }
{
    used <= 256 && counts_sound(run, used) && ids::distinct(&run[..used])
}

// Whether a state that is handed in is one that refusal 1 lets by.
#[tactic(auto, unfolding(frame::specs::Frame::sound_state, frame::specs::Frame::totals_sound))]
fn sound(run: &[i32], totals: Totals) -> bool
    requires { length run.now ≡ 2304 }
    ensures { result ≡ sound_state (state_of run.now totals) }
{
    totals::totals_sound(totals) && table_sound(run, totals.used)
}

// The update of any table and totals: the lowest number that applies, and the totals.
fn update_checked(
    run: &mut [i32],
    totals: Totals,
    gt_ids: &[i32],
    gt_bboxes: &[f64],
    pred_ids: &[i32],
    pred_bboxes: &[f64],
    threshold: f64,
) -> Closed
    requires { length run.old ≡ 2304 }
    ensures { Checked run.old totals gt_ids.now gt_bboxes.now pred_ids.now pred_bboxes.now threshold run.new result }
{
    if !sound(&run[..], totals) {
        return Closed { number: 1, totals };
    }
    extended_in_place::update_in_place(
        run,
        totals,
        gt_ids,
        gt_bboxes,
        pred_ids,
        pred_bboxes,
        threshold,
    )
}

// The totals that seven counters and a distance stand for.
fn totals_in(counters: &[i32], distance: &[f64]) -> Totals
    requires { (length counters.now ≡ 7) × (length distance.now ≡ 1) × (non_neg (get_or counters.now 0 (pos 0)) ≡ true) }
    ensures { result ≡ totals_in counters.now distance.now }
{
    Totals {
        used: sizes::size(counters[0]),
        frame_id: counters[1],
        num_matches: counters[2],
        num_misses: counters[3],
        num_false_positives: counters[4],
        num_switches: counters[5],
        num_objects: counters[6],
        total_distance: distance[0],
    }
}

// The totals, written over the counters and the distance.
fn write_totals(t: Totals, counters: &mut [i32], distance: &mut [f64])
    requires { (length counters.old ≡ 7) × (length distance.old ≡ 1) × (t.used ≤ 256) }
    ensures { (counters.new ≡ counters_of t) × (distance.new ≡ t.total_distance ∷ []) }
{
    counters.copy_from_slice(&[
        t.used as i32,
        t.frame_id,
        t.num_matches,
        t.num_misses,
        t.num_false_positives,
        t.num_switches,
        t.num_objects,
    ]);
    distance[0] = t.total_distance;
}

// Whether the lent runs are as long as a state's.
#[tactic(auto, unfolding(crate::specs::Flat::whole_of))]
fn whole(run: usize, counters: usize, distance: usize) -> bool
    ensures { result ≡ whole_of run counters distance }
{
    run == 2304 && counters == 7 && distance == 1
}

// The update of lent runs that are as long as a state's.
// Kept: a number and no Result, as `Closed` and `Answered`, which may not change, have it.
fn update_whole(
    run: &mut [i32],
    counters: &mut [i32],
    distance: &mut [f64],
    gt_ids: &[i32],
    gt_bboxes: &[f64],
    pred_ids: &[i32],
    pred_bboxes: &[f64],
    threshold: f64,
) -> u32
    requires { whole_of (length run.old) (length counters.old) (length distance.old) ≡ true }
    ensures { Answered run.old counters.old distance.old gt_ids.now gt_bboxes.now pred_ids.now pred_bboxes.now threshold run.new counters.new distance.new result }
{
    if !counts::not_negative(counters[0]) {
        return 1;
    }
    let totals = totals_in(&counters[..], &distance[..]);
    let c = update_checked(
        run,
        totals,
        gt_ids,
        gt_bboxes,
        pred_ids,
        pred_bboxes,
        threshold,
    );
    if c.number != 0 {
        return c.number;
    }
    write_totals(c.totals, counters, distance);
    0
}

/// The update of any lent state by any frame: the lowest number that applies. Beside a refusal every lent number stays.
pub fn update(
    run: &mut [i32],
    counters: &mut [i32],
    distance: &mut [f64],
    gt_ids: &[i32],
    gt_bboxes: &[f64],
    pred_ids: &[i32],
    pred_bboxes: &[f64],
    threshold: f64,
) -> u32
    ensures { Answered run.old counters.old distance.old gt_ids.now gt_bboxes.now pred_ids.now pred_bboxes.now threshold run.new counters.new distance.new result }
{
    if !whole(run.len(), counters.len(), distance.len()) {
        let shape = shape::check_shape(
            gt_ids.len(),
            gt_bboxes.len(),
            pred_ids.len(),
            pred_bboxes.len(),
        );
        return sizes::wrong_length(shape).number();
    }
    update_whole(
        run,
        counters,
        distance,
        gt_ids,
        gt_bboxes,
        pred_ids,
        pred_bboxes,
        threshold,
    )
}
