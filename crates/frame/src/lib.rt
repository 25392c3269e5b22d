// A frame whose pairing is handed in, booked whole or refused, over a sound state.
// Ported from norfair-rs, internal/motmetrics/accumulator.rs, which follows py-motmetrics (NOTICE).
#![tactic(auto)]

ghost use Rattle.std.specs.Prelude.{◌≡◌, ◌≤◌, length};
ghost use Rattle.rows.specs.Rows.{Lies, row_at};
ghost use Rattle.frame.specs.Frame.{sound_state, totals_of, state_with, frame_of, frame_answer};

use refusals::Refusal;
use rows::ExtendedMOTAccumulator;
use totals::{Shares, Totals};

/// The number of a frame, and the state: beside a refusal the one that came.
// Kept: a refusal is a number beside the state at each public call, for C callers too.
#[derive(Clone, Copy)]
pub struct Booked {
    pub number: u32,
    pub state: ExtendedMOTAccumulator,
}

/// What a state holds beside its table.
fn totals_of(s: &ExtendedMOTAccumulator) -> Totals
    ensures { result ≡ totals_of s.now }
{
    Totals {
        used: s.used,
        frame_id: s.frame_id,
        num_matches: s.num_matches,
        num_misses: s.num_misses,
        num_false_positives: s.num_false_positives,
        num_switches: s.num_switches,
        num_objects: s.num_objects,
        total_distance: s.total_distance,
    }
}

/// A state's table with these totals beside it.
fn with_totals(mut s: ExtendedMOTAccumulator, t: Totals) -> ExtendedMOTAccumulator
    ensures { result ≡ state_with s.slots t }
{
    s.used = t.used;
    s.frame_id = t.frame_id;
    s.num_matches = t.num_matches;
    s.num_misses = t.num_misses;
    s.num_false_positives = t.num_false_positives;
    s.num_switches = t.num_switches;
    s.num_objects = t.num_objects;
    s.total_distance = t.total_distance;
    s
}

/// The state after a frame whose pairing is handed in: its rows on trial first, then the counters raised on the trial's table.
fn try_frame(
    s: ExtendedMOTAccumulator,
    gt_ids: &[i32],
    pred_ids: &[i32],
    pair_rows: &[usize; 64],
    pair_cols: &[usize; 64],
    left_rows: &[usize; 64],
    pairs: usize,
    lefts: usize,
    extra: usize,
    distance: f64,
) -> Result<ExtendedMOTAccumulator, Refusal>
    requires used_bound { s.used ≤ 256 }
    requires lies { Lies (length gt_ids.now) (length pred_ids.now) pair_rows.now pair_cols.now left_rows.now pairs lefts }
    requires gt_ids_len_bound { (length gt_ids.now ≤ 64) × (extra ≤ 64) }
    ensures { frame_answer s result ≡ frame_of s (row_at gt_ids.now pred_ids.now pair_rows.now pair_cols.now left_rows.now pairs) pairs lefts extra (length gt_ids.now) distance }
{
    let frame = totals::next_frame(s.frame_id);
    let trial = trial::book_rows(
        s, gt_ids, pred_ids, pair_rows, pair_cols, left_rows, pairs, lefts, frame,
    );
    trial.outcome()?;
    let by = Shares {
        matches: pairs,
        misses: lefts,
        false_positives: extra,
        switches: trial.switches,
        objects: gt_ids.len(),
    };
    let booked = trial.state;
    let before = totals_of(&booked);
    if !totals::room_for_all(before, by) {
        return Err(Refusal::Overflow);
    }
    let raised = totals::raised_by(before, by, distance);
    Ok(with_totals(booked, raised))
}

/// A frame whose pairing is handed in, booked whole or refused.
pub fn book_frame(
    s: ExtendedMOTAccumulator,
    gt_ids: &[i32],
    pred_ids: &[i32],
    pair_rows: &[usize; 64],
    pair_cols: &[usize; 64],
    left_rows: &[usize; 64],
    pairs: usize,
    lefts: usize,
    extra: usize,
    distance: f64,
) -> Booked
    requires used_bound { s.used ≤ 256 }
    requires lies { Lies (length gt_ids.now) (length pred_ids.now) pair_rows.now pair_cols.now left_rows.now pairs lefts }
    requires gt_ids_len_bound { (length gt_ids.now ≤ 64) × (extra ≤ 64) }
    ensures { result ≡ frame_of s (row_at gt_ids.now pred_ids.now pair_rows.now pair_cols.now left_rows.now pairs) pairs lefts extra (length gt_ids.now) distance }
{
    let outcome = try_frame(
        s, gt_ids, pred_ids, pair_rows, pair_cols, left_rows, pairs, lefts, extra, distance,
    );
    match outcome {
        Ok(state) => Booked { number: 0, state },
        Err(refusal) => Booked {
            number: refusal.number(),
            state: s,
        },
    }
}

/// Whether a state that is handed in is one that refusal 1 lets by.
#[tactic(auto, unfolding(crate::specs::Frame::sound_state, totals::specs::Totals::totals_sound))]
pub fn sound(s: ExtendedMOTAccumulator) -> bool
    ensures { result ≡ sound_state s }
{
    totals::totals_sound(totals_of(&s)) && slot_tables::sound(&s.slots, s.used)
}
