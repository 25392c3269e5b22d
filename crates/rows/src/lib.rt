// The rows of a frame, and what the booking of one does to a table of slots.
// Ported from norfair-rs, internal/motmetrics/accumulator.rs, which follows py-motmetrics (NOTICE).
#![tactic(auto)]

ghost use Rattle.std.specs.Prelude.{◌≡◌, ◌+◌, ◌<◌, ◌≤◌, length};
ghost use Rattle.rows.specs.Rows.{new_state, Lies, row_at, spot_of, step_of, spot_answer, trial_outcome};

use ids::Lookup;
use refusals::Refusal;
use slots::{Booked, Slot};

/// What an accumulator has counted so far, and its table: the first used slots, in order of first booking.
#[derive(Clone, Copy)]
pub struct ExtendedMOTAccumulator {
    pub slots: [Slot; 256],
    pub used: usize,
    pub frame_id: i32,
    pub num_matches: i32,
    pub num_misses: i32,
    pub num_false_positives: i32,
    pub num_switches: i32,
    pub num_objects: i32,
    pub total_distance: f64,
}

impl ExtendedMOTAccumulator {
    /// Frame 0, and nothing counted.
    pub fn new() -> Self
        ensures { result ≡ new_state }
    {
        Self {
            slots: [slots::new_slot(0, 0); 256],
            used: 0,
            frame_id: 0,
            num_matches: 0,
            num_misses: 0,
            num_false_positives: 0,
            num_switches: 0,
            num_objects: 0,
            total_distance: 0.0,
        }
    }
}

/// A truth row: its id, and the id of the prediction that it is matched to, or nobody where it is missed.
#[derive(Clone, Copy)]
pub struct Row {
    pub id: i32,
    pub to: Option<i32>,
}

/// Where a row is booked: at the place of its id, or at a fresh one after the used ones.
#[derive(Clone, Copy)]
pub struct Place {
    pub at: usize,
    pub fresh: bool,
}

/// What a row does to the table: the slot that stands at its place then, and how many places are used. Where it found no place it is full,
/// where a count would have passed it is over, and the slot then as it was.
// Kept: flags beside the slot, since a row that is full or over does not end the trial.
#[derive(Clone, Copy)]
pub struct Step {
    pub slot: Slot,
    pub used: usize,
    pub full: bool,
    pub over: bool,
    pub switched: bool,
}

/// A trial booking, which never stops: full where a new id found no place, over where a count would have passed.
// Kept: flags beside the state, since `trial::book_rows` says of every frame what came of all its rows.
#[derive(Clone, Copy)]
pub struct Trial {
    pub state: ExtendedMOTAccumulator,
    pub full: bool,
    pub over: bool,
    pub switches: usize,
}

impl Trial {
    /// Whether the rows can be kept: refused where a new id found no place, and else where a count would have passed.
    pub fn outcome(&self) -> Result<(), Refusal>
        ensures { result ≡ trial_outcome self.now }
    {
        if self.full {
            return Err(Refusal::FullTable);
        }
        if self.over {
            return Err(Refusal::Overflow);
        }
        Ok(())
    }
}

/// The row that is booked as number k: matched rows in the order of the pairs, then missed rows.
#[tactic(auto, unfolding(crate::specs::Rows::row_at))]
pub fn row_at(
    gt_ids: &[i32],
    pred_ids: &[i32],
    pair_rows: &[usize; 64],
    pair_cols: &[usize; 64],
    left_rows: &[usize; 64],
    pairs: usize,
    lefts: usize,
    k: usize,
) -> Row
    requires lies { Lies (length gt_ids.now) (length pred_ids.now) pair_rows.now pair_cols.now left_rows.now pairs lefts }
    requires k_bound { k < pairs + lefts }
    ensures { result ≡ row_at gt_ids.now pred_ids.now pair_rows.now pair_cols.now left_rows.now pairs k }
{
    if k < pairs {
        let i = pair_rows[k];
        let j = pair_cols[k];
        return Row {
            id: gt_ids[i],
            to: Some(pred_ids[j]),
        };
    }
    let i = left_rows[k - pairs];
    Row {
        id: gt_ids[i],
        to: None,
    }
}

/// Where a row is booked, by the lookup of its id in the used places; None where the table is full.
#[tactic(auto, unfolding(crate::specs::Rows::spot_of))]
pub fn place_of(found: Lookup, used: usize) -> Option<Place>
    ensures { spot_answer result ≡ spot_of found used }
{
    let Lookup::At(at) = found else {
        if used >= 256 {
            return None;
        }
        return Some(Place {
            at: used,
            fresh: true,
        });
    };
    Some(Place { at, fresh: false })
}

/// What a row does, given where it is booked and the slot that stands there; with no place nothing but that it is full.
#[tactic(auto, unfolding(crate::specs::Rows::step_of))]
pub fn book_at(place: Option<Place>, old: Slot, used: usize, row: Row, frame: i32) -> Step
    requires { used ≤ 256 }
    ensures { result ≡ step_of (spot_answer place) old used row frame }
{
    let Some(place) = place else {
        return Step {
            slot: old,
            used,
            full: true,
            over: false,
            switched: false,
        };
    };
    let (before, used) = if place.fresh {
        (slots::new_slot(row.id, frame), used + 1)
    } else {
        (old, used)
    };
    match slots::book_slot(before, row.to, frame) {
        Some(Booked { slot, switched }) => Step {
            slot,
            used,
            full: false,
            over: false,
            switched,
        },
        None => Step {
            slot: before,
            used,
            full: false,
            over: true,
            switched: false,
        },
    }
}
