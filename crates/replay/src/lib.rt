//! A frame handed to both accumulators: booked by both, or by neither.
#![tactic(auto)]

ghost use Rattle.std.specs.Prelude.{◌≡◌, ◌-◌, nat_abs};
ghost use Rattle.replay.specs.Replay.{row_of, refused_at, step_of};

use metrics::MOTAccumulator;
use rows::ExtendedMOTAccumulator;
use summary::Row;
use wholes::size;

/// The accumulators that a scene is scored by: the extended one, and module 4's.
#[derive(Clone, Copy)]
pub struct Both {
    pub extended: ExtendedMOTAccumulator,
    pub metrics: MOTAccumulator,
}

/// The numbers that both gave, the frame's row, and the states: beside a refusal a row of zeros and the states that came.
// Kept: two numbers beside the states, as `step_of` promises them.
#[derive(Clone, Copy)]
pub struct Step {
    pub extended_number: u32,
    pub metrics_number: u32,
    pub row: Row,
    pub both: Both,
}

/// What a frame that is refused adds.
const NO_ROW: Row = Row {
    matches: 0,
    misses: 0,
    false_positives: 0,
    switches: 0,
};

fn gap(after: i32, before: i32) -> u64
    ensures { result ≡ nat_abs after - nat_abs before }
{
    size(after).saturating_sub(size(before))
}

fn added(before: ExtendedMOTAccumulator, after: ExtendedMOTAccumulator) -> Row
    ensures { result ≡ row_of before after }
{
    Row {
        matches: gap(after.num_matches, before.num_matches),
        misses: gap(after.num_misses, before.num_misses),
        false_positives: gap(after.num_false_positives, before.num_false_positives),
        switches: gap(after.num_switches, before.num_switches),
    }
}

fn refused(b: Both, extended_number: u32, metrics_number: u32) -> Step
    ensures { result ≡ refused_at b extended_number metrics_number }
{
    Step {
        extended_number,
        metrics_number,
        row: NO_ROW,
        both: b,
    }
}

/// A frame of this number, from 1. A pair is one at a distance of at most a half, and so at an IoU of at least a half.
pub fn play_frame(
    b: Both,
    frame: i32,
    truth_ids: &[i32],
    truth_boxes: &[f64],
    ids: &[i32],
    boxes: &[f64],
) -> Step
    ensures { result ≡ step_of b frame truth_ids.now truth_boxes.now ids.now boxes.now }
{
    // Kept: both updates answer by a number beside the state, as at each public call, and `step_of` hands on which number.
    let e = extended::update(b.extended, truth_ids, truth_boxes, ids, boxes, 0.5);
    if e.number != 0 {
        return refused(b, e.number, 0);
    }
    let m = metrics_update::update(b.metrics, frame, truth_ids, ids, truth_boxes, boxes, 0.5);
    if m.number != 0 {
        return refused(b, 0, m.number);
    }
    let row = added(b.extended, e.state);
    let extended = e.state;
    let metrics = m.state;
    Step {
        extended_number: 0,
        metrics_number: 0,
        row,
        both: Both { extended, metrics },
    }
}
