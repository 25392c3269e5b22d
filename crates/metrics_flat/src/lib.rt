//! The public update of module 4's MOTAccumulator over flat lent numbers, as it goes over the border to C: no enum and no struct crosses.
//! Ported from norfair-rs, metrics/accumulator.rs (NOTICE).
#![tactic(auto)]

ghost use Rattle.std.specs.Prelude.{◌≡◌, true, [], length};
ghost use Rattle.sizes.specs.Sizes.{Long};
ghost use Rattle.metrics.specs.State.{sound_state};
ghost use Rattle.metrics_in_place.specs.InPlace.{runs_of, state_of};
ghost use Rattle.metrics_flat.specs.Flat.{whole_of, Checked, Answered};

use metrics_in_place::{Closed, Used};

// Whether a state that is handed in is one that refusal 1 lets by: of the log its used count alone.
#[tactic(auto, unfolding(metrics::specs::State::sound_state, partners::specs::Partners::ids_sound, seen::specs::Seen::hypotheses_sound))]
fn sound(table: &[i32], hypotheses: &[i32], used: Used) -> bool
    requires { (length table.now ≡ 768) × (length hypotheses.now ≡ 1024) }
    ensures { result ≡ sound_state (state_of (runs_of [] [] table.now hypotheses.now) used) }
{
    used.events <= 1024
        && seen::sound_up_to(&table[..256], used.truths, 256)
        && seen::sound_up_to(hypotheses, used.hypotheses, 1024)
}

// The update of any runs and used counts: the lowest number that applies, and the used counts.
fn update_checked(
    numbers: &mut [i32],
    log_distances: &mut [f64],
    table: &mut [i32],
    hypotheses: &mut [i32],
    used: Used,
    frame: i32,
    gt_ids: &[i32],
    hyp_ids: &[i32],
    gt_boxes: &[f64],
    hyp_boxes: &[f64],
    iou_threshold: f64,
) -> Closed
    requires { Long (length numbers.old) (length log_distances.old) (length table.old) × (length hypotheses.old ≡ 1024) }
    ensures { Checked (runs_of numbers.old log_distances.old table.old hypotheses.old) used frame gt_ids.now hyp_ids.now gt_boxes.now hyp_boxes.now iou_threshold (runs_of numbers.new log_distances.new table.new hypotheses.new) result }
{
    if !sound(&table[..], &hypotheses[..], used) {
        return Closed { number: 1, used };
    }
    metrics_in_place::update_in_place(
        numbers,
        log_distances,
        table,
        hypotheses,
        used,
        frame,
        gt_ids,
        hyp_ids,
        gt_boxes,
        hyp_boxes,
        iou_threshold,
    )
}

// Whether the lent runs are as long as a state's.
#[tactic(auto, unfolding(crate::specs::Flat::whole_of))]
fn whole(numbers: usize, log_distances: usize, table: usize, hypotheses: usize, used: usize) -> bool
    ensures { result ≡ whole_of numbers log_distances table hypotheses used }
{
    sizes::log_and_table(numbers, log_distances, table) && hypotheses == 1024 && used == 3
}

// The update of lent runs that are as long as a state's.
// Kept: a number and no Result, as `Closed` and `Answered`, which may not change, have it.
fn update_whole(
    numbers: &mut [i32],
    log_distances: &mut [f64],
    table: &mut [i32],
    hypotheses: &mut [i32],
    used: &mut [usize],
    frame: i32,
    gt_ids: &[i32],
    hyp_ids: &[i32],
    gt_boxes: &[f64],
    hyp_boxes: &[f64],
    iou_threshold: f64,
) -> u32
    requires { whole_of (length numbers.old) (length log_distances.old) (length table.old) (length hypotheses.old) (length used.old) ≡ true }
    ensures { Answered (runs_of numbers.old log_distances.old table.old hypotheses.old) used.old frame gt_ids.now hyp_ids.now gt_boxes.now hyp_boxes.now iou_threshold (runs_of numbers.new log_distances.new table.new hypotheses.new) used.new result }
{
    let came = Used {
        events: used[0],
        truths: used[1],
        hypotheses: used[2],
    };
    let c = update_checked(
        numbers,
        log_distances,
        table,
        hypotheses,
        came,
        frame,
        gt_ids,
        hyp_ids,
        gt_boxes,
        hyp_boxes,
        iou_threshold,
    );
    let number = c.number;
    if number != 0 {
        return number;
    }
    let after = c.used;
    used[0] = after.events;
    used[1] = after.truths;
    used[2] = after.hypotheses;
    0
}

/// The update of any lent state by any frame: the lowest number that applies. Beside a refusal every lent number stays.
pub fn update(
    numbers: &mut [i32],
    log_distances: &mut [f64],
    table: &mut [i32],
    hypotheses: &mut [i32],
    used: &mut [usize],
    frame: i32,
    gt_ids: &[i32],
    hyp_ids: &[i32],
    gt_boxes: &[f64],
    hyp_boxes: &[f64],
    iou_threshold: f64,
) -> u32
    ensures { Answered (runs_of numbers.old log_distances.old table.old hypotheses.old) used.old frame gt_ids.now hyp_ids.now gt_boxes.now hyp_boxes.now iou_threshold (runs_of numbers.new log_distances.new table.new hypotheses.new) used.new result }
{
    if !whole(
        numbers.len(),
        log_distances.len(),
        table.len(),
        hypotheses.len(),
        used.len(),
    ) {
        let shape = shape::check_shape(
            gt_ids.len(),
            gt_boxes.len(),
            hyp_ids.len(),
            hyp_boxes.len(),
        );
        return sizes::wrong_length(shape).number();
    }
    update_whole(
        numbers,
        log_distances,
        table,
        hypotheses,
        used,
        frame,
        gt_ids,
        hyp_ids,
        gt_boxes,
        hyp_boxes,
        iou_threshold,
    )
}
