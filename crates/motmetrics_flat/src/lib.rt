//! The public update of module 3's MOTAccumulator over flat lent numbers, as it goes over the border to C: no enum and no struct crosses.
//! Ported from norfair-rs, internal/motmetrics/accumulator.rs, which follows py-motmetrics (NOTICE).
#![tactic(auto)]

ghost use Rattle.std.specs.Prelude.{◌≡◌, true, [], length};
ghost use Rattle.sizes.specs.Sizes.{Long};
ghost use Rattle.motmetrics.specs.State.{sound_state};
ghost use Rattle.motmetrics_in_place.specs.Updated.{runs_of, state_of};
ghost use Rattle.motmetrics_flat.specs.Flat.{whole_of, Checked, Answered};

use motmetrics_in_place::{Closed, Used};

// Whether a state that is handed in is one that refusal 1 lets by: of the log its used count alone.
#[tactic(auto, unfolding(motmetrics::specs::State::sound_state, partners::specs::Partners::ids_sound))]
fn sound(table: &[i32], used: Used) -> bool
    requires { length table.now ≡ 768 }
    ensures { result ≡ sound_state (state_of (runs_of [] [] table.now) used) }
{
    used.events <= 1024 && seen::sound_up_to(&table[..256], used.truths, 256)
}

// The update of any runs and used counts: the lowest number that applies, and the used counts.
fn update_checked(
    numbers: &mut [i32],
    log_distances: &mut [f64],
    table: &mut [i32],
    used: Used,
    frame_id: i32,
    object_ids: &[i32],
    hypothesis_ids: &[i32],
    distances: &[f64],
) -> Closed
    requires { Long (length numbers.old) (length log_distances.old) (length table.old) }
    ensures { Checked (runs_of numbers.old log_distances.old table.old) used frame_id object_ids.now hypothesis_ids.now distances.now (runs_of numbers.new log_distances.new table.new) result }
{
    if !sound(&table[..], used) {
        return Closed { number: 1, used };
    }
    motmetrics_in_place::update_in_place(
        numbers,
        log_distances,
        table,
        used,
        frame_id,
        object_ids,
        hypothesis_ids,
        distances,
    )
}

// Whether the lent runs are as long as a state's.
#[tactic(auto, unfolding(crate::specs::Flat::whole_of))]
fn whole(numbers: usize, log_distances: usize, table: usize, used: usize) -> bool
    ensures { result ≡ whole_of numbers log_distances table used }
{
    sizes::log_and_table(numbers, log_distances, table) && used == 2
}

// The update of lent runs that are as long as a state's.
// Kept: a number and no Result, as `Closed` and `Answered`, which may not change, have it.
fn update_whole(
    numbers: &mut [i32],
    log_distances: &mut [f64],
    table: &mut [i32],
    used: &mut [usize],
    frame_id: i32,
    object_ids: &[i32],
    hypothesis_ids: &[i32],
    distances: &[f64],
) -> u32
    requires { whole_of (length numbers.old) (length log_distances.old) (length table.old) (length used.old) ≡ true }
    ensures { Answered (runs_of numbers.old log_distances.old table.old) used.old frame_id object_ids.now hypothesis_ids.now distances.now (runs_of numbers.new log_distances.new table.new) used.new result }
{
    let came = Used {
        events: used[0],
        truths: used[1],
    };
    let c = update_checked(
        numbers,
        log_distances,
        table,
        came,
        frame_id,
        object_ids,
        hypothesis_ids,
        distances,
    );
    let number = c.number;
    if number != 0 {
        return number;
    }
    let after = c.used;
    used[0] = after.events;
    used[1] = after.truths;
    0
}

/// The update of any lent state by any frame: the lowest number that applies. Beside a refusal every lent number stays.
pub fn update(
    numbers: &mut [i32],
    log_distances: &mut [f64],
    table: &mut [i32],
    used: &mut [usize],
    frame_id: i32,
    object_ids: &[i32],
    hypothesis_ids: &[i32],
    distances: &[f64],
) -> u32
    ensures { Answered (runs_of numbers.old log_distances.old table.old) used.old frame_id object_ids.now hypothesis_ids.now distances.now (runs_of numbers.new log_distances.new table.new) used.new result }
{
    if !whole(numbers.len(), log_distances.len(), table.len(), used.len()) {
        let shape = sizes::check_frame(object_ids.len(), hypothesis_ids.len(), distances.len());
        return sizes::wrong_length(shape).number();
    }
    update_whole(
        numbers,
        log_distances,
        table,
        used,
        frame_id,
        object_ids,
        hypothesis_ids,
        distances,
    )
}
