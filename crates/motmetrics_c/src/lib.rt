//! Module 3's accumulator for C and Rust: its state is lent as flat numbers, and stays with the caller between updates.
#![tactic(auto)]

ghost use Rattle.motmetrics_in_place.specs.Updated.{runs_of};
ghost use Rattle.motmetrics_flat.specs.Flat.{Answered};

/// Module 3's MOTAccumulator: a log's four columns of 1,024 numbers and its 1,024 distances, a table's three columns of 256, two used counts.
#[unsafe(no_mangle)]
pub extern "C" fn mot_motmetrics_update(
    numbers: &mut [i32],
    log_distances: &mut [f64],
    table: &mut [i32],
    used: &mut [usize],
    frame_id: i32,
    object_ids: &[i32],
    hypothesis_ids: &[i32],
    distances: &[f64],
) -> u32
    ensures { Answered (runs_of numbers.old log_distances.old table.old) used.old frame_id object_ids.now hypothesis_ids.now distances.now (runs_of numbers.new log_distances.new table.new) used.new result }
{
    motmetrics_flat::update(
        numbers,
        log_distances,
        table,
        used,
        frame_id,
        object_ids,
        hypothesis_ids,
        distances,
    )
}
