//! Updates of module 3's MOTAccumulator by one frame so many times, from a new state; how many events are logged then.
use motmetrics::MOTAccumulator;
use motmetrics_in_place::Used;

/// The public update.
#[unsafe(no_mangle)]
pub extern "C" fn bench_mot_update(
    object_ids: &[i32],
    hypothesis_ids: &[i32],
    distances: &[f64],
    times: u64,
) -> usize {
    let mut s = MOTAccumulator::new();
    for _ in 0..times {
        s = motmetrics_update::update(s, 1, object_ids, hypothesis_ids, distances).state;
    }
    s.log.used
}

/// The inner update, which asks for used counts within the log and the table.
#[unsafe(no_mangle)]
pub extern "C" fn bench_mot_update_sound(
    object_ids: &[i32],
    hypothesis_ids: &[i32],
    distances: &[f64],
    times: u64,
) -> usize {
    let mut s = MOTAccumulator::new();
    for _ in 0..times {
        if s.log.used > 1024 || s.last_match.used > 256 {
            return 0;
        }
        s = motmetrics_update::update_sound(s, 1, object_ids, hypothesis_ids, distances).state;
    }
    s.log.used
}

/// The inner update on columns that are lent by the caller, with so many truths in use: in a local of this function nobody would
/// read the log, and the compiler could leave out its writing.
#[unsafe(no_mangle)]
pub extern "C" fn bench_mot_update_in_place(
    numbers: &mut [i32],
    log_distances: &mut [f64],
    table: &mut [i32],
    truths: usize,
    object_ids: &[i32],
    hypothesis_ids: &[i32],
    distances: &[f64],
    times: u64,
) -> usize {
    if numbers.len() != 4096 || log_distances.len() != 1024 {
        return 0;
    }
    if table.len() != 768 || truths > 256 {
        return 0;
    }
    let mut used = Used { events: 0, truths };
    'updates: for _ in 0..times {
        let c = motmetrics_in_place::update_in_place(
            numbers,
            log_distances,
            table,
            used,
            1,
            object_ids,
            hypothesis_ids,
            distances,
        );
        used = c.used;
    }
    used.events
}

/// The pairing of such a frame alone, which is nearly all sort; how many pairs it has.
#[unsafe(no_mangle)]
pub extern "C" fn bench_pair_by_distance(distances: &[f64], rows: usize, columns: usize) -> usize {
    if rows > 64 || columns > 64 || distances.len() != rows * columns {
        return 0;
    }
    greedy_pairs::pair_by_distance(distances, rows, columns).used
}
