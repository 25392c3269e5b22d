// The events of a frame whose pairing is handed in, written at the end of a log that is lent as columns: no log is copied.
// Ported from norfair-rs, internal/motmetrics/accumulator.rs and metrics/accumulator.rs (NOTICE).
#![tactic(auto)]

ghost use Rattle.std.specs.Prelude.{◌≡◌, ◌+◌, ◌*◌, ◌-◌, ◌≤◌, length};
ghost use Rattle.greedy.specs.Greedy.{Fitting};
ghost use Rattle.booking.specs.Booking.{events_of};
ghost use Rattle.booking_in_place.specs.Written.{numbers_after, distances_after};

use event_columns::Cells;
use greedy::Pairing;

/// The events of a frame at `start` and after it; every other number stays. It returns how many events the log has then.
pub fn book_frame(
    numbers: &mut [i32],
    log_distances: &mut [f64],
    start: usize,
    frame: i32,
    object_ids: &[i32],
    hypothesis_ids: &[i32],
    distances: &[f64],
    p: Pairing,
    switched: &[bool; 64],
) -> usize
    requires numbers_len { (length numbers.old ≡ 4096) × (length log_distances.old ≡ 1024) }
    requires object_ids_len_bound { (length object_ids.now ≤ 64) × (length hypothesis_ids.now ≤ 64) × (length distances.now ≡ length object_ids.now * length hypothesis_ids.now) }
    requires fitting { Fitting (length object_ids.now) (length hypothesis_ids.now) p }
    requires used_bound { start + (length object_ids.now + length hypothesis_ids.now - p.used) ≤ 1024 }
    ensures value { result ≡ start + length (events_of frame object_ids.now hypothesis_ids.now distances.now p switched.now) }
    ensures numbers_after { numbers.new ≡ numbers_after numbers.old start (events_of frame object_ids.now hypothesis_ids.now distances.now p switched.now) }
    ensures log_distances_after { log_distances.new ≡ distances_after log_distances.old start (events_of frame object_ids.now hypothesis_ids.now distances.now p switched.now) }
{
    let left_rows = booking::left_of(&p.rows, object_ids.len());
    let left_cols = booking::left_of(&p.cols, hypothesis_ids.len());
    let count = object_ids.len() + hypothesis_ids.len() - p.used;
    for k in 0..count {
        let event = booking::event_at(
            frame,
            object_ids,
            hypothesis_ids,
            distances,
            &p,
            switched,
            &left_rows,
            &left_cols,
            k,
        );
        event_columns::write(numbers, log_distances, start + k, Cells::from(event));
    }
    start + count
}
