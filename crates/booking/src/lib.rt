// The events of a frame whose pairing is handed in, written at the end of a log. For modules 3 and 4 alike.
// Ported from norfair-rs, internal/motmetrics/accumulator.rs and metrics/accumulator.rs (NOTICE).
#![tactic(auto)]

ghost use Rattle.std.specs.Prelude.{◌≡◌, not, ◌+◌, ◌*◌, ◌-◌, ◌<◌, ◌≤◌, length};
ghost use Rattle.square.specs.Index.{filled};
ghost use Rattle.greedy.specs.Greedy.{left_of, Fitting};
ghost use Rattle.booking.specs.Booking.{pair_event, Lists, event_at, events_of, log_after};

use events::{Event, Log, What};
use greedy::Pairing;

fn pair_event(frame: i32, switched: bool, truth: i32, hypothesis: i32, distance: f64) -> Event
    ensures { result ≡ pair_event frame switched truth hypothesis distance }
{
    let what = if switched {
        What::Switch(truth, hypothesis, distance)
    } else {
        What::Match(truth, hypothesis, distance)
    };
    Event { frame, what }
}

/// The places below `n` that are not marked, rising, and 0 behind them.
pub fn left_of(marks: &[bool; 64], n: usize) -> [usize; 64]
    requires { n ≤ 64 }
    ensures { result ≡ filled 0 (left_of n marks.now) }
{
    let mut left = [0; 64];
    square::pick(marks, n, false, &mut left);
    left
}

/// Event number `k` of a frame: pairs in their order, then rows that are left, then columns that are left.
#[tactic(auto, unfolding(crate::specs::Booking::event_at))]
pub fn event_at(
    frame: i32,
    object_ids: &[i32],
    hypothesis_ids: &[i32],
    distances: &[f64],
    p: &Pairing,
    switched: &[bool; 64],
    left_rows: &[usize; 64],
    left_cols: &[usize; 64],
    k: usize,
) -> Event
    requires lists { Lists (length object_ids.now) (length hypothesis_ids.now) p.now.pairs p.now.used left_rows.now left_cols.now }
    requires distances_len { (length distances.now ≡ length object_ids.now * length hypothesis_ids.now) × (k + p.now.used < length object_ids.now + length hypothesis_ids.now) }
    ensures { result ≡ event_at frame object_ids.now hypothesis_ids.now distances.now p.now.pairs switched.now p.now.used left_rows.now left_cols.now k }
{
    let n = object_ids.len();
    if k < p.used {
        let w = hypothesis_ids.len();
        let place = p.pairs[k];
        let row = greedy::row_of(place, w);
        let col = greedy::col_of(place, w);
        return pair_event(
            frame,
            switched[k],
            object_ids[row],
            hypothesis_ids[col],
            distances[place as usize],
        );
    }
    let what = if k < n {
        What::Miss(object_ids[left_rows[k - p.used]])
    } else {
        What::FalsePositive(hypothesis_ids[left_cols[k - n]])
    };
    Event { frame, what }
}

/// The log with the events of a frame after its own.
pub fn book_frame(
    mut log: Log,
    frame: i32,
    object_ids: &[i32],
    hypothesis_ids: &[i32],
    distances: &[f64],
    p: Pairing,
    switched: &[bool; 64],
) -> Log
    requires object_ids_len_bound { (length object_ids.now ≤ 64) × (length hypothesis_ids.now ≤ 64) × (length distances.now ≡ length object_ids.now * length hypothesis_ids.now) }
    requires fitting { Fitting (length object_ids.now) (length hypothesis_ids.now) p }
    requires used_bound { log.used + (length object_ids.now + length hypothesis_ids.now - p.used) ≤ 1024 }
    ensures { result ≡ log_after log (events_of frame object_ids.now hypothesis_ids.now distances.now p switched.now) }
{
    let left_rows = left_of(&p.rows, object_ids.len());
    let left_cols = left_of(&p.cols, hypothesis_ids.len());
    let start = log.used;
    let count = object_ids.len() + hypothesis_ids.len() - p.used;
    for k in 0..count {
        log.events[start + k] = event_at(
            frame,
            object_ids,
            hypothesis_ids,
            distances,
            &p,
            switched,
            &left_rows,
            &left_cols,
            k,
        );
    }
    log.used = start + count;
    log
}
