//! The inner update of module 3's MOTAccumulator in place: its log and its table are lent as columns of numbers, and no state is copied.
//! Playback and the border to C call it.
//! Ported from norfair-rs, internal/motmetrics/accumulator.rs, which follows py-motmetrics (NOTICE).
#![tactic(auto)]

ghost use Rattle.std.specs.Prelude.{◌≡◌, ◌*◌, ◌≤◌, length};
ghost use Rattle.greedy.specs.Greedy.{Fitting};
ghost use Rattle.motmetrics_in_place.specs.Updated.{runs_of, Within, closed_of, Framed, Updated};

use greedy::Pairing;
use refusals::Refusal;

/// How many places of the log and of the table are used.
#[derive(Clone, Copy)]
pub struct Used {
    pub events: usize,
    pub truths: usize,
}

/// The number of a frame, and the used counts: beside a refusal those that came.
// Kept: a refusal is a number beside the state at each public call, for C callers too.
#[derive(Clone, Copy)]
pub struct Closed {
    pub number: u32,
    pub used: Used,
}

impl Closed {
    // What a frame over the used counts `came` comes to.
    fn of(came: Used, outcome: Result<Used, Refusal>) -> Self
        ensures { result ≡ closed_of came outcome }
    {
        match outcome {
            Ok(used) => Self { number: 0, used },
            Err(refusal) => Self {
                number: refusal.number(),
                used: came,
            },
        }
    }
}

// The used counts after a frame whose pairing is there. A refusal is settled before anything is written.
fn try_book(
    numbers: &mut [i32],
    log_distances: &mut [f64],
    table: &mut [i32],
    used: Used,
    frame_id: i32,
    object_ids: &[i32],
    hypothesis_ids: &[i32],
    distances: &[f64],
    p: Pairing,
) -> Result<Used, Refusal>
    requires within { Within (length numbers.old) (length log_distances.old) (length table.old) used }
    requires object_ids_len_bound { (length object_ids.now ≤ 64) × (length hypothesis_ids.now ≤ 64) × (length distances.now ≡ length object_ids.now * length hypothesis_ids.now) }
    requires fitting { Fitting (length object_ids.now) (length hypothesis_ids.now) p }
    ensures { Framed (runs_of numbers.old log_distances.old table.old) used frame_id object_ids.now hypothesis_ids.now distances.now p (runs_of numbers.new log_distances.new table.new) (closed_of used result) }
{
    let pairs = &p.pairs[..p.used];
    if !ids_in_place::matches_fit(&table[..], used.truths, pairs, object_ids, hypothesis_ids) {
        return Err(Refusal::FullTable);
    }
    let count = object_ids.len() + hypothesis_ids.len() - p.used;
    if used.events + count > 1024 {
        return Err(Refusal::NoRoom);
    }
    let matched = truths_in_place::book_matches(
        table,
        used.truths,
        pairs,
        object_ids,
        hypothesis_ids,
    );
    let events = booking_in_place::book_frame(
        numbers,
        log_distances,
        used.events,
        frame_id,
        object_ids,
        hypothesis_ids,
        distances,
        p,
        &matched.switched,
    );
    Ok(Used {
        events,
        truths: matched.used,
    })
}

// The used counts after a frame.
fn try_update(
    numbers: &mut [i32],
    log_distances: &mut [f64],
    table: &mut [i32],
    used: Used,
    frame_id: i32,
    object_ids: &[i32],
    hypothesis_ids: &[i32],
    distances: &[f64],
) -> Result<Used, Refusal>
    requires { Within (length numbers.old) (length log_distances.old) (length table.old) used }
    ensures { Updated (runs_of numbers.old log_distances.old table.old) used frame_id object_ids.now hypothesis_ids.now distances.now (runs_of numbers.new log_distances.new table.new) (closed_of used result) }
{
    let rows = object_ids.len();
    let columns = hypothesis_ids.len();
    sizes::check_frame(rows, columns, distances.len())?;
    let p = greedy_pairs::pair_by_distance(distances, rows, columns);
    try_book(
        numbers,
        log_distances,
        table,
        used,
        frame_id,
        object_ids,
        hypothesis_ids,
        distances,
        p,
    )
}

/// The update of a state that is sound already, in its lent runs: 2, 3, 5, 6 or 0, and the used counts. Of soundness it needs these
/// counts alone.
pub fn update_in_place(
    numbers: &mut [i32],
    log_distances: &mut [f64],
    table: &mut [i32],
    used: Used,
    frame_id: i32,
    object_ids: &[i32],
    hypothesis_ids: &[i32],
    distances: &[f64],
) -> Closed
    requires { Within (length numbers.old) (length log_distances.old) (length table.old) used }
    ensures { Updated (runs_of numbers.old log_distances.old table.old) used frame_id object_ids.now hypothesis_ids.now distances.now (runs_of numbers.new log_distances.new table.new) result }
{
    let next = try_update(
        numbers,
        log_distances,
        table,
        used,
        frame_id,
        object_ids,
        hypothesis_ids,
        distances,
    );
    Closed::of(used, next)
}
