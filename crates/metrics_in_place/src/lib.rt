//! The inner update of the public module's accumulator in place: the state is four lent runs of numbers, and none is copied. Playback
//! and the border to C call it.
//! Ported from norfair-rs, metrics/accumulator.rs (NOTICE).
#![tactic(auto)]

ghost use Rattle.std.specs.Prelude.{◌≡◌, ◌*◌, ◌≤◌, length};
ghost use Rattle.shape.specs.Shape.{shape_no};
ghost use Rattle.greedy.specs.Greedy.{Fitting};
ghost use Rattle.metrics_update.specs.Update.{stored_of};
ghost use Rattle.metrics_in_place.specs.InPlace.{runs_of, Within, closed_of, Booked, BookedBy, Updated};

use greedy::Pairing;
use refusals::Refusal;

/// How many places are used of the log, of the table of the truth ids, and of the hypothesis ids.
#[derive(Clone, Copy)]
pub struct Used {
    pub events: usize,
    pub truths: usize,
    pub hypotheses: usize,
}

/// The number of an update, and the used counts: beside a refusal those that came.
// Kept: a refusal is a number beside the state at each public call, for C callers too.
#[derive(Clone, Copy)]
pub struct Closed {
    pub number: u32,
    pub used: Used,
}

impl Closed {
    // What a frame over the used counts `came` comes to.
    fn of(came: Used, outcome: Result<Used, Refusal>) -> Self
        ensures { result ≡ closed_of came outcome }
    {
        match outcome {
            Ok(used) => Self { number: 0, used },
            Err(refusal) => Self {
                number: refusal.number(),
                used: came,
            },
        }
    }
}

// The used counts after a frame whose pairing is handed in. A refusal is settled before anything is written.
fn book(
    numbers: &mut [i32],
    log_distances: &mut [f64],
    table: &mut [i32],
    hypotheses: &mut [i32],
    used: Used,
    frame: i32,
    gt_ids: &[i32],
    hyp_ids: &[i32],
    distances: &[f64],
    p: Pairing,
) -> Result<Used, Refusal>
    requires within { Within (runs_of numbers.old log_distances.old table.old hypotheses.old) used }
    requires gt_ids_len_bound { (length gt_ids.now ≤ 64) × (length hyp_ids.now ≤ 64) × (length distances.now ≡ length gt_ids.now * length hyp_ids.now) }
    requires fitting { Fitting (length gt_ids.now) (length hyp_ids.now) p }
    ensures { Booked (runs_of numbers.old log_distances.old table.old hypotheses.old) used frame gt_ids.now hyp_ids.now distances.now p (runs_of numbers.new log_distances.new table.new hypotheses.new) (closed_of used result) }
{
    if !ids_in_place::truths_fit(&table[..], used.truths, gt_ids) {
        return Err(Refusal::FullTable);
    }
    if !ids_in_place::hypotheses_fit(&hypotheses[..], used.hypotheses, hyp_ids) {
        return Err(Refusal::FullTable);
    }
    let count = gt_ids.len() + hyp_ids.len() - p.used;
    if used.events + count > 1024 {
        return Err(Refusal::NoRoom);
    }
    let truths = ids_in_place::see_truths(table, used.truths, gt_ids);
    let known = ids_in_place::see_hypotheses(hypotheses, used.hypotheses, hyp_ids);
    let matched = truths_in_place::book_matches(table, truths, &p.pairs[..p.used], gt_ids, hyp_ids);
    let events = booking_in_place::book_frame(
        numbers,
        log_distances,
        used.events,
        frame,
        gt_ids,
        hyp_ids,
        distances,
        p,
        &matched.switched,
    );
    Ok(Used {
        events,
        truths: matched.used,
        hypotheses: known,
    })
}

// A frame whose IoUs are known: paired, and booked with 1.0 less each as its distance. The IoUs lent are written over by those.
fn book_shares(
    numbers: &mut [i32],
    log_distances: &mut [f64],
    table: &mut [i32],
    hypotheses: &mut [i32],
    used: Used,
    frame: i32,
    gt_ids: &[i32],
    hyp_ids: &[i32],
    shares: &mut [f64],
    iou_threshold: f64,
) -> Result<Used, Refusal>
    requires within { Within (runs_of numbers.old log_distances.old table.old hypotheses.old) used }
    requires gt_ids_len_bound { (length gt_ids.now ≤ 64) × (length hyp_ids.now ≤ 64) × (length shares.old ≡ length gt_ids.now * length hyp_ids.now) }
    ensures { BookedBy (runs_of numbers.old log_distances.old table.old hypotheses.old) used frame gt_ids.now hyp_ids.now shares.old iou_threshold (runs_of numbers.new log_distances.new table.new hypotheses.new) (closed_of used result) }
{
    let p = greedy_pairs::pair_by_share(shares, iou_threshold, gt_ids.len(), hyp_ids.len());
    book(
        numbers,
        log_distances,
        table,
        hypotheses,
        used,
        frame,
        gt_ids,
        hyp_ids,
        &shares[..],
        p,
    )
}

// A frame in shape, with its IoUs in a lent run that has room for them.
fn book_in(
    numbers: &mut [i32],
    log_distances: &mut [f64],
    table: &mut [i32],
    hypotheses: &mut [i32],
    used: Used,
    frame: i32,
    gt_ids: &[i32],
    hyp_ids: &[i32],
    gt_boxes: &[f64],
    hyp_boxes: &[f64],
    iou_threshold: f64,
    m: &mut [f64],
) -> Result<Used, Refusal>
    requires within { Within (runs_of numbers.old log_distances.old table.old hypotheses.old) used }
    requires hyp_boxes_value { (shape_no (length gt_ids.now) (length gt_boxes.now) (length hyp_ids.now) (length hyp_boxes.now) ≡ 0) × (length gt_ids.now * length hyp_ids.now ≤ length m.old) }
    ensures { Updated (runs_of numbers.old log_distances.old table.old hypotheses.old) used frame gt_ids.now hyp_ids.now gt_boxes.now hyp_boxes.now iou_threshold (runs_of numbers.new log_distances.new table.new hypotheses.new) (closed_of used result) }
{
    matrix::iou_matrix(gt_boxes, hyp_boxes, m);
    let n = gt_ids.len() * hyp_ids.len();
    book_shares(
        numbers,
        log_distances,
        table,
        hypotheses,
        used,
        frame,
        gt_ids,
        hyp_ids,
        &mut m[..n],
        iou_threshold,
    )
}

// The used counts after a frame. (Three sizes of matrix: to clear 4,096 places costs more than all else of a small frame.)
fn try_update(
    numbers: &mut [i32],
    log_distances: &mut [f64],
    table: &mut [i32],
    hypotheses: &mut [i32],
    used: Used,
    frame: i32,
    gt_ids: &[i32],
    hyp_ids: &[i32],
    gt_boxes: &[f64],
    hyp_boxes: &[f64],
    iou_threshold: f64,
) -> Result<Used, Refusal>
    requires { Within (runs_of numbers.old log_distances.old table.old hypotheses.old) used }
    ensures { Updated (runs_of numbers.old log_distances.old table.old hypotheses.old) used frame gt_ids.now hyp_ids.now gt_boxes.now hyp_boxes.now iou_threshold (runs_of numbers.new log_distances.new table.new hypotheses.new) (closed_of used result) }
{
    let rows = gt_ids.len();
    let columns = hyp_ids.len();
    shape::check_shape(rows, gt_boxes.len(), columns, hyp_boxes.len())?;
    let n = rows * columns;
    if n <= 64 {
        let mut small = [0.0f64; 64];
        return book_in(
            numbers,
            log_distances,
            table,
            hypotheses,
            used,
            frame,
            gt_ids,
            hyp_ids,
            gt_boxes,
            hyp_boxes,
            iou_threshold,
            &mut small,
        );
    }
    if n <= 1024 {
        let mut middle = [0.0f64; 1024];
        return book_in(
            numbers,
            log_distances,
            table,
            hypotheses,
            used,
            frame,
            gt_ids,
            hyp_ids,
            gt_boxes,
            hyp_boxes,
            iou_threshold,
            &mut middle,
        );
    }
    let mut large = [0.0f64; 4096];
    book_in(
        numbers,
        log_distances,
        table,
        hypotheses,
        used,
        frame,
        gt_ids,
        hyp_ids,
        gt_boxes,
        hyp_boxes,
        iou_threshold,
        &mut large,
    )
}

/// The update of a state that is sound already, in its lent runs: 2, 3, 5, 6 or 0, and the used counts. Of soundness it needs those
/// counts alone.
pub fn update_in_place(
    numbers: &mut [i32],
    log_distances: &mut [f64],
    table: &mut [i32],
    hypotheses: &mut [i32],
    used: Used,
    frame: i32,
    gt_ids: &[i32],
    hyp_ids: &[i32],
    gt_boxes: &[f64],
    hyp_boxes: &[f64],
    iou_threshold: f64,
) -> Closed
    requires { Within (runs_of numbers.old log_distances.old table.old hypotheses.old) used }
    ensures { Updated (runs_of numbers.old log_distances.old table.old hypotheses.old) used frame gt_ids.now hyp_ids.now gt_boxes.now hyp_boxes.now iou_threshold (runs_of numbers.new log_distances.new table.new hypotheses.new) result }
{
    let next = try_update(
        numbers,
        log_distances,
        table,
        hypotheses,
        used,
        frame,
        gt_ids,
        hyp_ids,
        gt_boxes,
        hyp_boxes,
        iou_threshold,
    );
    Closed::of(used, next)
}
