//! The booking of a frame of module 4 whose pairing is there: its ids seen, its events in the log, or refused with the state as it came.
//! Ported from norfair-rs, metrics/accumulator.rs (NOTICE).
#![tactic(auto)]

ghost use Rattle.std.specs.Prelude.{◌≡◌, ◌*◌, ◌≤◌, List, ℤ, Float, length, IfOk, IfErr};
ghost use Rattle.refusals.specs.Refusals.{number_of};
ghost use Rattle.greedy.specs.Greedy.{Fitting};
ghost use Rattle.metrics_booking.specs.Booking.{Within, refused_at, Accepted, book_of};

use greedy::Pairing;
use metrics::MOTAccumulator;
use partners::Truths;
use refusals::Refusal;
use seen::Hypotheses;

/// The number of an update, and the state: beside a refusal the one that came.
// Kept: a refusal is a number beside the state at each public call, for C callers too.
#[derive(Clone, Copy)]
pub struct Updated {
    pub number: u32,
    pub state: MOTAccumulator,
}

// What a frame that nothing refuses leaves in the tables, and which of its pairs are switches.
#[derive(Clone, Copy)]
struct Tables {
    truths: Truths,
    switched: [bool; 64],
    hypotheses: Hypotheses,
}

// The ids of a frame: all are seen first. (What it answers has no log, so that the log is copied as seldom as can be.)
fn book_ids(
    s: &MOTAccumulator,
    gt_ids: &[i32],
    hyp_ids: &[i32],
    p: &Pairing,
) -> Result<Tables, Refusal>
    requires within { Within s.now }
    requires few { (length gt_ids.now ≤ 64) × (length hyp_ids.now ≤ 64) }
    requires fitting { Fitting (length gt_ids.now) (length hyp_ids.now) p.now }
    ensures accepted { IfOk result (λ t. Accepted s.now gt_ids.now hyp_ids.now p.now t) }
    ensures refused { IfErr result (λ r. (frame : ℤ) (distances : List Float) → refused_at (number_of r) s.now ≡ book_of s.now frame gt_ids.now hyp_ids.now distances p.now) }
{
    let Some(seen_truths) = partners::see_truths(s.truths, gt_ids) else {
        return Err(Refusal::FullTable);
    };
    let Some(hypotheses) = seen::see_hypotheses(s.hypotheses, hyp_ids) else {
        return Err(Refusal::FullTable);
    };
    let count = gt_ids.len() + hyp_ids.len() - p.used;
    if s.log.used + count > 1024 {
        return Err(Refusal::NoRoom);
    }
    let pairs = &p.pairs[..p.used];
    let Some(booked) = matches::book_matches(seen_truths, pairs, gt_ids, hyp_ids) else {
        // Not met: all its truth ids stand in the table by now, so there is room for its matches.
        return Ok(Tables {
            truths: seen_truths,
            switched: [false; 64],
            hypotheses,
        });
    };
    let switched = booked.switched;
    Ok(Tables {
        truths: booked.truths,
        switched,
        hypotheses,
    })
}

/// A frame whose pairing is handed in: all its ids are seen first. 5 for a table that would not hold them, 6 for a log that would
/// not hold its events.
pub fn book(
    s: MOTAccumulator,
    frame: i32,
    gt_ids: &[i32],
    hyp_ids: &[i32],
    distances: &[f64],
    p: Pairing,
) -> Updated
    requires within { Within s }
    requires gt_ids_len_bound { (length gt_ids.now ≤ 64) × (length hyp_ids.now ≤ 64) × (length distances.now ≡ length gt_ids.now * length hyp_ids.now) }
    requires fitting { Fitting (length gt_ids.now) (length hyp_ids.now) p }
    ensures { result ≡ book_of s frame gt_ids.now hyp_ids.now distances.now p }
{
    match book_ids(&s, gt_ids, hyp_ids, &p) {
        Ok(t) => {
            let log = booking::book_frame(s.log, frame, gt_ids, hyp_ids, distances, p, &t.switched);
            Updated {
                number: 0,
                state: MOTAccumulator {
                    log,
                    truths: t.truths,
                    hypotheses: t.hypotheses,
                },
            }
        }
        Err(refusal) => Updated {
            number: refusal.number(),
            state: s,
        },
    }
}
