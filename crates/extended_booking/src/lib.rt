//! What an extended update gives back: a frame whose pairing is there, booked, or a refusal with the state as it came.
//! Ported from norfair-rs, internal/motmetrics/accumulator.rs, which follows py-motmetrics (NOTICE).
#![tactic(auto)]

ghost use Rattle.std.specs.Prelude.{◌≡◌, ◌≤◌, length};
ghost use Rattle.pairing.specs.Pairing.{found};
ghost use Rattle.extended_booking.specs.Booking.{refused_at, Lie, booked_with};

use frame::Booked;
use pairing::Pairing;
use rows::ExtendedMOTAccumulator;

/// Beside a refusal the state is the one that came.
pub fn refused(number: u32, s: ExtendedMOTAccumulator) -> Booked
    ensures { result ≡ refused_at number s }
{
    Booked { number, state: s }
}

/// A frame whose pairing is there.
pub fn book(s: ExtendedMOTAccumulator, gt_ids: &[i32], pred_ids: &[i32], p: Pairing) -> Booked
    requires used_bound { s.used ≤ 256 }
    requires lie { Lie (length gt_ids.now) (length pred_ids.now) (found p) }
    ensures { result ≡ booked_with s gt_ids.now pred_ids.now (found p) }
{
    frame::book_frame(
        s,
        gt_ids,
        pred_ids,
        &p.pair_rows,
        &p.pair_cols,
        &p.left_rows,
        p.pairs,
        p.lefts,
        p.extra,
        p.distance,
    )
}
