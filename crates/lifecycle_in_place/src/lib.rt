// The two updates of a lifecycle over a record that is lent and changed in place: thin forms of the methods by value, for a caller that
// keeps its records where they are. Ported from norfair-rs, internal/motmetrics/accumulator.rs, which follows py-motmetrics (NOTICE).
#![tactic(auto)]

ghost use Rattle.std.specs.Prelude.{◌≡◌};
ghost use Rattle.lifecycle.specs.Lifecycle.{update_matched_of, update_missed_of};
ghost use Rattle.lifecycle_in_place.specs.InPlace.{answer};

use lifecycle::{TrackLifecycle, Updated};

/// The object is matched in a frame. The answer is the number; beside a refusal the record stays.
pub fn mot_update_matched(it: &mut TrackLifecycle, frame: i32) -> u32
    ensures { answer result it.new ≡ update_matched_of it.old frame }
{
    let Updated { number, lifecycle } = it.update_matched(frame);
    *it = lifecycle;
    number
}

/// The object is missed in a frame. The answer is the number; beside a refusal the record stays.
pub fn mot_update_missed(it: &mut TrackLifecycle, frame: i32) -> u32
    ensures { answer result it.new ≡ update_missed_of it.old frame }
{
    let Updated { number, lifecycle } = it.update_missed(frame);
    *it = lifecycle;
    number
}
