// A lifecycle by itself for C and Rust: each function promises what the call of lifecycle_in_place behind it does. Its archive is
// named liblifecycle_in_place.a (bench/archive).
#![tactic(auto)]

ghost use Rattle.std.specs.Prelude.{◌≡◌};
ghost use Rattle.lifecycle.specs.Lifecycle.{update_matched_of, update_missed_of};
ghost use Rattle.lifecycle_in_place.specs.InPlace.{answer};

use lifecycle::TrackLifecycle;

/// The object is matched in a frame. The answer is the number; beside a refusal the record stays.
#[unsafe(no_mangle)]
pub extern "C" fn mot_update_matched(it: &mut TrackLifecycle, frame: i32) -> u32
    ensures { answer result it.new ≡ update_matched_of it.old frame }
{
    lifecycle_in_place::mot_update_matched(it, frame)
}

/// The object is missed in a frame. The answer is the number; beside a refusal the record stays.
#[unsafe(no_mangle)]
pub extern "C" fn mot_update_missed(it: &mut TrackLifecycle, frame: i32) -> u32
    ensures { answer result it.new ≡ update_missed_of it.old frame }
{
    lifecycle_in_place::mot_update_missed(it, frame)
}
