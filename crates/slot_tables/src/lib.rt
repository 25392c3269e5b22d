// A table of slots: the ids that are in it, and whether refusal 1 lets it by.
// Ported from norfair-rs, internal/motmetrics/accumulator.rs, which follows py-motmetrics (NOTICE): arrays with a used
// count where the Rust has two hash maps.
#![tactic(auto)]

ghost use Rattle.std.specs.Prelude.{◌≡◌, ◌≤◌, length};
ghost use Rattle.slots.specs.Slots.{ids_filled, sound_of};

use slots::Slot;

/// The ids of the first used slots, for a lookup; the places after them are 0.
pub fn ids_of(slots: &[Slot; 256], used: usize) -> [i32; 256]
    requires { used ≤ 256 }
    ensures { (result ≡ ids_filled slots.now used) × (length slots.now ≡ 256) }
{
    let mut ids = [0i32; 256];
    for (i, slot) in slots[..used].iter().enumerate() {
        ids[i] = slot.lifecycle.gt_id;
    }
    ids
}

/// Whether a table that is handed in is one that refusal 1 lets by: the counts of each slot in use, and then the ids.
pub fn sound(slots: &[Slot; 256], used: usize) -> bool
    ensures { result ≡ sound_of slots.now used }
{
    if used > 256 {
        return false;
    }
    if !slots[..used].iter().all(|slot| slot.lifecycle.sound()) {
        return false;
    }
    ids::distinct(&ids_of(slots, used)[..used])
}
