// A slot of a table of truth ids, and what a frame does to it.
// Ported from norfair-rs, internal/motmetrics/accumulator.rs, which follows py-motmetrics (NOTICE): arrays with a used
// count where the Rust has two hash maps.
#![tactic(auto)]

ghost use Rattle.std.specs.Prelude.{◌≡◌};
ghost use Rattle.slots.specs.Slots.{new_slot, switches, missed_slot, matched_slot, booked_slot, slot_answer};

use lifecycle::TrackLifecycle;

/// What a table keeps of an id: its lifecycle, and the id that it was last matched to.
#[derive(Clone, Copy)]
pub struct Slot {
    pub lifecycle: TrackLifecycle,
    pub partner: Option<i32>,
}

/// A slot after a frame in which its id stood, and whether its match was a switch.
#[derive(Clone, Copy)]
pub struct Booked {
    pub slot: Slot,
    pub switched: bool,
}

/// A slot for an id that is booked for the first time.
pub fn new_slot(id: i32, frame: i32) -> Slot
    ensures { result ≡ new_slot id frame }
{
    Slot {
        lifecycle: TrackLifecycle::new(id, frame),
        partner: None,
    }
}

/// Whether a match is a switch: the id was matched before, and to another.
pub fn is_switch(last: Option<i32>, to: i32) -> bool
    ensures { result ≡ switches last to }
{
    let Some(before) = last else {
        return false;
    };
    !counts::same_id(before, to)
}

#[tactic(auto, unfolding(crate::specs::Slots::missed_slot))]
fn book_missed(slot: Slot, frame: i32) -> Option<Booked>
    ensures { slot_answer slot result ≡ missed_slot slot frame }
{
    if !slot.lifecycle.room_to_miss() {
        return None;
    }
    Some(Booked {
        slot: Slot {
            lifecycle: slot.lifecycle.missed(frame),
            partner: slot.partner,
        },
        switched: false,
    })
}

#[tactic(auto, unfolding(crate::specs::Slots::matched_slot))]
fn book_matched(slot: Slot, to: i32, frame: i32) -> Option<Booked>
    ensures { slot_answer slot result ≡ matched_slot slot to frame }
{
    if !slot.lifecycle.room_to_match() {
        return None;
    }
    Some(Booked {
        slot: Slot {
            lifecycle: slot.lifecycle.matched(frame),
            partner: Some(to),
        },
        switched: is_switch(slot.partner, to),
    })
}

/// A slot after a frame that its id was matched in, to an id, or missed; None where a count would pass.
pub fn book_slot(slot: Slot, to: Option<i32>, frame: i32) -> Option<Booked>
    ensures { slot_answer slot result ≡ booked_slot slot to frame }
{
    match to {
        None => book_missed(slot, frame),
        Some(id) => book_matched(slot, id, frame),
    }
}
