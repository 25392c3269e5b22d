//! A state of the extended accumulator as words.
#![tactic(auto)]

use lifecycle_requests::{flag, read_lifecycle, say_lifecycle};
use lines::input::Reader;
use lines::output::Writer;
use lines::tables::{Given, places_shown};
use rows::ExtendedMOTAccumulator;
use slots::Slot;

/// `1 ID`, or `0` for nobody.
pub fn read_partner(reader: &mut Reader) -> Option<Option<i32>> {
    if !flag(reader)? {
        return Some(None);
    }
    Some(Some(reader.whole()?))
}

fn read_slot(reader: &mut Reader) -> Option<Slot> {
    let lifecycle = read_lifecycle(reader)?;
    let partner = read_partner(reader)?;
    Some(Slot { lifecycle, partner })
}

// A new state with the totals that are read; its table is still empty.
fn read_totals(reader: &mut Reader) -> Option<ExtendedMOTAccumulator> {
    Some(ExtendedMOTAccumulator {
        used: reader.count()? as usize,
        frame_id: reader.whole()?,
        num_matches: reader.whole()?,
        num_misses: reader.whole()?,
        num_false_positives: reader.whole()?,
        num_switches: reader.whole()?,
        num_objects: reader.whole()?,
        total_distance: reader.float()?,
        ..ExtendedMOTAccumulator::new()
    })
}

pub fn read_state(reader: &mut Reader) -> Option<Given<ExtendedMOTAccumulator>> {
    let mut table = read_totals(reader)?;
    let given = reader.length(256)?;
    for slot in table.slots[..given].iter_mut() {
        *slot = read_slot(reader)?;
    }
    Some(Given { table, given })
}

pub fn say_partner(w: &mut Writer, partner: Option<i32>) {
    match partner {
        None => w.text(b" 0"),
        Some(id) => {
            w.text(b" 1");
            w.next_whole(id);
        }
    }
}

fn say_slot(w: &mut Writer, slot: &Slot) {
    w.byte(b' ');
    say_lifecycle(w, slot.lifecycle);
    say_partner(w, slot.partner);
}

/// The used count and the totals, each with a space before it.
pub fn say_totals(w: &mut Writer, s: &ExtendedMOTAccumulator) {
    w.next_decimal(s.used as u64);
    w.next_whole(s.frame_id);
    w.next_whole(s.num_matches);
    w.next_whole(s.num_misses);
    w.next_whole(s.num_false_positives);
    w.next_whole(s.num_switches);
    w.next_whole(s.num_objects);
    w.next_float(s.total_distance);
}

pub fn say_slots(w: &mut Writer, s: &ExtendedMOTAccumulator, given: usize) {
    let n = places_shown(s.used, given, 256);
    w.next_decimal(n as u64);
    for slot in &s.slots[..n] {
        say_slot(w, slot);
    }
}
