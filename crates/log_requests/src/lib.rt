//! A log as words.
#![tactic(auto)]

use events::{Event, Log, What};
use lines::input::Reader;
use lines::output::Writer;
use lines::tables::Given;
pub use lines::tables::places_shown;

// The case from 0 to 3, the ids and the distance; None where the case is none.
fn read_what(reader: &mut Reader) -> Option<What> {
    match reader.count()? {
        0 => Some(What::Match(reader.whole()?, reader.whole()?, reader.float()?)),
        1 => Some(What::Switch(reader.whole()?, reader.whole()?, reader.float()?)),
        2 => Some(What::Miss(reader.whole()?)),
        3 => Some(What::FalsePositive(reader.whole()?)),
        _ => {
            reader.mark(true);
            None
        }
    }
}

fn read_event(reader: &mut Reader) -> Option<Event> {
    let frame = reader.whole()?;
    let what = read_what(reader)?;
    Some(Event { frame, what })
}

pub fn read_log(reader: &mut Reader) -> Option<Given<Log>> {
    let mut table = events::new_log();
    table.used = reader.count()? as usize;
    let given = reader.length(1024)?;
    for event in table.events[..given].iter_mut() {
        *event = read_event(reader)?;
    }
    Some(Given { table, given })
}

fn say_pair(w: &mut Writer, truth: i32, partner: i32, distance: f64) {
    w.next_whole(truth);
    w.next_whole(partner);
    w.next_float(distance);
}

fn say_what(w: &mut Writer, what: What) {
    match what {
        What::Match(truth, partner, distance) => {
            w.text(b" 0");
            say_pair(w, truth, partner, distance);
        }
        What::Switch(truth, partner, distance) => {
            w.text(b" 1");
            say_pair(w, truth, partner, distance);
        }
        What::Miss(id) => {
            w.text(b" 2");
            w.next_whole(id);
        }
        What::FalsePositive(id) => {
            w.text(b" 3");
            w.next_whole(id);
        }
    }
}

pub fn say_log(w: &mut Writer, log: &Log, given: usize) {
    let n = places_shown(log.used, given, 1024);
    w.next_decimal(n as u64);
    for event in &log.events[..n] {
        w.next_whole(event.frame);
        say_what(w, event.what);
    }
}
