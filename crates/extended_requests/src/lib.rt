//! The request of the extended accumulator (oracle/PROTOCOL.md): frames, answered one after the other.
#![tactic(auto)]

use extended_metrics::ExtendedMetrics;
use frame::Booked;
use lines::output::Writer;
use lines::session::{Sequence, Session};
use rows::ExtendedMOTAccumulator;

// Where a sequence stands.
#[derive(Clone, Copy)]
struct Played {
    state: ExtendedMOTAccumulator,
}

// The number, the used count and the totals, and a space.
fn say_frame(w: &mut Writer, b: &Booked) {
    w.decimal(u64::from(b.number));
    state_requests::say_totals(w, &b.state);
    w.byte(b' ');
}

impl Sequence for Played {
    fn play_frame(&mut self, s: &mut Session) -> Option<()> {
        let mut truths = [0i32; 128];
        let mut predictions = [0i32; 128];
        let rows = s.reader.wholes(&mut truths)?;
        let row_floats = s.reader.floats(&mut s.first)?;
        let columns = s.reader.wholes(&mut predictions)?;
        let column_floats = s.reader.floats(&mut s.second)?;
        let threshold = s.reader.float()?;
        let booked = extended::update(
            self.state,
            &truths[..rows],
            &s.first[..row_floats],
            &predictions[..columns],
            &s.second[..column_floats],
            threshold,
        );
        say_frame(&mut s.writer, &booked);
        self.state = booked.state;
        Some(())
    }
}

fn say_metrics(w: &mut Writer, m: ExtendedMetrics) {
    w.decimal(u64::from(m.number));
    w.next_whole(m.mostly_tracked);
    w.next_whole(m.mostly_lost);
    w.next_whole(m.partially_tracked);
    w.next_whole(m.total_fragmentations);
}

pub fn extended(s: &mut Session) -> Option<()> {
    let start = state_requests::read_state(&mut s.reader)?;
    let mut played = Played { state: start.table };
    s.play(&mut played)?;
    s.reader.end_line_unless_fault()?;
    say_metrics(
        &mut s.writer,
        extended_metrics::compute_extended_metrics(played.state),
    );
    state_requests::say_slots(&mut s.writer, &played.state, start.given);
    Some(())
}
