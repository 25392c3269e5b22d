//! The request of modules 4 and 5 (oracle/PROTOCOL.md): frames of module 4's accumulator, answered one after the other.
#![tactic(auto)]

use getter_requests::say_getters;
use lines::output::Writer;
use lines::session::{Sequence, Session};
use log_requests::{read_log, say_log};
use metrics::MOTAccumulator;
use metrics_booking::Updated;
use table_requests::{read_hypotheses, read_truths, say_hypotheses, say_truths};

// Where a sequence stands.
#[derive(Clone, Copy)]
struct Played {
    state: MOTAccumulator,
}

// The number and the used counts, and a space.
fn say_frame(w: &mut Writer, u: &Updated) {
    w.decimal(u64::from(u.number));
    w.next_decimal(u.state.log.used as u64);
    w.next_decimal(u.state.truths.used as u64);
    w.next_decimal(u.state.hypotheses.used as u64);
    w.byte(b' ');
}

impl Sequence for Played {
    fn play_frame(&mut self, s: &mut Session) -> Option<()> {
        let mut truths = [0i32; 128];
        let mut hypotheses = [0i32; 128];
        let frame = s.reader.whole()?;
        let rows = s.reader.wholes(&mut truths)?;
        let columns = s.reader.wholes(&mut hypotheses)?;
        let row_floats = s.reader.floats(&mut s.first)?;
        let column_floats = s.reader.floats(&mut s.second)?;
        let threshold = s.reader.float()?;
        let updated = metrics_update::update(
            self.state,
            frame,
            &truths[..rows],
            &hypotheses[..columns],
            &s.first[..row_floats],
            &s.second[..column_floats],
            threshold,
        );
        say_frame(&mut s.writer, &updated);
        self.state = updated.state;
        Some(())
    }
}

pub fn metrics(s: &mut Session) -> Option<()> {
    let log = read_log(&mut s.reader)?;
    let truths = read_truths(&mut s.reader)?;
    let hypotheses = read_hypotheses(&mut s.reader)?;
    let mut played = Played {
        state: MOTAccumulator {
            log: log.table,
            truths: truths.table,
            hypotheses: hypotheses.table,
        },
    };
    s.play(&mut played)?;
    s.reader.end_line_unless_fault()?;
    say_getters(&mut s.writer, played.state);
    say_log(&mut s.writer, &played.state.log, log.given);
    say_truths(&mut s.writer, &played.state.truths, truths.given);
    say_hypotheses(&mut s.writer, &played.state.hypotheses, hypotheses.given);
    Some(())
}
