//! The requests of module 3's MOTAccumulator (oracle/PROTOCOL.md).
#![tactic(auto)]

use lines::output::Writer;
use lines::session::{Sequence, Session};
use log_requests::{read_log, say_log};
use motmetrics::{Computed, MOTAccumulator, MOTMetrics};
use motmetrics_update::Updated;
use table_requests::{read_truths, say_truths};

// Where a sequence stands.
#[derive(Clone, Copy)]
struct Played {
    state: MOTAccumulator,
}

// The number and the used counts, and a space.
fn say_frame(w: &mut Writer, u: &Updated) {
    w.decimal(u64::from(u.number));
    w.next_decimal(u.state.log.used as u64);
    w.next_decimal(u.state.last_match.used as u64);
    w.byte(b' ');
}

impl Sequence for Played {
    fn play_frame(&mut self, s: &mut Session) -> Option<()> {
        let mut objects = [0i32; 128];
        let mut hypotheses = [0i32; 128];
        let frame = s.reader.whole()?;
        let rows = s.reader.wholes(&mut objects)?;
        let columns = s.reader.wholes(&mut hypotheses)?;
        let n = s.reader.floats(&mut s.first)?;
        let updated = motmetrics_update::update(
            self.state,
            frame,
            &objects[..rows],
            &hypotheses[..columns],
            &s.first[..n],
        );
        say_frame(&mut s.writer, &updated);
        self.state = updated.state;
        Some(())
    }
}

fn say_metrics(w: &mut Writer, c: &Computed) {
    let m = &c.metrics;
    w.decimal(u64::from(c.number));
    say_counts(w, m);
    w.next_computed(&[m.total_distance, m.mota, m.motp, m.precision, m.recall]);
    w.next_whole(m.mostly_tracked);
    w.next_whole(m.mostly_lost);
    w.next_whole(m.partially_tracked);
}

fn say_counts(w: &mut Writer, m: &MOTMetrics) {
    w.next_whole(m.num_matches);
    w.next_whole(m.num_misses);
    w.next_whole(m.num_false_positives);
    w.next_whole(m.num_switches);
    w.next_whole(m.num_fragmentations);
}

pub fn mot(s: &mut Session) -> Option<()> {
    let log = read_log(&mut s.reader)?;
    let truths = read_truths(&mut s.reader)?;
    let mut played = Played {
        state: MOTAccumulator {
            log: log.table,
            last_match: truths.table,
        },
    };
    s.play(&mut played)?;
    s.reader.end_line_unless_fault()?;
    say_metrics(&mut s.writer, &played.state.compute_metrics());
    say_log(&mut s.writer, &played.state.log, log.given);
    say_truths(&mut s.writer, &played.state.last_match, truths.given);
    Some(())
}
