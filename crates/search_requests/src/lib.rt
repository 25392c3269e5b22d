//! The request of module 2: the solver (oracle/PROTOCOL.md).
#![tactic(auto)]

use lines::output::Writer;
use lines::session::Session;
use optimize::AssignmentResult;

fn say(w: &mut Writer, n: usize) {
    w.next_decimal(n as u64);
}

// How many places there are, and the places.
fn say_list(w: &mut Writer, places: &[usize]) {
    say(w, places.len());
    for place in places {
        say(w, *place);
    }
}

fn say_pairs(w: &mut Writer, r: &AssignmentResult) {
    let n = r.num_assignments.min(64);
    say(w, n);
    for pair in &r.assignments[..n] {
        say(w, pair.row_idx);
        say(w, pair.col_idx);
    }
}

fn say_result(w: &mut Writer, r: &AssignmentResult) {
    w.decimal(u64::from(r.number));
    say_pairs(w, r);
    say_list(w, &r.unmatched_rows[..r.num_unmatched_rows.min(64)]);
    say_list(w, &r.unmatched_cols[..r.num_unmatched_cols.min(64)]);
    say(w, r.corrections);
    say(w, r.paths);
}

pub fn linear_sum_assignment(s: &mut Session) -> Option<()> {
    let rows = s.reader.count()? as usize;
    let cols = s.reader.count()? as usize;
    let n = s.reader.floats(&mut s.first)?;
    let max_cost = s.reader.float()?;
    s.reader.end_line_unless_fault()?;
    let r = optimize::linear_sum_assignment(&s.first[..n], rows, cols, max_cost);
    say_result(&mut s.writer, &r);
    Some(())
}
