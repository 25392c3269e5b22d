//! The scores of both accumulators, side by side.
#![tactic(auto)]

use evaluation::MOTMetrics;
use extended_metrics::ExtendedMetrics;
use lines::output::Writer;
use metrics::MOTAccumulator;
use rows::ExtendedMOTAccumulator;
use summary::{Scores, scores_of};
use table_text::{count, left, right, six, whole};

// A row ends with a note on how the two sides differ, or none.
fn say_note(w: &mut Writer, note: &[u8]) {
    w.text(note);
    w.byte(b'\n');
}

fn say_counts(w: &mut Writer, label: &[u8], extended: i32, metrics: usize, note: &[u8]) {
    left(w, 15, label);
    whole(w, 10, extended);
    count(w, 11, metrics as u64);
    say_note(w, note);
}

// A score that there may not be.
fn say_if(w: &mut Writer, score: Option<f64>) {
    match score {
        Some(x) => six(w, 10, x),
        None => right(w, 10, b"-"),
    }
}

fn say_scores(w: &mut Writer, label: &[u8], extended: Option<f64>, metrics: f64, note: &[u8]) {
    left(w, 15, label);
    say_if(w, extended);
    six(w, 11, metrics);
    say_note(w, note);
}

// A count of the extended accumulator's alone.
fn say_alone(w: &mut Writer, label: &[u8], extended: i32) {
    left(w, 15, label);
    whole(w, 10, extended);
    right(w, 11, b"-");
    w.byte(b'\n');
}

fn say_events(w: &mut Writer, s: &ExtendedMOTAccumulator, a: MOTAccumulator, m: &MOTMetrics) {
    say_counts(
        w,
        b"matches",
        s.num_matches,
        a.num_matches().value,
        b"   with the switches; without them",
    );
    say_counts(w, b"misses", s.num_misses, m.num_misses, b"");
    say_counts(
        w,
        b"false positives",
        s.num_false_positives,
        m.num_false_positives,
        b"",
    );
    say_counts(w, b"switches", s.num_switches, m.num_switches, b"");
}

fn say_shares(w: &mut Writer, e: Option<Scores>, m: &MOTMetrics) {
    say_scores(w, b"MOTA", e.map(|x| x.mota), m.mota, b"");
    say_scores(
        w,
        b"MOTP",
        e.map(|x| x.motp),
        m.motp,
        b"   the mean distance; the mean IoU",
    );
    say_scores(w, b"precision", e.map(|x| x.precision), m.precision, b"");
    say_scores(w, b"recall", e.map(|x| x.recall), m.recall, b"");
    say_scores(w, b"f1", e.map(|x| x.f1), m.idf1, b"");
}

fn say_classes(w: &mut Writer, x: &ExtendedMetrics) {
    say_alone(w, b"mostly tracked", x.mostly_tracked);
    say_alone(w, b"partly tracked", x.partially_tracked);
    say_alone(w, b"mostly lost", x.mostly_lost);
    say_alone(w, b"fragmentations", x.total_fragmentations);
}

pub fn say_totals(w: &mut Writer, s: ExtendedMOTAccumulator, a: MOTAccumulator) {
    let m = MOTMetrics::from_accumulator(a).metrics;
    w.text(b"                 extended   module 4\n");
    say_events(w, &s, a, &m);
    say_shares(w, scores_of(s), &m);
    say_classes(w, &extended_metrics::compute_extended_metrics(s));
}
