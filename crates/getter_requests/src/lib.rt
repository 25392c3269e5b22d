//! What the getters say of a state, and what the metrics are.
#![tactic(auto)]

use evaluation::{Evaluated, MOTMetrics};
use float_bits::computed;
use lines::output::Writer;
use metrics::{Count, MOTAccumulator, Score};

// The number and the count, and a space.
fn say_counted(w: &mut Writer, c: Count) {
    w.decimal(u64::from(c.number));
    w.next_decimal(c.value as u64);
    w.byte(b' ');
}

fn say_scored(w: &mut Writer, s: Score) {
    w.decimal(u64::from(s.number));
    w.next_float(computed(s.value));
    w.byte(b' ');
}

fn say_counts(w: &mut Writer, s: MOTAccumulator) {
    say_counted(w, s.num_matches());
    say_counted(w, s.num_false_positives());
    say_counted(w, s.num_misses());
    say_counted(w, s.num_switches());
    say_counted(w, s.num_gt_ids());
    say_counted(w, s.num_hyp_ids());
}

fn say_sizes(w: &mut Writer, m: &MOTMetrics) {
    for n in [
        m.num_false_positives,
        m.num_misses,
        m.num_switches,
        m.num_gt_ids,
        m.num_hyp_ids,
        m.mostly_tracked,
        m.mostly_lost,
        m.num_fragmentations,
    ] {
        w.next_decimal(n as u64);
    }
}

fn say_evaluated(w: &mut Writer, e: &Evaluated) {
    w.decimal(u64::from(e.number));
    let m = &e.metrics;
    w.next_computed(&[m.mota, m.motp, m.idf1, m.precision, m.recall]);
    say_sizes(w, m);
}

pub fn say_getters(w: &mut Writer, s: MOTAccumulator) {
    say_counts(w, s);
    say_scored(w, s.mota());
    say_scored(w, s.motp());
    say_evaluated(w, &MOTMetrics::from_accumulator(s));
}
