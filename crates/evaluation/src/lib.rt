//! The metrics of the public module's accumulator.
//! Ported from norfair-rs, metrics/evaluation.rs (NOTICE).
#![tactic(auto)]

ghost use Rattle.std.specs.Prelude.{◌≡◌};
ghost use Rattle.scores.specs.Scores.{Few};
ghost use Rattle.evaluation.specs.Evaluation.{metrics_of, evaluated_of};

use events::Tally;
use metrics::MOTAccumulator;

/// The Rust's 13 fields; those that it leaves 0 stay 0.
#[derive(Clone, Copy, Default)]
pub struct MOTMetrics {
    pub mota: f64,
    pub motp: f64,
    pub idf1: f64,
    pub precision: f64,
    pub recall: f64,
    pub num_false_positives: usize,
    pub num_misses: usize,
    pub num_switches: usize,
    pub num_gt_ids: usize,
    pub num_hyp_ids: usize,
    pub mostly_tracked: usize,
    pub mostly_lost: usize,
    pub num_fragmentations: usize,
}

/// The number, and the metrics; beside a refusal they are all 0.
// Kept: `evaluated_of` promises a number, and zeros beside a refusal.
#[derive(Clone, Copy)]
pub struct Evaluated {
    pub number: u32,
    pub metrics: MOTMetrics,
}

// The metrics of a tally, beside so many truth ids and hypothesis ids.
#[tactic(auto, unfolding(crate::specs::Evaluation::metrics_of))]
fn metrics_of(t: Tally, gt_ids: usize, hyp_ids: usize) -> MOTMetrics
    requires { Few t }
    ensures { result ≡ metrics_of t gt_ids hyp_ids }
{
    let precision = scores::precision(t);
    let recall = scores::recall(t);
    MOTMetrics {
        mota: scores::mota(t),
        motp: scores::mean(t.iou, scores::pairs(t)),
        idf1: scores::f1(precision, recall),
        precision,
        recall,
        num_false_positives: t.false_positives,
        num_misses: t.misses,
        num_switches: t.switches,
        num_gt_ids: gt_ids,
        num_hyp_ids: hyp_ids,
        ..MOTMetrics::default()
    }
}

impl MOTMetrics {
    /// The metrics of a state that is sound; else refusal 1.
    #[tactic(auto, unfolding(crate::specs::Evaluation::evaluated_of))]
    pub fn from_accumulator(acc: MOTAccumulator) -> Evaluated
        ensures { result ≡ evaluated_of acc }
    {
        if !acc.sound() {
            return Evaluated {
                number: 1,
                metrics: MOTMetrics::default(),
            };
        }
        Evaluated {
            number: 0,
            metrics: metrics_of(acc.tally(), acc.truths.used, acc.hypotheses.used),
        }
    }
}
