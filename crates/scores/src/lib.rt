//! Scores over a tally of events, for both accumulators of events.
//! Ported from norfair-rs, internal/motmetrics/accumulator.rs, which follows py-motmetrics, metrics/accumulator.rs and
//! metrics/evaluation.rs (NOTICE).
#![tactic(auto)]

ghost use Rattle.std.specs.Prelude.{◌≡◌, ◌≤◌};
ghost use Rattle.scores.specs.Scores.{Few, pairs_of, ratio_of, mean_of, f1_of, precision_of, recall_of, mota_of};

use events::Tally;

// A share of a whole, counts that a float holds exactly; 0.0 of nothing.
#[tactic(auto, unfolding(crate::specs::Scores::ratio_of))]
fn ratio(part: usize, whole: usize) -> f64
    requires { (part ≤ 4096) × (whole ≤ 4096) }
    ensures { result ≡ ratio_of part whole }
{
    if whole == 0 {
        0.0
    } else {
        part as f64 / whole as f64
    }
}

/// A sum over its count; 0.0 over none.
#[tactic(auto, unfolding(crate::specs::Scores::mean_of))]
pub fn mean(sum: f64, count: usize) -> f64
    requires { count ≤ 4096 }
    ensures { result ≡ mean_of sum count }
{
    if count == 0 { 0.0 } else { sum / count as f64 }
}

/// Matches and switches: the events with a distance.
pub fn pairs(t: Tally) -> usize
    requires { Few t }
    ensures { result ≡ pairs_of t }
{
    t.matches + t.switches
}

/// The pairs' share of what was detected.
#[tactic(auto, unfolding(crate::specs::Scores::precision_of))]
pub fn precision(t: Tally) -> f64
    requires { Few t }
    ensures { result ≡ precision_of t }
{
    let p = pairs(t);
    ratio(p, p + t.false_positives)
}

/// The pairs' share of the truth.
#[tactic(auto, unfolding(crate::specs::Scores::recall_of))]
pub fn recall(t: Tally) -> f64
    requires { Few t }
    ensures { result ≡ recall_of t }
{
    let p = pairs(t);
    ratio(p, p + t.misses)
}

/// 1.0 less the faults' share of the truth; 0.0 where there is none.
#[tactic(auto, unfolding(crate::specs::Scores::mota_of, crate::specs::Scores::ratio_of))]
pub fn mota(t: Tally) -> f64
    requires { Few t }
    ensures { result ≡ mota_of t }
{
    if t.truths == 0 {
        0.0
    } else {
        1.0 - ratio(t.misses + t.false_positives + t.switches, t.truths)
    }
}

/// The harmonic mean of precision and recall, left to right; 0.0 where their sum isn't above 0.
#[tactic(auto, unfolding(crate::specs::Scores::f1_of))]
pub fn f1(precision: f64, recall: f64) -> f64
    ensures { result ≡ f1_of precision recall }
{
    let sum = precision + recall;
    if sum > 0.0 {
        2.0 * precision * recall / sum
    } else {
        0.0
    }
}
