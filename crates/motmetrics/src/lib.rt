//! The accumulator of events of the internal module, and its metrics.
//! Ported from norfair-rs, internal/motmetrics/accumulator.rs, which follows py-motmetrics (NOTICE).
#![tactic(auto)]

ghost use Rattle.std.specs.Prelude.{◌≡◌, true};
ghost use Rattle.scores.specs.Scores.{Few};
ghost use Rattle.events.specs.Events.{logged, tally_of};
ghost use Rattle.motmetrics.specs.State.{new_state, sound_state};
ghost use Rattle.motmetrics.specs.Metrics.{metrics_of, computed_of};

use events::{Log, Tally};
use partners::Truths;

/// The events so far, and the last match of each object id. (What the Rust's get_events lends is the log's first used events.)
#[derive(Clone, Copy)]
pub struct MOTAccumulator {
    pub log: Log,
    pub last_match: Truths,
}

/// The Rust's 13 fields; those that it leaves 0 stay 0.
#[derive(Clone, Copy, Default)]
pub struct MOTMetrics {
    pub num_matches: i32,
    pub num_misses: i32,
    pub num_false_positives: i32,
    pub num_switches: i32,
    pub num_fragmentations: i32,
    pub total_distance: f64,
    pub mota: f64,
    pub motp: f64,
    pub precision: f64,
    pub recall: f64,
    pub mostly_tracked: i32,
    pub mostly_lost: i32,
    pub partially_tracked: i32,
}

/// The number, and the metrics; beside a refusal they are all 0.
// Kept: `computed_of` promises a number, and zeros beside a refusal.
#[derive(Clone, Copy)]
pub struct Computed {
    pub number: u32,
    pub metrics: MOTMetrics,
}

// Matches include switches.
#[tactic(auto, unfolding(crate::specs::Metrics::metrics_of))]
fn metrics_of(t: Tally) -> MOTMetrics
    requires { Few t }
    ensures { result ≡ metrics_of t }
{
    let pairs = scores::pairs(t);
    MOTMetrics {
        num_matches: pairs as i32,
        num_misses: t.misses as i32,
        num_false_positives: t.false_positives as i32,
        num_switches: t.switches as i32,
        total_distance: t.distance,
        mota: scores::mota(t),
        motp: scores::mean(t.distance, pairs),
        precision: scores::precision(t),
        recall: scores::recall(t),
        ..MOTMetrics::default()
    }
}

impl MOTAccumulator {
    /// No event, and no match.
    pub fn new() -> Self
        ensures { result ≡ new_state }
    {
        Self {
            log: events::new_log(),
            last_match: Truths::new(),
        }
    }

    /// Whether a state that is handed in is one that refusal 1 lets by.
    #[tactic(auto, unfolding(crate::specs::State::sound_state))]
    pub fn sound(self) -> bool
        ensures { result ≡ sound_state self }
    {
        self.log.used <= 1024 && partners::truths_sound(self.last_match)
    }

    // The events counted and summed, of a state that is sound.
    fn tally(&self) -> Tally
        requires { sound_state self.now ≡ true }
        ensures { (result ≡ tally_of (logged self.now.log)) × Few result }
    {
        events::tallied(self.log.events, self.log.used)
    }

    /// The metrics of the events so far.
    #[tactic(auto, unfolding(crate::specs::Metrics::computed_of))]
    pub fn compute_metrics(self) -> Computed
        ensures { result ≡ computed_of self }
    {
        if !self.sound() {
            return Computed {
                number: 1,
                metrics: MOTMetrics::default(),
            };
        }
        Computed {
            number: 0,
            metrics: metrics_of(self.tally()),
        }
    }
}
