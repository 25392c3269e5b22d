//! The accumulator of the public module: its state, its counts, MOTA and MOTP.
//! Ported from norfair-rs, metrics/accumulator.rs (NOTICE).
#![tactic(auto)]

ghost use Rattle.std.specs.Prelude.{◌≡◌, true};
ghost use Rattle.scores.specs.Scores.{Few};
ghost use Rattle.events.specs.Events.{logged, tally_of};
ghost use Rattle.metrics.specs.State.{new_state, sound_state};
ghost use Rattle.metrics.specs.Counts.{count_for, counted_of, score_is, size_is, iou_mean};
ghost use Rattle.scores.specs.Scores.{mota_of};

use events::{Log, Tally};
use partners::Truths;
use seen::Hypotheses;

/// The events so far; the truth ids seen, each with its last partner; and the hypothesis ids seen.
#[derive(Clone, Copy)]
pub struct MOTAccumulator {
    pub log: Log,
    pub truths: Truths,
    pub hypotheses: Hypotheses,
}

/// What an event of the log is.
#[derive(Clone, Copy)]
pub enum EventType {
    Match,
    FalsePositive,
    Miss,
    Switch,
}

/// A number, and a count; beside a refusal it is 0.
// Kept: `size_is` promises a number, and 0 beside a refusal.
#[derive(Clone, Copy)]
pub struct Count {
    pub number: u32,
    pub value: usize,
}

/// A number, and a score; beside a refusal it is 0.
// Kept: `score_is` promises a number, and 0.0 beside a refusal.
#[derive(Clone, Copy)]
pub struct Score {
    pub number: u32,
    pub value: f64,
}

fn count_of(t: Tally, event_type: EventType) -> usize
    ensures { result ≡ count_for event_type t }
{
    match event_type {
        EventType::Match => t.matches,
        EventType::FalsePositive => t.false_positives,
        EventType::Miss => t.misses,
        EventType::Switch => t.switches,
    }
}

fn counted(sound: bool, n: usize) -> Count
    ensures { result ≡ size_is sound n }
{
    if sound {
        Count {
            number: 0,
            value: n,
        }
    } else {
        Count {
            number: 1,
            value: 0,
        }
    }
}

impl MOTAccumulator {
    /// No event, and no id seen.
    pub fn new() -> Self
        ensures { result ≡ new_state }
    {
        Self {
            log: events::new_log(),
            truths: Truths::new(),
            hypotheses: Hypotheses::new(),
        }
    }

    /// Whether a state that is handed in is one that refusal 1 lets by.
    #[tactic(auto, unfolding(crate::specs::State::sound_state))]
    pub fn sound(self) -> bool
        ensures { result ≡ sound_state self }
    {
        self.log.used <= 1024
            && partners::truths_sound(self.truths)
            && seen::hypotheses_sound(self.hypotheses)
    }

    /// The events counted and summed, of a state that is sound.
    pub fn tally(self) -> Tally
        requires { sound_state self ≡ true }
        ensures { (result ≡ tally_of (logged self.log)) × Few result }
    {
        events::tallied(self.log.events, self.log.used)
    }

    /// How many events are of a type.
    pub fn count_events(self, event_type: EventType) -> Count
        ensures { result ≡ counted_of self event_type }
    {
        if !self.sound() {
            return Count {
                number: 1,
                value: 0,
            };
        }
        Count {
            number: 0,
            value: count_of(self.tally(), event_type),
        }
    }

    /// Switches are not among them.
    pub fn num_matches(self) -> Count
        ensures { result ≡ counted_of self EventType.Match }
    {
        self.count_events(EventType::Match)
    }

    pub fn num_false_positives(self) -> Count
        ensures { result ≡ counted_of self EventType.FalsePositive }
    {
        self.count_events(EventType::FalsePositive)
    }

    pub fn num_misses(self) -> Count
        ensures { result ≡ counted_of self EventType.Miss }
    {
        self.count_events(EventType::Miss)
    }

    pub fn num_switches(self) -> Count
        ensures { result ≡ counted_of self EventType.Switch }
    {
        self.count_events(EventType::Switch)
    }

    pub fn num_gt_ids(self) -> Count
        ensures { result ≡ size_is (sound_state self) self.truths.used }
    {
        counted(self.sound(), self.truths.used)
    }

    pub fn num_hyp_ids(self) -> Count
        ensures { result ≡ size_is (sound_state self) self.hypotheses.used }
    {
        counted(self.sound(), self.hypotheses.used)
    }

    pub fn mota(self) -> Score
        ensures { result ≡ score_is (sound_state self) (mota_of (tally_of (logged self.log))) }
    {
        if !self.sound() {
            return Score {
                number: 1,
                value: 0.0,
            };
        }
        Score {
            number: 0,
            value: scores::mota(self.tally()),
        }
    }

    /// The mean IoU of the pairs, 1.0 less each stored distance.
    pub fn motp(self) -> Score
        ensures { result ≡ score_is (sound_state self) (iou_mean (tally_of (logged self.log))) }
    {
        if !self.sound() {
            return Score {
                number: 1,
                value: 0.0,
            };
        }
        let t = self.tally();
        Score {
            number: 0,
            value: scores::mean(t.iou, scores::pairs(t)),
        }
    }
}
