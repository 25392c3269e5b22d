// The lifecycle of a truth object: how often it was there, how often it was tracked, how often its track broke.
// Ported from norfair-rs, internal/motmetrics/accumulator.rs, which follows py-motmetrics (NOTICE).
#![tactic(auto)]

ghost use Rattle.std.specs.Prelude.{◌≡◌, true};
ghost use Rattle.lifecycle.specs.Lifecycle.{fresh, sound_counts, room_to_match, room_to_miss, matched_after, missed_after};
ghost use Rattle.lifecycle.specs.Lifecycle.{update_matched_of, update_missed_of, shared_of, coverage_of, update_answer, check_of};

use lifecycle_parts::{fragments, share_of};
use refusals::Refusal;

/// The record of a truth object over the frames so far.
#[repr(C)]
#[derive(Clone, Copy)]
pub struct TrackLifecycle {
    pub gt_id: i32,
    pub first_frame: i32,
    pub last_frame: i32,
    pub tracked_frames: i32,
    pub detected_frames: i32,
    pub fragmentations: i32,
    pub was_matched: bool,
}

/// What an update answers: its number, and the next lifecycle; beside a refusal the one that came.
// Kept: a refusal is a number beside the state at each public call, for C callers too.
#[derive(Clone, Copy)]
pub struct Updated {
    pub number: u32,
    pub lifecycle: TrackLifecycle,
}

/// What `coverage` answers: its number, and the share; beside a refusal 0.0.
// Kept: `coverage_of` promises a number, and 0.0 beside a refusal.
#[derive(Clone, Copy)]
pub struct Coverage {
    pub number: u32,
    pub value: f64,
}

impl TrackLifecycle {
    /// A new object: it was there in no frame so far.
    pub fn new(gt_id: i32, first_frame: i32) -> Self
        ensures { result ≡ fresh gt_id first_frame }
    {
        Self {
            gt_id,
            first_frame,
            last_frame: first_frame,
            tracked_frames: 0,
            detected_frames: 0,
            fragmentations: 0,
            was_matched: false,
        }
    }

    /// The object is matched in a frame.
    pub fn update_matched(self, frame: i32) -> Updated
        ensures { result ≡ update_matched_of self frame }
    {
        self.answer(self.try_match(frame))
    }

    /// The object is missed in a frame.
    pub fn update_missed(self, frame: i32) -> Updated
        ensures { result ≡ update_missed_of self frame }
    {
        self.answer(self.try_miss(frame))
    }

    /// The share of the object's frames in which it was tracked.
    #[tactic(auto, unfolding(crate::specs::Lifecycle::coverage_of))]
    pub fn coverage(self) -> Coverage
        ensures { result ≡ coverage_of self }
    {
        match self.check() {
            Ok(()) => Coverage {
                number: 0,
                value: self.share(),
            },
            Err(refusal) => Coverage {
                number: refusal.number(),
                value: 0.0,
            },
        }
    }

    /// What an update gives for its outcome.
    fn answer(self, outcome: Result<Self, Refusal>) -> Updated
        ensures { result ≡ update_answer self outcome }
    {
        match outcome {
            Ok(lifecycle) => Updated {
                number: 0,
                lifecycle,
            },
            Err(refusal) => Updated {
                number: refusal.number(),
                lifecycle: self,
            },
        }
    }

    /// Refuses a negative count.
    fn check(self) -> Result<(), Refusal>
        ensures { result ≡ check_of self }
    {
        if self.sound() {
            Ok(())
        } else {
            Err(Refusal::Unsound)
        }
    }

    #[tactic(auto, unfolding(crate::specs::Lifecycle::update_matched_of))]
    fn try_match(self, frame: i32) -> Result<Self, Refusal>
        ensures { update_answer self result ≡ update_matched_of self frame }
    {
        self.check()?;
        if !self.room_to_match() {
            return Err(Refusal::Overflow);
        }
        Ok(self.matched(frame))
    }

    #[tactic(auto, unfolding(crate::specs::Lifecycle::update_missed_of))]
    fn try_miss(self, frame: i32) -> Result<Self, Refusal>
        ensures { update_answer self result ≡ update_missed_of self frame }
    {
        self.check()?;
        if !self.room_to_miss() {
            return Err(Refusal::Overflow);
        }
        Ok(self.missed(frame))
    }

    /// Whether none of the three counts is negative.
    #[tactic(auto, unfolding(crate::specs::Lifecycle::sound_counts))]
    pub fn sound(self) -> bool
        ensures { result ≡ sound_counts self }
    {
        counts::not_negative(self.tracked_frames)
            && counts::not_negative(self.detected_frames)
            && counts::not_negative(self.fragmentations)
    }

    /// Whether no count would pass with a match.
    #[tactic(auto, unfolding(crate::specs::Lifecycle::room_to_match))]
    pub fn room_to_match(self) -> bool
        ensures { result ≡ room_to_match self }
    {
        if !counts::room_for(self.tracked_frames, 1) || !counts::room_for(self.detected_frames, 1) {
            return false;
        }
        let detected = counts::add(self.detected_frames, 1);
        let more = counts::one_if(fragments(detected, self.was_matched));
        counts::room_for(self.fragmentations, more)
    }

    /// Whether no count would pass with a miss.
    #[tactic(auto, unfolding(crate::specs::Lifecycle::room_to_miss))]
    pub fn room_to_miss(self) -> bool
        ensures { result ≡ room_to_miss self }
    {
        counts::room_for(self.detected_frames, 1)
    }

    /// The lifecycle after a match that there is room for.
    #[tactic(auto, unfolding(crate::specs::Lifecycle::matched_after, crate::specs::Lifecycle::room_to_match))]
    pub fn matched(self, frame: i32) -> Self
        requires { room_to_match self ≡ true }
        ensures { result ≡ matched_after self frame }
    {
        let detected = counts::add(self.detected_frames, 1);
        let more = counts::one_if(fragments(detected, self.was_matched));
        Self {
            last_frame: frame,
            tracked_frames: counts::add(self.tracked_frames, 1),
            detected_frames: detected,
            fragmentations: counts::add(self.fragmentations, more),
            was_matched: true,
            ..self
        }
    }

    /// The lifecycle after a miss that there is room for.
    #[tactic(auto, unfolding(crate::specs::Lifecycle::missed_after, crate::specs::Lifecycle::room_to_miss))]
    pub fn missed(self, frame: i32) -> Self
        requires { room_to_miss self ≡ true }
        ensures { result ≡ missed_after self frame }
    {
        Self {
            last_frame: frame,
            detected_frames: counts::add(self.detected_frames, 1),
            was_matched: false,
            ..self
        }
    }

    /// Coverage without the test.
    pub fn share(self) -> f64
        ensures { result ≡ shared_of self }
    {
        share_of(self.tracked_frames, self.detected_frames)
    }
}
