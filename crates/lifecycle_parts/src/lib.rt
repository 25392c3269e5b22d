// What a fragmentation of a track is, what share of its frames an object was tracked in, and the class of that share.
// Ported from norfair-rs, internal/motmetrics/accumulator.rs, which follows py-motmetrics (NOTICE).
#![tactic(auto)]

ghost use Rattle.std.specs.Prelude.{◌≡◌};
ghost use Rattle.lifecycle_parts.specs.Parts.{fragments, share_of, class_of};

/// From this coverage on an object is mostly tracked.
const MOSTLY_TRACKED: f64 = 0.8;

/// Below this coverage an object is mostly lost.
const MOSTLY_LOST: f64 = 0.2;

/// How much of its frames an object was tracked in.
#[derive(Clone, Copy, Debug, PartialEq, Eq)]
pub enum Class {
    MostlyTracked,
    PartiallyTracked,
    MostlyLost,
}

/// What counts as a fragmentation: a match of an object that was there before and wasn't matched then.
#[tactic(auto, unfolding(crate::specs::Parts::fragments))]
pub fn fragments(detected: i32, was_matched: bool) -> bool
    ensures { result ≡ fragments detected was_matched }
{
    detected > 1 && !was_matched
}

/// The share of the frames in which an object was there that it was tracked in.
#[tactic(auto, unfolding(crate::specs::Parts::share_of), using(crate::proofs::Zeros::zero_yes, crate::proofs::Zeros::zero_no))]
pub fn share_of(tracked: i32, detected: i32) -> f64
    ensures { result ≡ share_of tracked detected }
{
    if detected == 0 {
        return 0.0;
    }
    tracked as f64 / detected as f64
}

/// Which of the three classes a coverage falls in.
pub fn class_of(coverage: f64) -> Class
    ensures { result ≡ class_of coverage }
{
    if coverage >= MOSTLY_TRACKED {
        return Class::MostlyTracked;
    }
    if coverage < MOSTLY_LOST {
        return Class::MostlyLost;
    }
    Class::PartiallyTracked
}
