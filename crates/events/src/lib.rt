// Events, a log of them, and what a log counts and sums.
// Ported from norfair-rs, internal/motmetrics/accumulator.rs and metrics/accumulator.rs, which follow py-motmetrics
// (NOTICE): the four cases that are ever made, and an array with a used count where the Rust has a Vec.
#![tactic(auto)]

ghost use Rattle.std.specs.Prelude.{◌≡◌, ◌≤◌, take};
ghost use Rattle.events.specs.Events.{empty_log, Room, paired_of, added_of, tally_of};

/// What happened: a truth id matched to a hypothesis id at a distance, the same with a partner other than its last, a
/// truth id missed, or a hypothesis id that stands alone.
#[derive(Clone, Copy)]
pub enum What {
    Match(i32, i32, f64),
    Switch(i32, i32, f64),
    Miss(i32),
    FalsePositive(i32),
}

/// What happened at a frame.
#[derive(Clone, Copy)]
pub struct Event {
    pub frame: i32,
    pub what: What,
}

/// The first `used` of 1,024 events; what stands behind them is never read.
#[derive(Clone, Copy)]
pub struct Log {
    pub events: [Event; 1024],
    pub used: usize,
}

/// How often each case stands in a log, how many events hold a truth id, and the sums of the distances and of 1.0 less each.
#[derive(Clone, Copy)]
pub struct Tally {
    pub matches: usize,
    pub switches: usize,
    pub misses: usize,
    pub false_positives: usize,
    pub truths: usize,
    pub distance: f64,
    pub iou: f64,
}

/// A log with no event.
pub fn new_log() -> Log
    ensures { result ≡ empty_log }
{
    let nothing = Event {
        frame: 0,
        what: What::Miss(0),
    };
    Log {
        events: [nothing; 1024],
        used: 0,
    }
}

// A tally with the distance of one pair more.
#[tactic(auto, unfolding(crate::specs::Events::paired_of))]
fn paired(t: Tally, d: f64) -> Tally
    requires { Room t }
    ensures { result ≡ paired_of t d }
{
    Tally {
        truths: t.truths + 1,
        distance: t.distance + d,
        iou: t.iou + (1.0 - d),
        ..t
    }
}

// A tally with one event more.
#[tactic(auto, unfolding(crate::specs::Events::added_of, crate::specs::Events::paired_of, crate::specs::Events::plus_each))]
fn added(t: Tally, what: What) -> Tally
    requires { Room t }
    ensures { result ≡ added_of t what }
{
    match what {
        What::Match(_, _, d) => Tally {
            matches: t.matches + 1,
            ..paired(t, d)
        },
        What::Switch(_, _, d) => Tally {
            switches: t.switches + 1,
            ..paired(t, d)
        },
        What::Miss(_) => Tally {
            misses: t.misses + 1,
            truths: t.truths + 1,
            ..t
        },
        What::FalsePositive(_) => Tally {
            false_positives: t.false_positives + 1,
            ..t
        },
    }
}

/// The first `used` events of a log, counted and summed in their order.
pub fn tallied(events: [Event; 1024], used: usize) -> Tally
    requires { used ≤ 1024 }
    ensures { result ≡ tally_of (take used events) }
{
    let mut t = Tally {
        matches: 0,
        switches: 0,
        misses: 0,
        false_positives: 0,
        truths: 0,
        distance: 0.0,
        iou: 0.0,
    };
    for event in &events[..used] {
        t = added(t, event.what);
    }
    t
}
