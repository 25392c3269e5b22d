//! How many objects were mostly tracked, partly or mostly lost, and how often their tracks broke in all.
//! Ported from norfair-rs, internal/motmetrics/accumulator.rs, which follows py-motmetrics (NOTICE).
#![tactic(auto)]

ghost use Rattle.std.specs.Prelude.{◌≡◌, true, ◌+◌, ◌≤◌, take};
ghost use Rattle.std.specs.Int.Signed.{non_neg};
ghost use Rattle.slots.specs.Slots.{counts_sound};
ghost use Rattle.extended_metrics.specs.Metrics.{class_tally, lone_of, tally_of, refused_at, summed_of, metrics_of};
ghost use Rattle.extended_metrics.specs.Bounds.{Below};

use lifecycle::TrackLifecycle;
use lifecycle_parts::Class;
use rows::ExtendedMOTAccumulator;
use slots::Slot;

/// The Rust's four numbers behind the port's own.
// Kept: `metrics_of` promises a number, and zeros beside a refusal.
#[derive(Clone, Copy, Default)]
pub struct ExtendedMetrics {
    pub number: u32,
    pub mostly_tracked: i32,
    pub mostly_lost: i32,
    pub partially_tracked: i32,
    pub total_fragmentations: i32,
}

/// How many lifecycles are of each class, and the fragmentations of all.
#[derive(Clone, Copy, Default)]
pub struct Tally {
    pub tracked: usize,
    pub partially: usize,
    pub lost: usize,
    pub fragmentations: usize,
}

#[tactic(auto, unfolding(crate::specs::Metrics::class_tally))]
fn of_class(class: Class) -> Tally
    ensures { result ≡ class_tally class }
{
    match class {
        Class::MostlyTracked => Tally {
            tracked: 1,
            ..Tally::default()
        },
        Class::PartiallyTracked => Tally {
            partially: 1,
            ..Tally::default()
        },
        Class::MostlyLost => Tally {
            lost: 1,
            ..Tally::default()
        },
    }
}

// The tally of one lifecycle.
fn tally_of_one(it: TrackLifecycle) -> Tally
    requires { non_neg it.fragmentations ≡ true }
    ensures { (result ≡ lone_of it) × Below result 1 }
{
    Tally {
        fragmentations: sizes::size(it.fragmentations),
        ..of_class(lifecycle_parts::class_of(it.share()))
    }
}

fn tallied(slots: &[Slot; 256], used: usize) -> Tally
    requires { (used ≤ 256) × (counts_sound (take used slots.now) ≡ true) }
    ensures { (result ≡ tally_of slots.now used) × Below result used }
{
    let mut t = Tally::default();
    for slot in &slots[..used] {
        let one = tally_of_one(slot.lifecycle);
        t = Tally {
            tracked: t.tracked + one.tracked,
            partially: t.partially + one.partially,
            lost: t.lost + one.lost,
            fragmentations: t.fragmentations + one.fragmentations,
        };
    }
    t
}

fn refused(number: u32) -> ExtendedMetrics
    ensures { result ≡ refused_at number }
{
    ExtendedMetrics {
        number,
        ..ExtendedMetrics::default()
    }
}

fn summed(t: Tally) -> ExtendedMetrics
    requires { Below t 256 }
    ensures { result ≡ summed_of t }
{
    if t.fragmentations > 2147483647 {
        return refused(7);
    }
    ExtendedMetrics {
        number: 0,
        mostly_tracked: t.tracked as i32,
        mostly_lost: t.lost as i32,
        partially_tracked: t.partially as i32,
        total_fragmentations: t.fragmentations as i32,
    }
}

/// The classes and the summed fragmentations, or the number.
pub fn compute_extended_metrics(s: ExtendedMOTAccumulator) -> ExtendedMetrics
    ensures { result ≡ metrics_of s }
{
    if !frame::sound(s) {
        return refused(1);
    }
    summed(tallied(&s.slots, s.used))
}
