//! What a table of scores says of an accumulator: how well all truth is covered so far, and the scores of its totals.
#![tactic(auto)]

ghost use Rattle.std.specs.Prelude.{◌≡◌, ◌≤◌, nat_abs};
ghost use Rattle.scores.specs.Scores.{Few};
ghost use Rattle.summary.specs.Coverage.{Below, covered_of, used_of, share_of, marks_of, running_of};
ghost use Rattle.summary.specs.Totals.{totals_of, few_of, scores_for, scores_of};

use events::Tally;
use lifecycle::TrackLifecycle;
use rows::ExtendedMOTAccumulator;
use slots::Slot;

/// What a frame added to the extended accumulator's totals.
#[derive(Clone, Copy)]
pub struct Row {
    pub matches: u64,
    pub misses: u64,
    pub false_positives: u64,
    pub switches: u64,
}

/// Tracked and detected frames of some truth ids together.
#[derive(Clone, Copy)]
pub struct Covered {
    pub tracked: u64,
    pub detected: u64,
}

/// Their coverage: as a float, and in fortieths, rounded down.
#[derive(Clone, Copy)]
pub struct Running {
    pub share: f64,
    pub marks: u64,
}

/// The scores of a tally that has no more events than a log.
#[derive(Clone, Copy)]
pub struct Scores {
    pub mota: f64,
    pub motp: f64,
    pub precision: f64,
    pub recall: f64,
    pub f1: f64,
}

// What a lifecycle adds to both.
fn frames_of(it: TrackLifecycle) -> Covered
    ensures tracked { result.tracked ≡ nat_abs it.tracked_frames }
    ensures detected { result.detected ≡ nat_abs it.detected_frames }
    ensures bound { Below result 1 }
{
    Covered {
        tracked: u64::from(it.tracked_frames.unsigned_abs()),
        detected: u64::from(it.detected_frames.unsigned_abs()),
    }
}

fn summed(slots: &[Slot; 256], used: usize) -> Covered
    requires { used ≤ 256 }
    ensures { (result ≡ covered_of slots.now used) × Below result used }
{
    let mut c = Covered {
        tracked: 0,
        detected: 0,
    };
    for slot in &slots[..used] {
        let more = frames_of(slot.lifecycle);
        c = Covered {
            tracked: c.tracked + more.tracked,
            detected: c.detected + more.detected,
        };
    }
    c
}

// Counts that a float holds exactly.
#[tactic(auto, unfolding(crate::specs::Coverage::share_of))]
fn share(tracked: u64, detected: u64) -> f64
    requires { (tracked ≤ 1099511627776) × (detected ≤ 1099511627776) }
    ensures { result ≡ share_of tracked detected }
{
    if detected == 0 {
        0.0
    } else {
        tracked as f64 / detected as f64
    }
}

#[tactic(auto, unfolding(crate::specs::Coverage::marks_of))]
fn marks(tracked: u64, detected: u64) -> u64
    requires { (tracked ≤ 1099511627776) × (detected ≤ 1099511627776) }
    ensures { result ≡ marks_of tracked detected }
{
    if detected == 0 {
        0
    } else {
        tracked * 40 / detected
    }
}

// The used count of a state that is sound; of no other is a slot read.
#[tactic(auto, unfolding(crate::specs::Coverage::used_of))]
fn used_of(used: usize) -> usize
    ensures { (result ≡ used_of used) × (result ≤ 256) }
{
    if used > 256 { 0 } else { used }
}

/// The coverage of all truth ids together: tracked frames over detected frames, summed over the slots in use.
pub fn running_coverage(s: ExtendedMOTAccumulator) -> Running
    ensures { result ≡ running_of s }
{
    let c = summed(&s.slots, used_of(s.used));
    Running {
        share: share(c.tracked, c.detected),
        marks: marks(c.tracked, c.detected),
    }
}

// An accumulator's totals as a tally of events: its matches count switches too, and a tally's don't.
fn totals(s: ExtendedMOTAccumulator) -> Tally
    ensures { result ≡ totals_of s }
{
    let matches = s.num_matches.unsigned_abs();
    let switches = s.num_switches.unsigned_abs();
    let misses = s.num_misses.unsigned_abs();
    Tally {
        matches: matches.saturating_sub(switches) as usize,
        switches: switches as usize,
        misses: misses as usize,
        false_positives: s.num_false_positives.unsigned_abs() as usize,
        truths: s.num_objects.unsigned_abs() as usize,
        distance: s.total_distance,
        iou: 0.0,
    }
}

// Whether a tally has no more events than a log.
#[tactic(auto, using(crate::proofs::Sums::too_many, crate::proofs::Sums::by_truths), unfolding(crate::specs::Totals::few_of))]
fn few(t: Tally) -> bool
    ensures { result ≡ few_of t }
{
    t.matches <= 1024
        && t.switches <= 1024
        && t.misses <= 1024
        && t.false_positives <= 1024
        && t.matches + t.switches + t.misses + t.false_positives <= 1024
        && t.truths <= 1024
}

fn scores_for(t: Tally) -> Scores
    requires { Few t }
    ensures { result ≡ scores_for t }
{
    let precision = scores::precision(t);
    let recall = scores::recall(t);
    Scores {
        mota: scores::mota(t),
        motp: scores::mean(t.distance, scores::pairs(t)),
        precision,
        recall,
        f1: scores::f1(precision, recall),
    }
}

/// The scores of the extended accumulator's totals, by the rules of module 3: MOTP is the mean distance. None of totals that are more than
/// a log has.
pub fn scores_of(s: ExtendedMOTAccumulator) -> Option<Scores>
    ensures { result ≡ scores_of s }
{
    let t = totals(s);
    if few(t) { Some(scores_for(t)) } else { None }
}
