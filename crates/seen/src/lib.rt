//! Ids in order of first appearance, in the first places of a run that is lent.
//! Ported from norfair-rs, metrics/accumulator.rs (NOTICE): a run with a used count where the Rust has a hash set.
#![tactic(auto)]

ghost use Rattle.std.specs.Prelude.{◌≡◌, ◌≤◌, ◌<◌, length, take};
ghost use Rattle.seen.specs.Seen.{place_of, used_with, seen_all, seen_of, run_after, places_seen, new_hypotheses, seen_hypotheses, hypotheses_seen, ids_up_to, hypotheses_sound};

use ids::Lookup;

/// Hypothesis ids in the first used places, in order of first appearance.
#[derive(Clone, Copy)]
pub struct Hypotheses {
    pub ids: [i32; 1024],
    pub used: usize,
}

impl Hypotheses {
    /// No hypothesis yet.
    pub fn new() -> Self
        ensures { result ≡ new_hypotheses }
    {
        Self {
            ids: [0i32; 1024],
            used: 0,
        }
    }
}

/// The place of an id that was looked up: its own, or the one after the used ones.
pub fn place_of(found: Lookup, used: usize) -> usize
    ensures { result ≡ place_of found used }
{
    let Lookup::At(k) = found else {
        return used;
    };
    k
}

/// How many places are used with it.
pub fn used_with(found: Lookup, used: usize) -> usize
    requires { used < 4096 }
    ensures { result ≡ used_with found used }
{
    let Lookup::At(_) = found else {
        return used + 1;
    };
    used
}

/// The ids of a frame, seen in order: one that has no place yet gets the one after the used ones. How many places are used in the end;
/// `None` where an id found none, and then it and those after it were not seen.
pub fn see_all(run: &mut [i32], used: usize, ids: &[i32]) -> Option<usize>
    requires { (used ≤ length run.old) × (length run.old < 4096) }
    ensures { (places_seen (length run.old) result ≡ seen_of (length run.old) (seen_all (take used run.old) ids.now)) × (run.new ≡ run_after run.old (seen_all (take used run.old) ids.now)) }
{
    let mut count = used;
    for id in ids {
        let found = ids::seek(&run[..count], *id);
        let at = place_of(found, count);
        if at >= run.len() {
            return None;
        }
        run[at] = *id;
        count = used_with(found, count);
    }
    Some(count)
}

/// A frame's hypotheses, seen in order; `None` where they would be more than 1,024 with those that came.
pub fn see_hypotheses(h: Hypotheses, ids: &[i32]) -> Option<Hypotheses>
    requires { h.used ≤ 1024 }
    ensures { hypotheses_seen h result ≡ seen_hypotheses h ids.now }
{
    let mut run = h.ids;
    let used = see_all(&mut run, h.used, ids)?;
    Some(Hypotheses { ids: run, used })
}

/// Whether at most so many ids are in use, and none of them stands twice.
pub fn sound_up_to(ids: &[i32], used: usize, most: usize) -> bool
    requires { most ≤ length ids.now }
    ensures { result ≡ ids_up_to most ids.now used }
{
    used <= most && ids::distinct(&ids[..used])
}

/// Whether hypotheses that are handed in are such that refusal 1 lets them by.
#[tactic(auto, unfolding(crate::specs::Seen::hypotheses_sound))]
pub fn hypotheses_sound(h: Hypotheses) -> bool
    ensures { result ≡ hypotheses_sound h }
{
    let ids = h.ids;
    sound_up_to(&ids, h.used, 1024)
}
