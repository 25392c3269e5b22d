//! Truth ids and the hypotheses that they were last matched to; the ids that were seen.
//! Ported from norfair-rs, internal/motmetrics/accumulator.rs, which follows py-motmetrics, and metrics/accumulator.rs
//! (NOTICE): arrays with a used count where the Rust has hash maps and sets.
#![tactic(auto)]

ghost use Rattle.std.specs.Prelude.{◌≡◌, ◌≤◌};
ghost use Rattle.partners.specs.Partners.{new_truths, truths_sound, seen_truths, truths_seen};

/// Truth ids in the first used places, in order of first booking, each with the hypothesis that it was last matched to, if any.
#[derive(Clone, Copy)]
pub struct Truths {
    pub ids: [i32; 256],
    pub lasts: [Option<i32>; 256],
    pub used: usize,
}

impl Truths {
    /// No truth id yet.
    pub fn new() -> Self
        ensures { result ≡ new_truths }
    {
        Self {
            ids: [0i32; 256],
            lasts: [None; 256],
            used: 0,
        }
    }
}

/// Whether a table that is handed in is one that refusal 1 lets by.
#[tactic(auto, unfolding(crate::specs::Partners::ids_sound))]
pub fn truths_sound(t: Truths) -> bool
    ensures { result ≡ truths_sound t }
{
    // The ids alone are lent, so that no more than they is copied.
    let ids = t.ids;
    seen::sound_up_to(&ids, t.used, 256)
}

/// The table with a frame's truth ids, seen in order: one that is new has no partner yet. `None` where they would be more than 256.
pub fn see_truths(t: Truths, ids: &[i32]) -> Option<Truths>
    requires { t.used ≤ 256 }
    ensures { truths_seen t result ≡ seen_truths t ids.now }
{
    let mut run = t.ids;
    let used = seen::see_all(&mut run, t.used, ids)?;
    let mut lasts = t.lasts;
    lasts[t.used..used].fill(None);
    Some(Truths {
        ids: run,
        lasts,
        used,
    })
}
