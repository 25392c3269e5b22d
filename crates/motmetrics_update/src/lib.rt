//! The update of module 3's MOTAccumulator: a frame paired by rising distance and booked whole, or refused with the state as it came.
//! Ported from norfair-rs, internal/motmetrics/accumulator.rs, which follows py-motmetrics (NOTICE).
#![tactic(auto)]

ghost use Rattle.std.specs.Prelude.{◌≡◌, ◌≤◌, ℤ, IfOk, IfErr};
ghost use Rattle.refusals.specs.Refusals.{number_of};
ghost use Rattle.motmetrics_update.specs.Update.{refused_at, Accepted, frame_after, update_of};

use greedy::Pairing;
use matches::Booked;
use motmetrics::MOTAccumulator;
use refusals::Refusal;

/// The number of an update, and the state: beside a refusal the one that came.
// Kept: a refusal is a number beside the state at each public call, for C callers too.
#[derive(Clone, Copy)]
pub struct Updated {
    pub number: u32,
    pub state: MOTAccumulator,
}

// What is booked of a frame that nothing refuses: its pairing, and what its pairs come to.
#[derive(Clone, Copy)]
struct Matched {
    p: Pairing,
    booked: Booked,
}

// A frame tested, and its pairs booked in the table. (What it answers has no log, so that the log is copied as seldom as can be.)
fn match_frame(
    s: &MOTAccumulator,
    object_ids: &[i32],
    hypothesis_ids: &[i32],
    distances: &[f64],
) -> Result<Matched, Refusal>
    requires { (s.now.log.used ≤ 1024) × (s.now.last_match.used ≤ 256) }
    ensures accepted { IfOk result (λ m. Accepted s.now object_ids.now hypothesis_ids.now distances.now m) }
    ensures refused { IfErr result (λ r. (frame : ℤ) → refused_at (number_of r) s.now ≡ frame_after s.now frame object_ids.now hypothesis_ids.now distances.now) }
{
    let rows = object_ids.len();
    let columns = hypothesis_ids.len();
    sizes::check_frame(rows, columns, distances.len())?;
    let p = greedy_pairs::pair_by_distance(distances, rows, columns);
    let pairs = &p.pairs[..p.used];
    let Some(booked) = matches::book_matches(s.last_match, pairs, object_ids, hypothesis_ids) else {
        return Err(Refusal::FullTable);
    };
    let count = rows + columns - p.used;
    if s.log.used + count > 1024 {
        return Err(Refusal::NoRoom);
    }
    Ok(Matched { p, booked })
}

/// The update of a state that is sound already: nothing of its table is tested again. Of soundness it needs the used counts alone.
pub fn update_sound(
    s: MOTAccumulator,
    frame_id: i32,
    object_ids: &[i32],
    hypothesis_ids: &[i32],
    distances: &[f64],
) -> Updated
    requires { (s.log.used ≤ 1024) × (s.last_match.used ≤ 256) }
    ensures { result ≡ frame_after s frame_id object_ids.now hypothesis_ids.now distances.now }
{
    match match_frame(&s, object_ids, hypothesis_ids, distances) {
        Ok(m) => {
            let log = booking::book_frame(
                s.log,
                frame_id,
                object_ids,
                hypothesis_ids,
                distances,
                m.p,
                &m.booked.switched,
            );
            Updated {
                number: 0,
                state: MOTAccumulator {
                    log,
                    last_match: m.booked.truths,
                },
            }
        }
        Err(refusal) => Updated {
            number: refusal.number(),
            state: s,
        },
    }
}

/// The update of any state by any frame: the lowest number that applies, and the state.
pub fn update(
    s: MOTAccumulator,
    frame_id: i32,
    object_ids: &[i32],
    hypothesis_ids: &[i32],
    distances: &[f64],
) -> Updated
    ensures { result ≡ update_of s frame_id object_ids.now hypothesis_ids.now distances.now }
{
    if !s.sound() {
        return Updated {
            number: Refusal::Unsound.number(),
            state: s,
        };
    }
    update_sound(s, frame_id, object_ids, hypothesis_ids, distances)
}
