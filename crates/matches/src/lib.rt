//! The pairs of a frame, booked in the table of truth ids and their last partners: which of them are switches.
//! Ported from norfair-rs, internal/motmetrics/accumulator.rs, which follows py-motmetrics, and metrics/accumulator.rs
//! (NOTICE).
#![tactic(auto)]

ghost use Rattle.std.specs.Prelude.{◌≡◌, ℕ, ◌*◌, ◌<◌, ◌≤◌, length, get_or};
ghost use Rattle.partners.specs.Partners.{last_in, pairs_of, booked_of};
ghost use Rattle.matches.specs.Matches.{pairs_booked};

use ids::Lookup;
use partners::Truths;

/// What the pairs of a frame come to: the table after them, and for each pair, by its number, whether it is a switch.
#[derive(Clone, Copy)]
pub struct Booked {
    pub truths: Truths,
    pub switched: [bool; 64],
}

// The last partner of an id that was looked up, where this one stands at its place.
fn last_in(found: Lookup, last: Option<i32>) -> Option<i32>
    ensures { result ≡ last_in found last }
{
    let Lookup::At(_) = found else {
        return None;
    };
    last
}

/// The pairs of a frame, booked in their order. A pair is its place in the matrix: row times columns, and the column. `None` where a new
/// id would find no place.
pub fn book_matches(
    t: Truths,
    pairs: &[u32],
    object_ids: &[i32],
    hypothesis_ids: &[i32],
) -> Option<Booked>
    requires { (t.used ≤ 256) × (length pairs.now ≤ 64) × ((i : ℕ) → i < length pairs.now → get_or pairs.now i 0 < length object_ids.now * length hypothesis_ids.now) }
    ensures { pairs_booked t result ≡ booked_of t (pairs_of object_ids.now hypothesis_ids.now pairs.now) }
{
    let columns = hypothesis_ids.len();
    let mut truths = t;
    let mut switched = [false; 64];
    for (i, pair) in pairs.iter().enumerate() {
        let k = counts::wide(*pair);
        let id = object_ids[k / columns];
        let to = hypothesis_ids[k % columns];
        let found = ids::seek(&truths.ids[..truths.used], id);
        let at = seen::place_of(found, truths.used);
        if at >= 256 {
            return None;
        }
        switched[i] = slots::is_switch(last_in(found, truths.lasts[at]), to);
        truths.ids[at] = id;
        truths.lasts[at] = Some(to);
        truths.used = seen::used_with(found, truths.used);
    }
    Some(Booked { truths, switched })
}
