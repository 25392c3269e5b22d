//! Truth ids with their last partners in a lent run of numbers: what it stands for, and the pairs of a frame booked there.
//! Ported from norfair-rs, internal/motmetrics/accumulator.rs, which follows py-motmetrics, and metrics/accumulator.rs (NOTICE).
#![tactic(auto)]

ghost use Rattle.std.specs.Prelude.{◌≡◌, false, ℕ, ◌*◌, ◌<◌, ◌≤◌, length, get_or};
ghost use Rattle.slots.specs.Slots.{switches};
ghost use Rattle.partners.specs.Partners.{last_in, pairs_of, booked_of};
ghost use Rattle.truths_in_place.specs.Table.{last_from, truths_in, MatchesBooked};

use id_runs::put;
use ids::Lookup;

/// How many places are used in the end, and for each pair, by its number, whether it is a switch.
#[derive(Clone, Copy)]
pub struct Matched {
    pub used: usize,
    pub switched: [bool; 64],
}

// Whether a match is a switch, by what was looked up and what stands at its place.
fn is_switch(found: Lookup, known: i32, partner: i32, to: i32) -> bool
    ensures { result ≡ switches (last_in found (last_from known partner)) to }
{
    let Lookup::At(_) = found else {
        return false;
    };
    slots::is_switch(slot_cells::partner_of(known, partner), to)
}

/// The pairs of a frame, booked in their order.
pub fn book_matches(
    table: &mut [i32],
    used: usize,
    pairs: &[u32],
    object_ids: &[i32],
    hypothesis_ids: &[i32],
) -> Matched
    requires used_bound { (used ≤ 256) × (length table.old ≡ 768) × (length pairs.now ≤ 64) × ((i : ℕ) → i < length pairs.now → get_or pairs.now i 0 < length object_ids.now * length hypothesis_ids.now) }
    requires pairs_value { (booked_of (truths_in table.old used) (pairs_of object_ids.now hypothesis_ids.now pairs.now)).full ≡ false }
    ensures { MatchesBooked table.old used (pairs_of object_ids.now hypothesis_ids.now pairs.now) table.new result }
{
    let columns = hypothesis_ids.len();
    let mut count = used;
    let mut switched = [false; 64];
    for (i, pair) in pairs.iter().enumerate() {
        let k = counts::wide(*pair);
        let id = object_ids[k / columns];
        let to = hypothesis_ids[k % columns];
        let found = ids::seek(&table[..count], id);
        let at = seen::place_of(found, count);
        prove!(at < 256);
        switched[i] = is_switch(found, table[at + 256], table[at + 512], to);
        put(table, at, id, 1, to);
        count = seen::used_with(found, count);
    }
    Matched {
        used: count,
        switched,
    }
}
