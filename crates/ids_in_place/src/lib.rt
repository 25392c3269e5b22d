//! A frame's ids in the lent tables: whether they find room, which is settled before anything is written, so that nothing is ever put
//! back; and the ids, seen in order.
//! Ported from norfair-rs, internal/motmetrics/accumulator.rs, which follows py-motmetrics, and metrics/accumulator.rs (NOTICE).
#![tactic(auto)]

ghost use Rattle.std.specs.Prelude.{◌≡◌, not, false, ℕ, ◌*◌, ◌<◌, ◌≤◌, length, get_or};
ghost use Rattle.seen.specs.Seen.{hypotheses_of, seen_hypotheses};
ghost use Rattle.partners.specs.Partners.{pairs_of, booked_of, seen_truths};
ghost use Rattle.truths_in_place.specs.Table.{truths_in, TruthsSeen};

use id_runs::{clear, ids_fit, matched_ids};

/// Whether a frame's truth ids find room in the table.
pub fn truths_fit(table: &[i32], used: usize, ids: &[i32]) -> bool
    requires { (used ≤ 256) × (length table.now ≡ 768) × (length ids.now ≤ 64) }
    ensures { result ≡ not (seen_truths (truths_in table.now used) ids.now).full }
{
    ids_fit(256, &table[..used], ids)
}

/// Whether a frame's hypotheses find room in their run.
pub fn hypotheses_fit(run: &[i32], used: usize, ids: &[i32]) -> bool
    requires { (used ≤ 1024) × (length run.now ≡ 1024) × (length ids.now ≤ 64) }
    ensures { result ≡ not (seen_hypotheses (hypotheses_of run.now used) ids.now).full }
{
    ids_fit(1024, &run[..used], ids)
}

/// A frame's hypotheses, seen in order.
pub fn see_hypotheses(run: &mut [i32], used: usize, ids: &[i32]) -> usize
    requires used_bound { (used ≤ 1024) × (length run.old ≡ 1024) }
    requires ids_value { (seen_hypotheses (hypotheses_of run.old used) ids.now).full ≡ false }
    ensures { hypotheses_of run.new result ≡ (seen_hypotheses (hypotheses_of run.old used) ids.now).hypotheses }
{
    seen::see_all(run, used, ids).unwrap()
}

/// A frame's truth ids, seen in order: one that is new has no partner yet.
pub fn see_truths(table: &mut [i32], used: usize, ids: &[i32]) -> usize
    requires used_bound { (used ≤ 256) × (length table.old ≡ 768) }
    requires ids_value { (seen_truths (truths_in table.old used) ids.now).full ≡ false }
    ensures { TruthsSeen table.old used ids.now table.new result }
{
    let count = seen::see_all(&mut table[..256], used, ids).unwrap();
    clear(table, 256 + used, 256 + count);
    clear(table, 512 + used, 512 + count);
    count
}

/// Whether the matched truth ids find room in the table. A pair is its place in the matrix: row times columns, and the column.
pub fn matches_fit(
    table: &[i32],
    used: usize,
    pairs: &[u32],
    object_ids: &[i32],
    hypothesis_ids: &[i32],
) -> bool
    requires { (used ≤ 256) × (length table.now ≡ 768) × (length pairs.now ≤ 64) × ((i : ℕ) → i < length pairs.now → get_or pairs.now i 0 < length object_ids.now * length hypothesis_ids.now) }
    ensures { result ≡ not (booked_of (truths_in table.now used) (pairs_of object_ids.now hypothesis_ids.now pairs.now)).full }
{
    if used + pairs.len() <= 256 {
        return true;
    }
    let ids = matched_ids(pairs, object_ids, hypothesis_ids.len());
    ids_fit(256, &table[..used], &ids[..pairs.len()])
}
