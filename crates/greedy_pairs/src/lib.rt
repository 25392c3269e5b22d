// How the two greedy accumulators pair a frame: module 3 by rising distance, module 4 by falling IoU. One sort and one taking for both.
// Ported from norfair-rs, internal/motmetrics/accumulator.rs and metrics/accumulator.rs (NOTICE).
#![tactic(auto)]

ghost use Rattle.std.specs.Prelude.{◌≡◌, Bool, Float, map, ◌*◌, ◌<◌, ◌≤◌, length, take};
ghost use Rattle.std.specs.Float.{binary64};
ghost use Rattle.std.specs.Float.Ieee.{sub};
ghost use Rattle.floats.specs.Float.{one64};
ghost use Rattle.sorting.specs.Order.{Each, Numbers};
ghost use Rattle.sorting.specs.Sort.{sort_of};
ghost use Rattle.greedy.specs.Greedy.{pairing_of};
ghost use Rattle.greedy_pairs.specs.Pairs.{places_of, by_distance, by_share};

use greedy::Pairing;

// The places of the entries that pass, in the front of order, and how many they are.
fn list_passing<F: Fn(f64) -> bool>(entries: &[f64], passes: F, order: &mut [u32]) -> usize
    requires few { length entries.now ≤ 4096 }
    requires room { length entries.now ≤ length order.old }
    requires callable { F.IsAlwaysCallable passes }
    ensures inside { result ≤ length entries.now }
    ensures listed { (test : Float → Bool) → ((x : Float) (r : Bool) → F.post passes x r → r ≡ test x) → (result ≡ length (places_of test entries.now)) × (take result order.new ≡ places_of test entries.now) }
{
    let mut used: usize = 0;
    for (i, x) in entries.iter().enumerate() {
        if passes(*x) {
            order[used] = i as u32;
            used += 1;
        }
    }
    used
}

// The listed places, by rising key, taken while both ends are free.
fn pair_listed(keys: &[f64], order: &mut [u32], n: usize, w: usize) -> Pairing
    requires { (n ≤ 64) × (w ≤ 64) × (length order.old ≤ 4096) × Numbers keys.now order.old × Each (λ k. k < n * w) order.old }
    ensures { result ≡ pairing_of w (sort_of keys.now order.old) }
{
    sorting::sort_by_key(keys, order);
    greedy::take_pairs(&order[..], n, w)
}

// Module 3's pairs of a matrix of at most N entries.
fn by_distance_in<const N: usize>(distances: &[f64], n: usize, w: usize) -> Pairing
    requires matrix { (n ≤ 64) × (w ≤ 64) × (length distances.now ≡ n * w) }
    requires room { (length distances.now ≤ N) × (N ≤ 4096) }
    ensures { result ≡ by_distance distances.now w }
{
    let mut order = [0; N];
    let used = list_passing(distances, floats::is_finite, &mut order);
    pair_listed(distances, &mut order[..used], n, w)
}

/// Module 3's pairs of `n` rows and `w` columns: all finite distances, ascending. (A small frame has a short list: clearing a long
/// one would take longer than the rest.)
pub fn pair_by_distance(distances: &[f64], n: usize, w: usize) -> Pairing
    requires { (n ≤ 64) × (w ≤ 64) × (length distances.now ≡ n * w) }
    ensures { result ≡ by_distance distances.now w }
{
    match distances.len() {
        0..=64 => by_distance_in::<64>(distances, n, w),
        65..=512 => by_distance_in::<512>(distances, n, w),
        _ => by_distance_in::<4096>(distances, n, w),
    }
}

// Each number changed by f.
fn change_each<F: Fn(f64) -> f64>(run: &mut [f64], f: F)
    requires { F.IsAlwaysCallable f }
    ensures { (change : Float → Float) → ((x r : Float) → F.post f x r → r ≡ change x) → run.new ≡ map change run.old }
{
    for x in run.iter_mut() {
        *x = f(*x);
    }
}

// Module 4's pairs of a matrix of at most N entries. What the sort is handed is the negated IoUs, and what is handed back 1.0 less each.
fn by_share_in<const N: usize>(shares: &mut [f64], threshold: f64, n: usize, w: usize) -> Pairing
    requires matrix { (n ≤ 64) × (w ≤ 64) × (length shares.old ≡ n * w) }
    requires room { (length shares.old ≤ N) × (N ≤ 4096) }
    ensures { (result ≡ by_share shares.old threshold w) × (shares.new ≡ map (sub binary64 one64) shares.old) }
{
    let mut order = [0; N];
    let used = list_passing(&shares[..], |share| share >= threshold, &mut order);
    change_each(shares, |share| -share);
    let p = pair_listed(&shares[..], &mut order[..used], n, w);
    change_each(shares, |negated| 1.0 + negated);
    p
}

/// Module 4's pairs of `n` rows and `w` columns: IoU at least the threshold, descending. The IoUs lent come back as the distances to
/// be stored, 1.0 less each.
pub fn pair_by_share(shares: &mut [f64], threshold: f64, n: usize, w: usize) -> Pairing
    requires { (n ≤ 64) × (w ≤ 64) × (length shares.old ≡ n * w) }
    ensures { (result ≡ by_share shares.old threshold w) × (shares.new ≡ map (sub binary64 one64) shares.old) }
{
    match shares.len() {
        0..=64 => by_share_in::<64>(shares, threshold, n, w),
        65..=512 => by_share_in::<512>(shares, threshold, n, w),
        _ => by_share_in::<4096>(shares, threshold, n, w),
    }
}
