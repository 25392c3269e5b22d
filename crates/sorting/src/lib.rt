// A stable sort of places by the floats that stand there: the port's own, where the Rust calls sort_by.
// Kept: a sort of its own, as a slice's stable sort takes an allocator of the library, and these crates have no heap.
#![tactic(auto)]

ghost use Rattle.std.specs.Prelude.{◌≡◌, ◌+◌, ◌-◌, ◌<◌, ◌≤◌, length, take, slice_index, position};
ghost use Rattle.std.specs.Float.Ieee.{lt};
ghost use Rattle.std.proofs.lemmas.List.Edits.{sets};
ghost use Rattle.sorting.specs.Order.{key_of, Numbers};
ghost use Rattle.sorting.specs.Sort.{put, sort_of};
ghost use Rattle.sorting.specs.Steps.{merge_of, first_next};

// Up to so many entries a run is sorted by insertion, which is quicker there.
const SHORT: usize = 16;

// Up to so many a small scratch does: clearing the large one would take longer than the sort.
const FEW: usize = 256;

// The key of an entry, a NaN where it has none.
fn key_at(keys: &[f64], k: u32) -> f64
    ensures { result ≡ key_of keys.now k }
{
    match keys.get(k as usize) {
        Some(x) => *x,
        None => f64::NAN,
    }
}

// The place of the first entry whose key is above x.
fn first_above(keys: &[f64], order: &[u32], x: f64) -> Option<usize>
    ensures { result ≡ position (λ k. lt x (key_of keys.now k)) order.now }
{
    order.iter().position(|k| x < key_at(keys, *k))
}

// A run with its last entry put before the first whose key is above its own.
// Kept: a loop moves the others, as `rotate_right` is a call of memmove, which no archive for C asks for.
fn put_last(keys: &[f64], run: &mut [u32])
    requires { 0 < length run.old }
    ensures { let last = length run.old - 1 in run.new ≡ put keys.now (slice_index run.old last) (take last run.old) }
{
    let last = run.len() - 1;
    let k = run[last];
    let x = key_at(keys, k);
    let p = first_above(keys, &run[..last], x).unwrap_or(last);
    for i in (p..last).rev() {
        run[i + 1] = run[i];
    }
    run[p] = k;
}

// A short run in the order of its keys, by insertion.
fn sort_short(keys: &[f64], order: &mut [u32])
    ensures { order.new ≡ sort_of keys.now order.old }
{
    for i in 0..order.len() {
        put_last(keys, &mut order[..=i]);
    }
}

// Whether the next entry of two runs is the first run's.
fn from_first(keys: &[f64], a: &[u32], b: &[u32]) -> bool
    ensures { result ≡ first_next keys.now a.now b.now }
{
    match (a.first(), b.first()) {
        (None, _) => false,
        (Some(_), None) => true,
        (Some(p), Some(q)) => {
            let x = key_at(keys, *p);
            let y = key_at(keys, *q);
            !(y < x)
        }
    }
}

// Two runs merged into the front of out.
fn merge(keys: &[f64], a: &[u32], b: &[u32], out: &mut [u32])
    requires { length a.now + length b.now ≤ length out.old }
    ensures { out.new ≡ sets out.old 0 (merge_of keys.now a.now b.now) }
{
    let mut i: usize = 0;
    let mut j: usize = 0;
    for k in 0..a.len() + b.len() {
        if from_first(keys, &a[i..], &b[j..]) {
            out[k] = a[i];
            i += 1;
        } else {
            out[k] = b[j];
            j += 1;
        }
    }
}

// The front of one run over the whole of another.
// Kept: a loop, as `copy_from_slice` is a call of memmove too.
fn copy_front(from: &[u32], to: &mut [u32])
    requires { length to.old ≤ length from.now }
    ensures { to.new ≡ take (length to.old) from.now }
{
    for (i, place) in to.iter_mut().enumerate() {
        *place = from[i];
    }
}

// A run in the order of its keys: its halves sorted, then merged by way of scratch.
fn sort_run(keys: &[f64], order: &mut [u32], scratch: &mut [u32])
    requires { Numbers keys.now order.old × (length order.old ≤ length scratch.old) }
    ensures { order.new ≡ sort_of keys.now order.old }
{
    let n = order.len();
    if n <= SHORT {
        sort_short(keys, order);
        return;
    }
    let mid = n / 2;
    sort_run(keys, &mut order[..mid], scratch);
    sort_run(keys, &mut order[mid..], scratch);
    let run = &order[..];
    merge(keys, &run[..mid], &run[mid..], scratch);
    copy_front(scratch, order);
}

// A run of at most N entries in the order of its keys.
fn sort_with<const N: usize>(keys: &[f64], order: &mut [u32])
    requires numbers { Numbers keys.now order.old }
    requires room { (length order.old ≤ N) × (N ≤ 4096) }
    ensures { order.new ≡ sort_of keys.now order.old }
{
    let mut scratch = [0; N];
    sort_run(keys, order, &mut scratch);
}

/// The entries in the order of their keys; those whose keys tie stay as they stood.
pub fn sort_by_key(keys: &[f64], order: &mut [u32])
    requires { Numbers keys.now order.old × (length order.old ≤ 4096) }
    ensures { order.new ≡ sort_of keys.now order.old }
{
    if order.len() <= FEW {
        sort_with::<FEW>(keys, order);
    } else {
        sort_with::<4096>(keys, order);
    }
}
