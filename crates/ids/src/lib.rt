// A run of ids: where an id stands in it, and whether one stands twice.
// It takes the place of the hash maps of norfair-rs, internal/motmetrics/accumulator.rs (NOTICE).
#![tactic(auto)]

ghost use Rattle.std.specs.Prelude.{◌≡◌, true, ◌<◌, ◌≤◌, length, take};
ghost use Rattle.ids.specs.Ids.{seek_of, is_absent, distinct_of};
ghost use Rattle.ids.specs.Chains.{bucket_of, Last, Chained};

/// Where an id stands.
// Kept: an enum of its own, since `seek_of` and the theorems over it, which may not change, say At and Absent.
#[derive(Clone, Copy)]
pub enum Lookup {
    At(usize),
    Absent,
}

/// The first place that holds the id.
pub fn seek(ids: &[i32], id: i32) -> Lookup
    ensures { result ≡ seek_of ids.now id }
{
    match ids.iter().position(|own| counts::same_id(*own, id)) {
        Some(at) => Lookup::At(at),
        None => Lookup::Absent,
    }
}

/// Up to so many ids every two are compared: that is quicker than to clear the chains.
const FEW: usize = 12;

/// So many places the chains can hold, as many as a table of ids has at most; a longer run is compared two by two.
const MOST: usize = 1024;

/// Whether no id stands twice.
pub fn distinct(ids: &[i32]) -> bool
    ensures { result ≡ distinct_of ids.now }
{
    if rising(ids) {
        return true;
    }
    if ids.len() <= FEW || ids.len() > MOST {
        return distinct_by_pairs(ids);
    }
    distinct_by_chains(ids)
}

/// Whether each id stands above the one before it, as where ids are given out in turn: then none stands twice. It goes on to the end
/// whatever it finds, so that the compiler can test several at a time.
fn rising(ids: &[i32]) -> bool
    ensures { result ≡ true → distinct_of ids.now ≡ true }
{
    let mut up = true;
    for i in 1..ids.len() {
        up = up & (ids[i - 1] < ids[i]);
    }
    up
}

/// Every id is looked up in those after it.
fn distinct_by_pairs(ids: &[i32]) -> bool
    ensures { result ≡ distinct_of ids.now }
{
    for (i, id) in ids.iter().enumerate() {
        let Lookup::Absent = seek(&ids[i + 1..], *id) else {
            return false;
        };
    }
    true
}

/// Every id is looked up among those before it in its bucket, which lie on a chain: heads has the last place of each bucket,
/// links the one before a place. Places are counted from 1; 0 ends a chain.
fn distinct_by_chains(ids: &[i32]) -> bool
    requires { length ids.now ≤ 1024 }
    ensures { result ≡ distinct_of ids.now }
{
    let mut heads = [0u16; 1024];
    let mut links = [0u16; 1024];
    for (i, id) in ids.iter().enumerate() {
        let b = bucket(*id);
        let last = heads[b];
        if !chain_lacks(ids, &links, i, last, *id) {
            return false;
        }
        links[i] = last;
        heads[b] = (i + 1) as u16;
    }
    true
}

/// Whether none of the first i ids is this one, looked for along its chain.
fn chain_lacks(ids: &[i32], links: &[u16; 1024], i: usize, last: u16, id: i32) -> bool
    requires { (i ≤ length ids.now) × (i ≤ 1024) × Chained ids.now links.now i × Last ids.now (bucket_of id) i last }
    ensures { result ≡ is_absent (seek_of (take i ids.now) id) }
{
    let mut at = usize::from(last);
    // Kept: an iterator would be no plainer, as each turn goes where the link of the one before leads.
    while at > 0 {
        let place = at - 1;
        if counts::same_id(ids[place], id) {
            return false;
        }
        at = usize::from(links[place]);
    }
    true
}

/// One of 1,024 buckets; equal ids have the same.
fn bucket(id: i32) -> usize
    ensures { (result ≡ bucket_of id) × (result < 1024) }
{
    if counts::not_negative(id) {
        return id as usize % 1024;
    }
    (-1 - id) as usize % 1024
}
