//! Steps over lent runs of ids: whether ids find room, numbers written, the ids of a frame's pairs.
#![tactic(auto)]

ghost use Rattle.std.specs.Prelude.{◌≡◌, [], ◌∷◌, ◌++◌, ℕ, ◌+◌, ◌*◌, ◌<◌, ◌≤◌, length, take, get_or};
ghost use Rattle.columns.specs.Columns.{put_all};
ghost use Rattle.ids.specs.Ids.{seek_of, is_absent};
ghost use Rattle.seen.specs.Seen.{seen_all};
ghost use Rattle.id_runs.specs.Runs.{fit_in, row_ids_of, cleared};

use ids::Lookup;

// Whether an id stands in neither run.
fn is_new(known: &[i32], fresh: &[i32], id: i32) -> bool
    ensures { result ≡ is_absent (seek_of (known.now ++ fresh.now) id) }
{
    let Lookup::Absent = ids::seek(known, id) else {
        return false;
    };
    let Lookup::Absent = ids::seek(fresh, id) else {
        return false;
    };
    true
}

// How many of a frame's ids have no place among those that are known.
fn count_new(known: &[i32], ids: &[i32]) -> usize
    requires { length ids.now ≤ 64 }
    ensures { (length known.now + result ≡ length (seen_all known.now ids.now)) × (result ≤ 64) }
{
    let mut fresh = [0; 64];
    let mut count: usize = 0;
    for id in ids {
        if is_new(known, &fresh[..count], *id) {
            fresh[count] = *id;
            count += 1;
        }
    }
    count
}

/// Whether a frame's ids find room among those that are known, where there are so many places. (Nothing is counted where there is
/// one for each.)
pub fn ids_fit(room: usize, known: &[i32], ids: &[i32]) -> bool
    requires { (length known.now ≤ 1024) × (length ids.now ≤ 64) }
    ensures { result ≡ fit_in room known.now ids.now }
{
    known.len() + ids.len() <= room || known.len() + count_new(known, ids) <= room
}

/// 0 at the places from one on and before another.
pub fn clear(run: &mut [i32], from: usize, to: usize)
    requires { (from ≤ to) × (to ≤ length run.old) }
    ensures { run.new ≡ cleared run.old from to }
{
    run[from..to].fill(0);
}

/// The three numbers at a place of the table, written over.
pub fn put(table: &mut [i32], k: usize, id: i32, known: i32, partner: i32)
    requires { (k < 256) × (length table.old ≡ 768) }
    ensures { table.new ≡ put_all table.old 256 k (id ∷ (known ∷ (partner ∷ []))) }
{
    table[k] = id;
    table[k + 256] = known;
    table[k + 512] = partner;
}

/// The truth ids of a frame's pairs, in the front of an array.
pub fn matched_ids(pairs: &[u32], object_ids: &[i32], w: usize) -> [i32; 64]
    requires { (length pairs.now ≤ 64) × ((i : ℕ) → i < length pairs.now → get_or pairs.now i 0 < length object_ids.now * w) }
    ensures { take (length pairs.now) result ≡ row_ids_of object_ids.now w pairs.now }
{
    let mut ids = [0; 64];
    for (i, pair) in pairs.iter().enumerate() {
        ids[i] = object_ids[counts::wide(*pair) / w];
    }
    ids
}
