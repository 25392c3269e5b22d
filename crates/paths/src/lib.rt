//! Step E of the search: a path from a free row to a free column, and its flip.
//! The square lies at stride 64; in the tables n or more is no partner; in `from`, 64 is no place.
// Kept: n or more for no partner and 64 for no place, as `Flips`, `bfs_of` and `Run` have them, which may not change.
#![tactic(auto)]

ghost use Rattle.std.specs.Prelude.{◌≡◌, ◌*◌, ◌<◌, ◌≤◌, IfSome, length, get_or, replicate};
ghost use Rattle.paths.specs.State.{state};
ghost use Rattle.paths.specs.Path.{bfs_of, Flips, Path};
ghost use Rattle.paths.specs.Inner.{Trail, Begins, Held, Holds, Leads, hit_of};

/// The free column met, and how many rows were queued then.
#[derive(Clone, Copy)]
pub struct Found {
    pub hit: usize,
    pub tail: usize,
}

/// Breadth first from one free row: the first free column met ends it, and is given with the number of rows queued. `from` gets for each column
/// met the place in the queue of the row that it was met from, `queue` the rows in order.
fn bfs(
    c: &[f64],
    n: usize,
    cols: &[usize; 64],
    start: usize,
    from: &mut [usize; 64],
    queue: &mut [usize; 64],
) -> Option<Found>
    requires { Begins n cols.now start × (from.old ≡ replicate 64 64) × (length queue.old ≡ 64) × (n * 64 ≤ length c.now) }
    ensures held { Held (bfs_of c.now n cols.now start) from.new queue.new (hit_of result) }
    ensures met { IfSome result (λ found. (found.hit < n) × Holds (bfs_of c.now n cols.now start) from.new queue.new found.hit found.tail) }
{
    queue[0] = start;
    let mut head = 0usize;
    let mut tail = 1usize;
    let mut hit = None;
    // Kept: a `while`, since the queue grows as it goes; it is the labelled exit's form, which may not change.
    'bfs: while head < tail {
        let row = queue[head];
        for (col, x) in c[row * 64..row * 64 + n].iter().enumerate() {
            if from[col] == 64 && floats::is_zero(*x) {
                from[col] = head;
                let next = cols[col];
                if n <= next {
                    hit = Some(Found { hit: col, tail });
                    break 'bfs;
                }
                queue[tail] = next;
                tail += 1;
            }
        }
        head += 1;
    }
    hit
}

/// Flips the path that ends at the free column `hit`.
fn flip(
    from: &[usize; 64],
    queue: &[usize; 64],
    hit: usize,
    rows: &mut [usize; 64],
    cols: &mut [usize; 64],
)
    requires { Trail rows.old cols.old from.now queue.now hit }
    ensures { Flips from.now queue.now (get_or from.now hit 0) hit rows.old cols.old rows.new cols.new }
{
    let mut col = hit;
    let mut h = from[col];
    // Kept: a `while`, since it goes back along the path, and not over an index.
    while 0 < h {
        let row = queue[h];
        let prev = rows[row];
        rows[row] = col;
        cols[col] = row;
        col = prev;
        h = from[col];
    }
    let row = queue[0];
    rows[row] = col;
    cols[col] = row;
}

/// Step E from the first free row that has a path: that path flipped.
pub fn augment(c: &[f64], n: usize, rows: &mut [usize; 64], cols: &mut [usize; 64], start: usize)
    requires { Leads n c.now rows.old cols.old start × (n * 64 ≤ length c.now) }
    ensures { Path n (state c.now rows.old cols.old) (state c.now rows.new cols.new) }
{
    let mut from = [64usize; 64];
    let mut queue = [0usize; 64];
    if let Some(found) = bfs(c, n, cols, start, &mut from, &mut queue) {
        flip(&from, &queue, found.hit, rows, cols);
    }
}
