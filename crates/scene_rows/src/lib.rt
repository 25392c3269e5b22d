//! How a table's numbers are read: a row of digits as an id and four corners, a side as rows laid one behind the other.
#![tactic(auto)]

ghost use Rattle.std.specs.Prelude.{◌≡◌, ◌++◌, ◌+◌, ◌*◌, ◌≤◌, ◌<◌, pos, length, take, get_or};
ghost use Rattle.scene_rows.specs.Digits.{id_of, part_of, float64, box_of, size_of, Laid};

fn id(digits: u64) -> i32
    ensures { (result ≡ pos (id_of digits)) × (id_of digits < 2147483648) }
{
    (digits / 10_000_000_000_000_000) as i32
}

// A corner as a float, which holds it exactly.
fn corner(digits: u64, place: u64) -> f64
    requires { 0 < place }
    ensures { result ≡ float64 (part_of digits place) }
{
    let n = (digits / place % 10000) as u32;
    n as f64
}

fn put_box(boxes: &mut [f64], at: usize, digits: u64)
    requires { at + 4 ≤ length boxes.old }
    ensures boxes_len_unchanged { length boxes.new ≡ length boxes.old }
    ensures boxes_after { take (at + 4) boxes.new ≡ take at boxes.old ++ box_of digits }
{
    boxes[at] = corner(digits, 1_000_000_000_000);
    boxes[at + 1] = corner(digits, 100_000_000);
    boxes[at + 2] = corner(digits, 10_000);
    boxes[at + 3] = corner(digits, 1);
}

fn put_rows(rows: &[u64], first: usize, n: usize, ids: &mut [i32], boxes: &mut [f64])
    requires { (first + n ≤ length rows.now) × (n ≤ length ids.old) × (n * 4 ≤ length boxes.old) }
    ensures laid { Laid rows.now first n ids.new boxes.new }
    ensures ids_len_unchanged { (length ids.new ≡ length ids.old) × (length boxes.new ≡ length boxes.old) }
{
    for i in 0..n {
        let digits = rows[first + i];
        ids[i] = id(digits);
        put_box(boxes, i * 4, digits);
    }
}

// How many rows a side has: all of count from a place on, or none.
#[tactic(auto, unfolding(crate::specs::Digits::size_of))]
fn rows_there(rows: usize, first: usize, count: usize) -> usize
    ensures { (result ≡ size_of rows first count) × (result ≤ 64) × (0 < result → first + result ≤ rows) }
{
    if count > 64 || first > rows || count > rows - first {
        return 0;
    }
    count
}

/// A side of a frame, in memory that is lent: how many rows it has, its ids and its box floats, from the front.
pub fn side(rows: &[u64], first: usize, count: usize, ids: &mut [i32], boxes: &mut [f64]) -> usize
    requires { (64 ≤ length ids.old) × (256 ≤ length boxes.old) }
    ensures value { (result ≡ size_of (length rows.now) first count) × Laid rows.now first result ids.new boxes.new }
    ensures upper_bound { (result ≤ 64) × (length ids.new ≡ length ids.old) × (length boxes.new ≡ length boxes.old) }
{
    let n = rows_there(rows.len(), first, count);
    if n == 0 {
        return 0;
    }
    put_rows(rows, first, n, ids, boxes);
    n
}

/// The digits of the frame with this number, from 0; 0 digits, no boxes, past the last.
pub fn digits_at(frames: &[u64], number: usize) -> u64
    ensures { result ≡ get_or frames.now number 0 }
{
    frames.get(number).copied().unwrap_or(0)
}
