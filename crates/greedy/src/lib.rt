// Pairs of a row and a column, taken in the order in which they come, each if both its ends are free. For modules 3 and 4 alike.
// Ported from norfair-rs, internal/motmetrics/accumulator.rs and metrics/accumulator.rs (NOTICE): marks where the Rust has hash sets.
#![tactic(auto)]

ghost use Rattle.std.specs.Prelude.{◌≡◌, not, ◌&&◌, ◌*◌, ◌<◌, ◌≤◌, ◌/◌, ◌%◌};
ghost use Rattle.square.specs.Index.{on};
ghost use Rattle.sorting.specs.Order.{Each};
ghost use Rattle.greedy.specs.Greedy.{pairing_of};

/// The pairs taken, in that order, as places of a matrix, row by row; and the marks of their rows and columns.
#[derive(Clone, Copy)]
pub struct Pairing {
    pub pairs: [u32; 64],
    pub used: usize,
    pub rows: [bool; 64],
    pub cols: [bool; 64],
}

/// The row of a place of a matrix with w columns.
pub fn row_of(place: u32, w: usize) -> usize
    requires { (0 < w) × (w ≤ 64) }
    ensures { result ≡ place / w }
{
    (place / w as u32) as usize
}

/// The column of a place of a matrix with w columns.
pub fn col_of(place: u32, w: usize) -> usize
    requires { (0 < w) × (w ≤ 64) }
    ensures { result ≡ place % w }
{
    (place % w as u32) as usize
}

fn both_free(p: &Pairing, row: usize, col: usize) -> bool
    requires { (row < 64) × (col < 64) }
    ensures { result ≡ (not (on p.now.rows row) && not (on p.now.cols col)) }
{
    !p.rows[row] && !p.cols[col]
}

/// The pairs of `n` rows and `w` columns that are taken.
pub fn take_pairs(order: &[u32], n: usize, w: usize) -> Pairing
    requires { (n ≤ 64) × (w ≤ 64) × Each (λ k. k < n * w) order.now }
    ensures { result ≡ pairing_of w order.now }
{
    let mut p = Pairing {
        pairs: [0; 64],
        used: 0,
        rows: [false; 64],
        cols: [false; 64],
    };
    for place in order {
        let row = row_of(*place, w);
        let col = col_of(*place, w);
        if both_free(&p, row, col) {
            p.pairs[p.used] = *place;
            p.used += 1;
            p.rows[row] = true;
            p.cols[col] = true;
        }
    }
    p
}
