// Steps A to G over a matrix of costs: which column each row gets, and how many corrections and paths it took.
// From internal/scipy/optimize.rs.
#![tactic(auto)]

ghost use Rattle.std.specs.Prelude.{◌≡◌, ◌*◌, ◌≤◌, max, length, replicate};
ghost use Rattle.floats.specs.Float.{zero64};
ghost use Rattle.hungarian.specs.Solved.{Solved};

use search::Counts;

// Steps A to G, in a lent square of side n that holds zeros.
fn steps(
    cost: &[f64],
    rows: usize,
    cols: usize,
    n: usize,
    c: &mut [f64],
    row_match: &mut [usize; 64],
) -> Counts
    requires { (rows ≤ 64) × (cols ≤ 64) × (length cost.now ≡ rows * cols) × (n ≡ max rows cols) × (c.old ≡ replicate (n * 64) zero64) × (row_match.old ≡ replicate 64 64) }
    ensures { Solved cost.now rows cols result.corrections result.paths row_match.new }
{
    let mut col_match = [64usize; 64];
    start::pad(cost, rows, cols, c);
    start::lower_rows(c, n);
    start::lower_cols(c, n);
    start::first_pass(c, n, row_match, &mut col_match);
    search::search(c, n, row_match, &mut col_match)
}

// Steps A to G, in a square cut from `PLACES` zeros.
fn in_places<const PLACES: usize>(
    cost: &[f64],
    rows: usize,
    cols: usize,
    n: usize,
    row_match: &mut [usize; 64],
) -> Counts
    requires { (rows ≤ 64) × (cols ≤ 64) × (length cost.now ≡ rows * cols) × (n ≡ max rows cols) × (n * 64 ≤ PLACES) × (PLACES ≤ 4096) × (row_match.old ≡ replicate 64 64) }
    ensures { Solved cost.now rows cols result.corrections result.paths row_match.new }
{
    let mut c = [0.0f64; PLACES];
    steps(cost, rows, cols, n, &mut c[..n * 64], row_match)
}

/// Steps A to G: each row's column, which is no real one from the number of columns on, and the counts of steps G and E.
/// (Three sizes of square: to clear 4,096 places costs more than all else of a small matrix.)
pub fn hungarian_algorithm(
    cost: &[f64],
    rows: usize,
    cols: usize,
    row_match: &mut [usize; 64],
) -> Counts
    requires { (rows ≤ 64) × (cols ≤ 64) × (length cost.now ≡ rows * cols) × (row_match.old ≡ replicate 64 64) }
    ensures { Solved cost.now rows cols result.corrections result.paths row_match.new }
{
    let n = rows.max(cols);
    match n {
        0..=8 => in_places::<512>(cost, rows, cols, n, row_match),
        9..=32 => in_places::<2048>(cost, rows, cols, n, row_match),
        _ => in_places::<4096>(cost, rows, cols, n, row_match),
    }
}
