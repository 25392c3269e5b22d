// Steps A to C of the search: the padded square, the minima taken off, the first pass.
// The square lies at stride 64; in the tables n or more is no partner.
#![tactic(auto)]

ghost use Rattle.std.specs.Prelude.{◌≡◌, ℕ, ◌+◌, ◌*◌, ◌≤◌, ◌<◌, max, length, get_or, replicate};
ghost use Rattle.std.specs.Float.{nan};
ghost use Rattle.floats.specs.Float.{zero64};
ghost use Rattle.square.specs.Square.{in_row, along, line};
ghost use Rattle.start.specs.Steps.{padded, least_along, less_by, lowered, rows_lowered, cols_lowered, pair_row, pair_rows, pairs_of};

// One row of step A.
// Kept: a loop, as `copy_from_slice` is a call of memmove, which no archive for C asks for.
#[tactic(auto, using(square::proofs::Square::line_none, square::proofs::Square::line_more))]
fn pad_row(src: &[f64], row: usize, c: &mut [f64])
    requires { (length src.now ≤ 64) × (row < 64) × (row * 64 + 64 ≤ length c.old) }
    ensures { c.new ≡ line (in_row row) (length src.now) (λ j _. get_or src.now j nan) c.old }
{
    let first = row * 64;
    for (j, x) in src.iter().enumerate() {
        c[first + j] = *x;
    }
}

/// Step A, into a square of zeros: each row is a part of the run.
#[tactic(auto, using(square::proofs::Square::over_none), unfolding(crate::specs::Steps::padded))]
pub fn pad(m: &[f64], rows: usize, cols: usize, c: &mut [f64])
    requires { (rows ≤ 64) × (cols ≤ 64) × (length m.now ≡ rows * cols) × (c.old ≡ replicate (max rows cols * 64) zero64) }
    ensures { c.new ≡ padded m.now rows cols }
{
    for row in 0..rows {
        let first = row * cols;
        pad_row(&m[first..first + cols], row, c);
    }
}

// The minimum of a line, NaN passed over.
#[tactic(auto, using(crate::proofs::StepsCode::least_none, crate::proofs::StepsCode::least_more, square::proofs::Square::least_new, square::proofs::Square::least_old))]
fn least_along(c: &[f64], first: usize, step: usize, n: usize) -> f64
    requires { (t : ℕ) → t < n → first + t * step < length c.now }
    ensures { result ≡ least_along (along first step) n c.now }
{
    let mut least = f64::INFINITY;
    for t in 0..n {
        let x = c[first + t * step];
        if x < least {
            least = x;
        }
    }
    least
}

// A line less `least`.
#[tactic(auto, using(square::proofs::Square::line_none, square::proofs::Square::line_more))]
fn less_by(c: &mut [f64], first: usize, step: usize, n: usize, least: f64)
    requires { (t : ℕ) → t < n → first + t * step < length c.old }
    ensures { c.new ≡ less_by (along first step) n least c.old }
{
    for t in 0..n {
        c[first + t * step] -= least;
    }
}

// A line less its minimum, if that is finite.
#[tactic(auto, using(crate::proofs::StepsCode::lower_yes, crate::proofs::StepsCode::lower_no))]
fn lower(c: &mut [f64], first: usize, step: usize, n: usize)
    requires { (t : ℕ) → t < n → first + t * step < length c.old }
    ensures { c.new ≡ lowered (along first step) n c.old }
{
    let least = least_along(c, first, step, n);
    if floats::is_finite(least) {
        less_by(c, first, step, n, least);
    }
}

/// Step B's rows.
// Kept: one function for rows and columns would take both strides as parameters, and is no plainer.
#[tactic(auto, using(crate::proofs::StepsCode::rows_none, crate::proofs::StepsCode::rows_more))]
pub fn lower_rows(c: &mut [f64], n: usize)
    requires { (n ≤ 64) × (n * 64 ≤ length c.old) }
    ensures { c.new ≡ rows_lowered n n c.old }
{
    for row in 0..n {
        lower(c, row * 64, 1, n);
    }
}

/// Step B's columns.
#[tactic(auto, using(crate::proofs::StepsCode::cols_none, crate::proofs::StepsCode::cols_more))]
pub fn lower_cols(c: &mut [f64], n: usize)
    requires { (n ≤ 64) × (n * 64 ≤ length c.old) }
    ensures { c.new ≡ cols_lowered n n c.old }
{
    for col in 0..n {
        lower(c, col, 64, n);
    }
}

// One row of step C.
#[tactic(auto, using(crate::proofs::StepsCode::row_none, crate::proofs::StepsCode::row_more, crate::proofs::StepsCode::pairs_eq, crate::proofs::StepsCode::no_zero, crate::proofs::StepsCode::row_taken, crate::proofs::StepsCode::col_taken, crate::proofs::StepsCode::pair_made), unfolding(square::specs::Square::zero_at))]
fn pair_row(c: &[f64], n: usize, row: usize, rows: &mut [usize; 64], cols: &mut [usize; 64])
    requires { (n ≤ 64) × (row < n) × (n * 64 ≤ length c.now) }
    ensures { pairs_of rows.new cols.new ≡ pair_row c.now n row n (pairs_of rows.old cols.old) }
{
    for col in 0..n {
        if floats::is_zero(c[row * 64 + col]) && n <= rows[row] && n <= cols[col] {
            rows[row] = col;
            cols[col] = row;
        }
    }
}

/// Step C.
#[tactic(auto, using(crate::proofs::StepsCode::pass_none, crate::proofs::StepsCode::pass_more))]
pub fn first_pass(c: &[f64], n: usize, rows: &mut [usize; 64], cols: &mut [usize; 64])
    requires { (n ≤ 64) × (n * 64 ≤ length c.now) }
    ensures { pairs_of rows.new cols.new ≡ pair_rows c.now n n (pairs_of rows.old cols.old) }
{
    for row in 0..n {
        pair_row(c, n, row, rows, cols);
    }
}
