// The assignment search over a matrix of costs, and what of its pairs passes max_cost. From internal/scipy/optimize.rs.
// A matrix is one run, row after row; lists stand in 64 places with a count of those used, zeros behind them.
#![tactic(auto)]

ghost use Rattle.std.specs.Prelude.{◌≡◌, false, ◌+◌, ◌*◌, ◌≤◌, length};
ghost use Rattle.optimize.specs.Answer.{assignment_no, passes_of, result_of, empty_of, rows_alone, Answered};
ghost use Rattle.optimize.specs.Inner.{Listed};
ghost use Rattle.refusals.specs.Refusals.{outcome_of};

use refusals::Refusal;
use search::Counts;

/// A row and the column that it got.
#[derive(Clone, Copy)]
pub struct Assignment {
    pub row_idx: usize,
    pub col_idx: usize,
}

const NO_PAIR: Assignment = Assignment {
    row_idx: 0,
    col_idx: 0,
};

/// What a search came to: the pairs that pass, the rows and columns in none, and how many corrections and paths it took.
// Kept: a refusal is a number beside the answer at each public call, for C callers too.
#[derive(Clone, Copy)]
pub struct AssignmentResult {
    pub number: u32,
    pub assignments: [Assignment; 64],
    pub num_assignments: usize,
    pub unmatched_rows: [usize; 64],
    pub num_unmatched_rows: usize,
    pub unmatched_cols: [usize; 64],
    pub num_unmatched_cols: usize,
    pub corrections: usize,
    pub paths: usize,
}

/// Whether a matrix of `rows` by `cols`, given as a run of `len` costs, is one that the search takes.
/// `TooMany` for more than 64 rows or columns, `Misfit` for a length that is not theirs, or no rows with columns.
#[tactic(auto, using(std::proofs::lemmas::Bool::Decides::nat_tests), unfolding(crate::specs::Answer::assignment_no))]
pub fn check_sizes(len: usize, rows: usize, cols: usize) -> Result<(), Refusal>
    ensures { outcome_of result ≡ assignment_no len rows cols }
{
    if rows > 64 || cols > 64 {
        return Err(Refusal::TooMany);
    }
    if rows == 0 && cols > 0 {
        return Err(Refusal::Misfit);
    }
    if len == rows * cols {
        Ok(())
    } else {
        Err(Refusal::Misfit)
    }
}

/// Whether a row and a column are a real pair whose cost, as given, is at most `max_cost`.
#[tactic(auto, using(std::proofs::lemmas::Bool::Decides::nat_tests), unfolding(crate::specs::Answer::passes_of))]
pub fn passes(cost: &[f64], cols: usize, max_cost: f64, row: usize, col: usize) -> bool
    requires { row * cols + cols ≤ length cost.now }
    ensures { result ≡ passes_of cost.now cols max_cost row col }
{
    col < cols && cost[row * cols + col] <= max_cost
}

/// The pairs that pass, in the first `used` places, and marks at their rows and columns.
#[derive(Clone, Copy)]
pub struct Kept {
    pub assignments: [Assignment; 64],
    pub used: usize,
    pub rows: [bool; 64],
    pub cols: [bool; 64],
}

// The pairs that pass, by rising row.
fn keep_pairs(
    cost: &[f64],
    rows: usize,
    cols: usize,
    max_cost: f64,
    row_match: &[usize; 64],
) -> Kept
    requires { (rows ≤ 64) × (cols ≤ 64) × (length cost.now ≡ rows * cols) }
    ensures { Listed cost.now cols max_cost row_match.now rows result.assignments result.used result.rows result.cols }
{
    let mut kept = Kept {
        assignments: [NO_PAIR; 64],
        used: 0,
        rows: [false; 64],
        cols: [false; 64],
    };
    for row in 0..rows {
        let col = row_match[row];
        if passes(cost, cols, max_cost, row, col) {
            kept.assignments[kept.used] = Assignment {
                row_idx: row,
                col_idx: col,
            };
            kept.used += 1;
            kept.rows[row] = true;
            kept.cols[col] = true;
        }
    }
    kept
}

// What of a matching passes `max_cost`, and what is left.
fn filtered(
    cost: &[f64],
    rows: usize,
    cols: usize,
    max_cost: f64,
    row_match: &[usize; 64],
    found: Counts,
) -> AssignmentResult
    requires { (rows ≤ 64) × (cols ≤ 64) × (length cost.now ≡ rows * cols) }
    ensures { result ≡ result_of cost.now rows cols max_cost row_match.now found.corrections found.paths }
{
    let kept = keep_pairs(cost, rows, cols, max_cost, row_match);
    let mut unmatched_rows = [0usize; 64];
    let num_unmatched_rows = square::pick(&kept.rows, rows, false, &mut unmatched_rows);
    let mut unmatched_cols = [0usize; 64];
    let num_unmatched_cols = square::pick(&kept.cols, cols, false, &mut unmatched_cols);
    AssignmentResult {
        number: 0,
        assignments: kept.assignments,
        num_assignments: kept.used,
        unmatched_rows,
        num_unmatched_rows,
        unmatched_cols,
        num_unmatched_cols,
        corrections: found.corrections,
        paths: found.paths,
    }
}

// A number, with zeros everywhere else.
#[tactic(auto, unfolding(crate::specs::Answer::empty_of))]
fn empty(number: u32) -> AssignmentResult
    ensures { result ≡ empty_of number }
{
    AssignmentResult {
        number,
        assignments: [NO_PAIR; 64],
        num_assignments: 0,
        unmatched_rows: [0; 64],
        num_unmatched_rows: 0,
        unmatched_cols: [0; 64],
        num_unmatched_cols: 0,
        corrections: 0,
        paths: 0,
    }
}

// Rows but no columns: every row is unmatched.
fn rows_alone(rows: usize) -> AssignmentResult
    requires { rows ≤ 64 }
    ensures { result ≡ rows_alone rows }
{
    let mut unmatched_rows = [0usize; 64];
    let num_unmatched_rows = square::pick(&[false; 64], rows, false, &mut unmatched_rows);
    AssignmentResult {
        unmatched_rows,
        num_unmatched_rows,
        ..empty(0)
    }
}

/// The public call: it asks nothing of its caller.
pub fn linear_sum_assignment(
    cost: &[f64],
    rows: usize,
    cols: usize,
    max_cost: f64,
) -> AssignmentResult
    ensures { Answered cost.now rows cols max_cost result }
{
    if let Err(refusal) = check_sizes(cost.len(), rows, cols) {
        return empty(refusal.number());
    }
    if rows == 0 {
        return empty(0);
    }
    if cols == 0 {
        return rows_alone(rows);
    }
    let mut row_match = [64usize; 64];
    let found = hungarian::hungarian_algorithm(cost, rows, cols, &mut row_match);
    filtered(cost, rows, cols, max_cost, &row_match, found)
}
