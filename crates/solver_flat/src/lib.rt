// The solver's lists and counts written into 261 places of a lent run, for the border to C. Nothing is made by value and copied.
#![tactic(auto)]

ghost use Rattle.std.specs.Prelude.{◌≡◌, false, ◌+◌, ◌*◌, ◌≤◌, length, replicate};
ghost use Rattle.optimize.specs.Answer.{rows_alone};
ghost use Rattle.solver_flat.specs.Flat.{flat_after};
ghost use Rattle.solver_flat.specs.Inner.{Clear, Pasted, PickedAt, PairsAt, Found};

// Zeros over the 256 places of the four lists.
#[tactic(auto, using(crate::proofs::Pasting::pasted_zeros))]
fn clear_lists(out: &mut [usize])
    requires { 261 ≤ length out.old }
    ensures { Pasted out.old 5 (replicate 256 0) 256 out.new }
{
    out[5..261].fill(0);
}

// The numbers below n that have no mark, rising, in the 64 clear places from `at` on, and how many they are.
fn list_unmarked_at(marks: &[bool; 64], n: usize, out: &mut [usize], at: usize) -> usize
    requires { (n ≤ 64) × (at + 64 ≤ length out.old) × Clear at out.old }
    ensures { PickedAt out.old at marks.now n result out.new }
{
    square::pick(marks, n, false, &mut out[at..at + 64])
}

// Kept: a loop beside that of `optimize`, by the C interface: a column of rows and one of columns, and no pairs.
// The rows and columns of the pairs that pass, by rising row, and how many; with marks at their rows and columns.
fn keep_pairs_at(
    cost: &[f64],
    rows: usize,
    cols: usize,
    max_cost: f64,
    row_match: &[usize; 64],
    matched_rows: &mut [bool; 64],
    matched_cols: &mut [bool; 64],
    out: &mut [usize],
) -> usize
    requires { (rows ≤ 64) × (cols ≤ 64) × (length cost.now ≡ rows * cols) × (matched_rows.old ≡ replicate 64 false) × (matched_cols.old ≡ replicate 64 false) × (133 ≤ length out.old) × Clear 5 out.old × Clear 69 out.old }
    ensures { PairsAt cost.now cols max_cost row_match.now rows result matched_rows.new matched_cols.new out.old out.new }
{
    let mut used = 0;
    for row in 0..rows {
        let col = row_match[row];
        if optimize::passes(cost, cols, max_cost, row, col) {
            out[5 + used] = row;
            out[69 + used] = col;
            used += 1;
            matched_rows[row] = true;
            matched_cols[col] = true;
        }
    }
    used
}

// The five counts, in the first places.
#[tactic(auto, using(crate::proofs::Pasting::pasted_part))]
fn write_counts(counts: &[usize; 5], out: &mut [usize])
    requires { 5 ≤ length out.old }
    ensures { Pasted out.old 0 counts.now 5 out.new }
{
    out[..5].copy_from_slice(counts);
}

/// The answer where there is no column: every row is left.
pub fn write_rows_alone(rows: usize, out: &mut [usize])
    requires { (rows ≤ 64) × (261 ≤ length out.old) }
    ensures { out.new ≡ flat_after (rows_alone rows) out.old }
{
    clear_lists(out);
    let left = list_unmarked_at(&[false; 64], rows, out, 133);
    write_counts(&[0, left, 0, 0, 0], out);
}

/// The answer of steps A to G and of `max_cost`.
pub fn write_found(cost: &[f64], rows: usize, cols: usize, max_cost: f64, out: &mut [usize])
    requires { (rows ≤ 64) × (cols ≤ 64) × (length cost.now ≡ rows * cols) × (261 ≤ length out.old) }
    ensures { Found cost.now rows cols max_cost out.old out.new }
{
    clear_lists(out);
    let mut row_match = [64usize; 64];
    let found = hungarian::hungarian_algorithm(cost, rows, cols, &mut row_match);
    let mut matched_rows = [false; 64];
    let mut matched_cols = [false; 64];
    let pairs = keep_pairs_at(
        cost,
        rows,
        cols,
        max_cost,
        &row_match,
        &mut matched_rows,
        &mut matched_cols,
        out,
    );
    let rows_left = list_unmarked_at(&matched_rows, rows, out, 133);
    let cols_left = list_unmarked_at(&matched_cols, cols, out, 197);
    let counts = [pairs, rows_left, cols_left, found.corrections, found.paths];
    write_counts(&counts, out);
}
