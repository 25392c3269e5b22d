// A count as a size; the lengths of a frame of ids and distances, and of a state that is lent as runs of numbers.
#![tactic(auto)]

ghost use Rattle.std.specs.Prelude.{◌≡◌, true, ◌≤◌, nat_abs};
ghost use Rattle.std.specs.Int.Signed.{non_neg};
ghost use Rattle.refusals.specs.Refusals.{number_of, outcome_of};
ghost use Rattle.sizes.specs.Sizes.{shape_no, log_and_table, lengths_no};

use refusals::Refusal;

/// A count that is not negative. (Wider than an i32, so that the sum of 256 of them can be tested.)
pub fn size(n: i32) -> usize
    requires { non_neg n ≡ true }
    ensures { (result ≡ nat_abs n) × (result ≤ 2147483647) }
{
    n as usize
}

/// Whether a frame of `rows` truth ids, `columns` hypothesis ids and `size` distances is in shape.
///
/// # Errors
/// `TooMany` for more than 64 ids on a side, and then `Misfit` for distances that are not rows times columns.
#[tactic(auto, unfolding(crate::specs::Sizes::shape_no))]
pub fn check_frame(rows: usize, columns: usize, size: usize) -> Result<(), Refusal>
    ensures { outcome_of result ≡ shape_no rows columns size }
{
    if rows > 64 || columns > 64 {
        return Err(Refusal::TooMany);
    }
    if size != rows * columns {
        return Err(Refusal::Misfit);
    }
    Ok(())
}

/// Whether a lent log and a lent table of truth ids are as long as a state's.
#[tactic(auto, unfolding(crate::specs::Sizes::log_and_table))]
pub fn log_and_table(numbers: usize, distances: usize, table: usize) -> bool
    ensures { result ≡ log_and_table numbers distances table }
{
    numbers == 4096 && distances == 1024 && table == 768
}

/// Why a lent state of another length is refused, where `shape` is the outcome of the frame's own lengths: as `TooMany` where that is,
/// and else as a `Misfit`.
#[tactic(auto, unfolding(crate::specs::Sizes::lengths_no))]
pub fn wrong_length(shape: Result<(), Refusal>) -> Refusal
    ensures { number_of result ≡ lengths_no (outcome_of shape) }
{
    match shape {
        Err(Refusal::TooMany) => Refusal::TooMany,
        _ => Refusal::Misfit,
    }
}
