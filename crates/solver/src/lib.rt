// The solver, its promise an equation: what stands above it needs no uniqueness theorem of its own.
#![tactic(auto)]

ghost use Rattle.std.specs.Prelude.{◌≡◌};
ghost use Rattle.solver.specs.Solution.{solution_of};

use optimize::AssignmentResult;

/// The one answer to a matrix of costs, a run, row after row: what of its best pairs costs at most `max_cost`.
pub fn solve(cost: &[f64], rows: usize, cols: usize, max_cost: f64) -> AssignmentResult
    ensures { result ≡ solution_of cost.now rows cols max_cost }
{
    optimize::linear_sum_assignment(cost, rows, cols, max_cost)
}
