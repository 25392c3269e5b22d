// The refusals 2 and 3 of a frame of ids and boxes, for every accumulator that is given both.
#![tactic(auto)]

ghost use Rattle.std.specs.Prelude.{◌≡◌};
ghost use Rattle.refusals.specs.Refusals.{outcome_of};
ghost use Rattle.shape.specs.Shape.{size_no, fit_no, shape_no};

use refusals::Refusal;

// Too many ids, or whole boxes, on a side.
#[tactic(auto, unfolding(crate::specs::Shape::size_no))]
fn check_size(ids: usize, floats: usize) -> Result<(), Refusal>
    ensures { outcome_of result ≡ size_no ids floats }
{
    if ids > 64 || floats / 4 > 64 {
        return Err(Refusal::TooMany);
    }
    Ok(())
}

// Ids and boxes that differ in number, or a run that ends within a box.
#[tactic(auto, unfolding(crate::specs::Shape::fit_no))]
fn check_fit(ids: usize, floats: usize) -> Result<(), Refusal>
    ensures { outcome_of result ≡ fit_no ids floats }
{
    if ids != floats / 4 || floats % 4 != 0 {
        return Err(Refusal::Misfit);
    }
    Ok(())
}

/// Whether a frame of so many ids and box floats on its two sides is in shape.
///
/// # Errors
/// `TooMany` for either side, and then `Misfit` for either: what goes by the lengths alone.
#[tactic(auto, unfolding(crate::specs::Shape::shape_no))]
pub fn check_shape(gt_ids: usize, gt: usize, pred_ids: usize, pred: usize) -> Result<(), Refusal>
    ensures { outcome_of result ≡ shape_no gt_ids gt pred_ids pred }
{
    check_size(gt_ids, gt)?;
    check_size(pred_ids, pred)?;
    check_fit(gt_ids, gt)?;
    check_fit(pred_ids, pred)
}
