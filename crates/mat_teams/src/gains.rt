//! What each person gains, as weights.

ghost use Rattle.std.specs.Prelude.{◌≡◌, length, IfOk};
ghost use Rattle.mat_sets.specs.{Limits.{largest_weight}, Weights.{AreWeightsWithin}};

use mat_sets::{PairWeights, Weight};
use std::alloc::{AllocError, Global};

/// A weight without a tie for each gain. The only error is want of memory.
pub(crate) fn weights_of(alloc: Global, gains: &[u32]) -> Result<PairWeights, AllocError>
    ensures lengths { IfOk result (λ w. length w ≡ length gains.now) }
    ensures small { IfOk result (AreWeightsWithin largest_weight) }
{
    let mut weights = Vec::new(alloc);
    for gain in gains {
        weights.push(Weight {
            main: *gain as i128,
            tie: 0,
        })?;
    }
    Ok(PairWeights::new(weights))
}
