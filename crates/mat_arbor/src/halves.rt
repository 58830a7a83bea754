//! The two halves of a split of costs, from single numbers.
ghost use Rattle.std.specs.Prelude.{◌≡◌, ◌+◌, ◌<◌, ◌≤◌, ◌^◌, ℕ, length, map, slice_index_or, IfOk};
ghost use Rattle.mat_sets.specs.{Limits.{largest_weight, most_elements}, Weights.{AreWeightsWithin}};
ghost use Rattle.mat_arbor.specs.Halves.{unit_of, weight_of, AreHalves, AreSecondHalves};

use crate::numbers::free_shift;
use mat_sets::{PairWeights, Weight};
use std::alloc::{AllocError, Global};

/// The weight with this value whose tie is from -shift on and below unit - shift.
fn weight_of(unit: u128, shift: u128, x: u128) -> Weight
    requires unit { 0 < unit }
    requires small { x + shift < 2 ^ 126 }
    ensures { result ≡ weight_of unit shift x }
{
    let main = (x + shift) / unit;
    Weight {
        main: main as i128,
        tie: x as i128 - (main * unit) as i128,
    }
}

/// The weights with these values.
fn first_half(
    alloc: Global,
    unit: u128,
    shift: u128,
    held: &[u128],
) -> Result<Vec<Weight>, AllocError>
    requires unit { 0 < unit }
    requires shift { shift < 2 ^ 125 }
    requires small { (a : ℕ) → a < length held.now → slice_index_or held.now a 0 < 2 ^ 125 }
    ensures { IfOk result (λ v. v.items ≡ map (weight_of unit shift) held.now) }
{
    let mut all = Vec::with_capacity(alloc, held.len())?;
    for x in held {
        all.push(weight_of(unit, shift, *x))?;
    }
    Ok(all)
}

/// What the first half leaves of the negated costs.
fn second_half(alloc: Global, costs: &[Weight], first: &[Weight]) -> Result<Vec<Weight>, AllocError>
    requires long { length first.now ≡ length costs.now }
    requires costs { AreWeightsWithin largest_weight costs.now }
    requires first { AreWeightsWithin (10 ^ 36) first.now }
    ensures { IfOk result (λ v. AreSecondHalves costs.now first.now v.items) }
{
    let mut all = Vec::with_capacity(alloc, costs.len())?;
    for a in 0..costs.len() {
        all.push(-costs[a] - first[a])?;
    }
    Ok(all)
}

/// The two halves of a split of the negated costs, of which the first has these values.
pub(crate) fn halves(
    alloc: Global,
    unit: u128,
    costs: &[Weight],
    held: &[u128],
) -> Result<(PairWeights, PairWeights), AllocError>
    requires few { length held.now ≤ most_elements }
    requires unit { unit ≡ unit_of (length held.now) }
    requires long { length held.now ≡ length costs.now }
    requires costs { AreWeightsWithin largest_weight costs.now }
    requires small { (a : ℕ) → a < length held.now → slice_index_or held.now a 0 ≤ 10 ^ 35 }
    ensures { IfOk result (λ h. AreHalves unit costs.now held.now h.0 h.1) }
{
    let shift = free_shift(alloc, unit, held)?;
    let first = first_half(alloc, unit, shift, held)?;
    let second = second_half(alloc, costs, first.as_slice())?;
    Ok((PairWeights::new(first), PairWeights::new(second)))
}
