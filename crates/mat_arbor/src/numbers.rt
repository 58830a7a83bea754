//! Costs as single numbers, in which a main of 1 counts more than ties come to, and where such numbers can be parted into main and tie again.
ghost use Rattle.std.specs.Prelude.{◌≡◌, ◌+◌, ◌*◌, ◌<◌, ◌≤◌, ◌^◌, ℕ, length, map, true, slice_index_or, IfOk};
ghost use Rattle.mat_sets.specs.{
  Limits.{largest_weight, most_elements},
  Sets.{is_member, IsSet},
  Weights.{AreWeightsWithin, IsWeightWithin},
};
ghost use Rattle.mat_arbor.specs.Halves.{gap_at, raised_value, unit_of, IsFreeShift};

use mat_sets::{ElemSet, Weight};
use std::alloc::{AllocError, Global};

/// More than the ties of two costs differ.
const TIE_GAP: u128 = 2_000_000_000_001;

/// By how much the main of each cost is raised, so that it is above 0.
const RAISE: i128 = 1_000_000_000_001;

/// What a main of 1 counts in a single number.
pub(crate) fn unit_of(count: usize) -> u128
    requires { count ≤ most_elements }
    ensures { result ≡ unit_of count }
{
    (count as u128 + 1) * TIE_GAP
}

/// The cost as a single number that is not below 0.
fn raised_value(unit: u128, cost: &Weight) -> i128
    requires unit { unit ≤ 10 ^ 15 + 2 * 10 ^ 13 }
    requires cost { IsWeightWithin largest_weight cost.now }
    ensures { result ≡ raised_value unit cost.now }
{
    unit as i128 * cost.main + cost.tie + unit as i128 * RAISE
}

/// The costs as single numbers that are not below 0.
pub(crate) fn raised_values(
    alloc: Global,
    unit: u128,
    costs: &[Weight],
) -> Result<Vec<i128>, AllocError>
    requires unit { unit ≤ 10 ^ 15 + 2 * 10 ^ 13 }
    requires small { AreWeightsWithin largest_weight costs.now }
    ensures { IfOk result (λ v. v.items ≡ map (raised_value unit) costs.now) }
{
    let mut all = Vec::with_capacity(alloc, costs.len())?;
    for cost in costs {
        all.push(raised_value(unit, cost))?;
    }
    Ok(all)
}

/// The gaps of the unit in which the remainders of the numbers lie.
fn taken_gaps(alloc: Global, unit: u128, held: &[u128]) -> Result<ElemSet, AllocError>
    requires few { length held.now ≤ most_elements }
    requires unit { unit ≡ unit_of (length held.now) }
    ensures set { IfOk result (IsSet (length held.now + 1)) }
    ensures few { IfOk result (λ s. length s ≤ length held.now) }
    ensures taken { IfOk result (λ s. (a : ℕ) → a < length held.now → is_member (gap_at unit (slice_index_or held.now a 0)) s ≡ true) }
{
    let mut taken = ElemSet::new(alloc);
    for x in held {
        taken.add((*x % unit / TIE_GAP) as u32)?;
    }
    Ok(taken)
}

/// A number that, added to each of these, leaves no remainder in the last gap of the unit: there is one more gap than there are numbers.
pub(crate) fn free_shift(alloc: Global, unit: u128, held: &[u128]) -> Result<u128, AllocError>
    requires few { length held.now ≤ most_elements }
    requires unit { unit ≡ unit_of (length held.now) }
    ensures { IfOk result (IsFreeShift unit held.now) }
{
    let taken = taken_gaps(alloc, unit, held)?;
    let free = ElemSet::all_below(alloc, held.len() as u32 + 1)?.minus(alloc, &taken)?;
    Ok(unit - (free.get(0) as u128 + 1) * TIE_GAP)
}
