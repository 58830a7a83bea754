//! Whether bounds of ranks meet what is demanded of them.

ghost use Rattle.std.specs.Prelude.{◌≡◌, ℕ, ◌<◌, ◌≤◌, if◌then◌else◌, [], ◌∷◌, length, map, slice_index_or, All, IfOk, Some, None};
ghost use Rattle.mat_sets.specs.{Limits.{most_elements}, Sets.{IsSet}};
ghost use Rattle.mat_any.specs.{Trees.{element_count, IsSound}, Views.{tree_of}};
ghost use Rattle.mat_problem.specs.Validity.{IsValidTree};
ghost use Rattle.mat_witness.specs.{
  Demands.{demand_for},
  Parts.{IsBoundFor},
  Shown.{are_met, AreBoundsFor, bounds_common_sets, demands_under, meets},
  Views.{bound_part},
  declared.witness.Most.{Most},
};

use super::bounds::bound_shown;
use crate::demands::{Demand, demands_under};
use crate::witness::Most;
use mat_any::AnyMatroid;
use mat_laws::Matroid;
use mat_sets::{ElemSet, Weight};
use std::alloc::{AllocError, Global};

// Whether a bound shows what is demanded.
fn is_met(
    alloc: Global,
    matroid: &AnyMatroid,
    demand: &Demand,
    part: &Most,
) -> Result<bool, AllocError>
    requires few { element_count (tree_of matroid.now) ≤ most_elements }
    requires sound { IsSound (tree_of matroid.now) }
    requires valid { IsValidTree (element_count (tree_of matroid.now)) (tree_of matroid.now) }
    requires set { IsSet (element_count (tree_of matroid.now)) demand.now.set }
    requires part { IsBoundFor (element_count (tree_of matroid.now)) (tree_of matroid.now) (bound_part part.now) }
    ensures { IfOk result (λ met. met ≡ meets (demand_for (tree_of matroid.now) demand.now) (bound_part part.now)) }
{
    match bound_shown(alloc, matroid, part, &demand.set)? {
        Some(number) => Ok(number as usize <= demand.most),
        None => Ok(false),
    }
}

// Whether each demand is met by the bound at its place, of bounds that are at least as many.
fn are_met(
    alloc: Global,
    matroid: &AnyMatroid,
    demands: &[Demand],
    parts: &[Most],
) -> Result<bool, AllocError>
    requires few { element_count (tree_of matroid.now) ≤ most_elements }
    requires sound { IsSound (tree_of matroid.now) }
    requires valid { IsValidTree (element_count (tree_of matroid.now)) (tree_of matroid.now) }
    requires sets { All (λ demand. IsSet (element_count (tree_of matroid.now)) demand.set) demands.now }
    requires enough { length demands.now ≤ length parts.now }
    requires parts { (i : ℕ) (part : Most) → i < length demands.now
        → IsBoundFor (element_count (tree_of matroid.now)) (tree_of matroid.now) (bound_part (slice_index_or parts.now i part)) }
    ensures { IfOk result (λ met. met ≡ are_met (map (demand_for (tree_of matroid.now)) demands.now) (map bound_part parts.now)) }
{
    for i in 0..demands.len() {
        if !is_met(alloc, matroid, &demands[i], &parts[i])? {
            return Ok(false);
        }
    }
    Ok(true)
}

/// How many bounds stand for what is demanded under a half of a rung with this set, where they meet it, and else None. The only error is want
/// of memory.
pub(crate) fn met_under(
    alloc: Global,
    matroid: &AnyMatroid,
    k: u32,
    set: &ElemSet,
    half: &[Weight],
    parts: &[Most],
) -> Result<Option<usize>, AllocError>
    requires few { element_count (tree_of matroid.now) ≤ most_elements }
    requires sound { IsSound (tree_of matroid.now) }
    requires valid { IsValidTree (element_count (tree_of matroid.now)) (tree_of matroid.now) }
    requires half { length half.now ≡ element_count (tree_of matroid.now) }
    requires enough { length (demands_under (tree_of matroid.now) k set.now half.now) ≤ length parts.now }
    requires parts { (i : ℕ) (part : Most) → i < length (demands_under (tree_of matroid.now) k set.now half.now)
        → IsBoundFor (element_count (tree_of matroid.now)) (tree_of matroid.now) (bound_part (slice_index_or parts.now i part)) }
    ensures { IfOk result (λ found. found ≡ (if are_met (demands_under (tree_of matroid.now) k set.now half.now) (map bound_part parts.now)
        then Some (length (demands_under (tree_of matroid.now) k set.now half.now)) else None)) }
{
    let demands = demands_under(alloc, k, set, half)?;
    if are_met(alloc, matroid, &demands, parts)? {
        Ok(Some(demands.len()))
    } else {
        Ok(None)
    }
}

/// Whether two bounds show that the rank of the elements outside the cut in the first matroid and that of the cut in the second add up to at
/// most this number. The only error is want of memory.
pub(crate) fn bounds_common_sets(
    alloc: Global,
    first: &AnyMatroid,
    second: &AnyMatroid,
    cut: &ElemSet,
    last: usize,
    parts: &[Most],
) -> Result<bool, AllocError>
    requires few { element_count (tree_of first.now) ≤ most_elements }
    requires same { element_count (tree_of second.now) ≡ element_count (tree_of first.now) }
    requires first_sound { IsSound (tree_of first.now) }
    requires second_sound { IsSound (tree_of second.now) }
    requires first_valid { IsValidTree (element_count (tree_of first.now)) (tree_of first.now) }
    requires second_valid { IsValidTree (element_count (tree_of second.now)) (tree_of second.now) }
    requires cut { IsSet (element_count (tree_of first.now)) cut.now }
    requires parts { AreBoundsFor (element_count (tree_of first.now)) (tree_of first.now ∷ tree_of second.now ∷ []) (map bound_part parts.now) }
    ensures { IfOk result (λ shown. shown
        ≡ bounds_common_sets (tree_of first.now) (tree_of second.now) (element_count (tree_of first.now)) cut.now last (map bound_part parts.now)) }
{
    let all = ElemSet::all_below(alloc, first.size())?;
    let outside = all.minus(alloc, cut)?;
    let [part, other] = parts else {
        return Ok(false);
    };
    let Some(here) = bound_shown(alloc, first, part, &outside)? else {
        return Ok(false);
    };
    let Some(there) = bound_shown(alloc, second, other, cut)? else {
        return Ok(false);
    };
    Ok(here as usize + there as usize <= last)
}
