//! The orders along which the matroid within a minor runs, and what the minor takes of such a run.
ghost use Rattle.std.specs.Prelude.{◌≡◌, ◌++◌, ℕ, List, Bool, [], not, filter, reverse, IfOk};
ghost use Rattle.mat_sets.specs.Sets.{is_member, all_below, minus, AreDistinct};
ghost use Rattle.mat_laws.specs.{GreedyRuns.{grown_along}, Matroids.{IsMatroid}};
ghost use Rattle.mat_minors.specs.Minors.{is_truncated};

use mat_sets::ElemSet;
use std::alloc::{AllocError, Global};

/// The items of an order that are in a set, in their order. The only error is want of memory.
pub fn items_in(alloc: Global, order: &[u32], set: &ElemSet) -> Result<Vec<u32>, AllocError>
    ensures { IfOk result (λ v. v.items ≡ filter (λ x. is_member x set.now) order.now) }
{
    let mut items = Vec::with_capacity(alloc, order.len())?;
    for x in order {
        if set.contains(*x) {
            items.push(*x)?;
        }
    }
    Ok(items)
}

// The items of an order that are not in a set, in their order. The only error is want of memory.
fn items_outside(alloc: Global, order: &[u32], set: &ElemSet) -> Result<Vec<u32>, AllocError>
    ensures { IfOk result (λ v. v.items ≡ filter (λ x. not (is_member x set.now)) order.now) }
{
    let mut items = Vec::with_capacity(alloc, order.len())?;
    for x in order {
        if !set.contains(*x) {
            items.push(*x)?;
        }
    }
    Ok(items)
}

/// The members of a set, and then the items of an order that are not in it. The only error is want of memory.
pub fn members_first(alloc: Global, set: &ElemSet, order: &[u32]) -> Result<Vec<u32>, AllocError>
    ensures { IfOk result (λ v. v.items ≡ set.now ++ filter (λ x. not (is_member x set.now)) order.now) }
{
    let rest = items_outside(alloc, order, set)?;
    let mut items = Vec::from_slice(alloc, set.as_slice())?;
    items.extend_from_slice(&rest)?;
    Ok(items)
}

/// The numbers below n that are not in a set, and then the items of an order from the last to the first. The only error is
/// want of memory.
pub fn others_first(
    alloc: Global,
    n: u32,
    set: &ElemSet,
    order: &[u32],
) -> Result<Vec<u32>, AllocError>
    ensures { IfOk result (λ v. v.items ≡ minus (all_below n) set.now ++ reverse order.now) }
{
    let others = ElemSet::all_below(alloc, n)?.minus(alloc, set)?;
    let mut turned = Vec::from_slice(alloc, order)?;
    turned.reverse();
    let mut items = Vec::from_slice(alloc, others.as_slice())?;
    items.extend_from_slice(&turned)?;
    Ok(items)
}

/// What the truncation to a cap takes along an order, where `all` is what its matroid takes: the items of the order that
/// are in `all`, up to the cap. The only error is want of memory.
pub fn first_taken(
    alloc: Global,
    order: &[u32],
    all: &ElemSet,
    cap: u32,
) -> Result<ElemSet, AllocError>
    ensures { IfOk result (λ s. (n : ℕ) (p : List ℕ → Bool) → IsMatroid n p → AreDistinct order.now
        → all.now ≡ grown_along p [] order.now → s ≡ grown_along (is_truncated cap p) [] order.now) }
{
    let mut set = ElemSet::new(alloc);
    for x in order {
        if set.len() >= cap as usize {
            return Ok(set);
        }
        if all.contains(*x) {
            set.add(*x)?;
        }
    }
    Ok(set)
}
