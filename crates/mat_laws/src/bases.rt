//! Bases and ranks of sets of elements.

ghost use Rattle.std.specs.Prelude.{◌≡◌, ◌++◌, true, IfOk};
ghost use Rattle.mat_sets.specs.Sets.{AllBelow, IsSubset, minus, union};
ghost use Rattle.mat_laws.specs.{Matroids.{IsMaximal}, Ranks.{IsRank, rank}};

use crate::matroid::Matroid;
use mat_sets::ElemSet;
use std::alloc::{AllocError, Global};

/// The members of `first`, and then those of `second` that are not among them.
pub(crate) fn one_after_another(
    alloc: Global,
    first: &ElemSet,
    second: &ElemSet,
) -> Result<Vec<u32>, AllocError>
    ensures { IfOk result (λ order. order.items ≡ first.now ++ minus second.now first.now) }
{
    let rest = second.minus(alloc, first)?;
    let mut order = Vec::from_slice(alloc, first.as_slice())?;
    order.extend_from_slice(rest.as_slice())?;
    Ok(order)
}

/// A maximal independent subset of `from` ∪ `within` that holds the independent set `from`, by one greedy run. The only
/// error is want of memory.
pub fn grow_base<M: Matroid>(
    alloc: Global,
    m: &M,
    from: &ElemSet,
    within: &ElemSet,
) -> Result<ElemSet, AllocError>
    requires sound { M.sound m.now }
    requires start { M.indep m.now from.now ≡ true }
    requires below { AllBelow (M.ground_size m.now) within.now }
    ensures maximal { IfOk result (λ base. IsMaximal (M.indep m.now) (union from.now within.now) base) }
    ensures holds { IfOk result (λ base. IsSubset from.now base) }
{
    m.grown_base(alloc, from, within)
}

/// The rank of a set of elements: the largest size of an independent subset (Schrijver, chapter 39), by one greedy run. The
/// only error is want of memory.
pub fn rank_of<M: Matroid>(alloc: Global, m: &M, within: &ElemSet) -> Result<u32, AllocError>
    requires sound { M.sound m.now }
    requires below { AllBelow (M.ground_size m.now) within.now }
    ensures largest { IfOk result (λ r. IsRank (M.indep m.now) within.now r) }
    ensures rank { IfOk result (λ r. r ≡ rank (M.indep m.now) within.now) }
{
    m.lawful();
    let size = m.size();
    within.rises();
    let base = m.run(alloc, within.as_slice())?;
    let rank = base.len();
    prove!(rank <= size as usize);
    Ok(rank as u32)
}
