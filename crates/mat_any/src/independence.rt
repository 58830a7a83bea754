//! Independence in a matroid of any kind, by recursion on the matroids within it.
ghost use Rattle.std.specs.Prelude.{◌≡◌, IfOk};
ghost use Rattle.mat_sets.specs.Sets.{AllBelow, IsSet};
ghost use Rattle.mat_laws.specs.Matroids.{IsMaximal};
ghost use Rattle.mat_minors.specs.Minors.{is_dual, is_contracted};
ghost use Rattle.mat_union.specs.UnionsOf.{AreJoined};
ghost use Rattle.mat_any.specs.{
  Joined.{elements_in, size_in, union_in, IsSoundOne},
  Trees.{element_count, is_independent, IsSound},
  Views.{tree_of},
};

use crate::any::AnyMatroid;
use crate::runs::{dual_run, run, union_run};
use mat_laws::Matroid;
use mat_sets::ElemSet;
use std::alloc::{AllocError, Global};

/// Whether a set of elements below the size is independent. A truncation or a restriction asks the matroid within it at
/// most once; a dual makes one run of it, and the dual of a dual one run of the matroid within both; a contraction makes at most one run of the
/// matroid within it and asks it at most once; a union makes one run of its own. The only error is want of memory.
#[cycle(asking)]
pub(crate) fn independent(
    alloc: Global,
    matroid: &AnyMatroid,
    set: &ElemSet,
) -> Result<bool, AllocError>
    requires sound { IsSound (tree_of matroid.now) }
    requires below { AllBelow (element_count (tree_of matroid.now)) set.now }
    ensures { IfOk result (λ b. b ≡ is_independent (tree_of matroid.now) set.now) }
{
    match matroid {
        AnyMatroid::Uniform(uniform) => uniform.independent(alloc, set),
        AnyMatroid::Partition(partition) => partition.independent(alloc, set),
        AnyMatroid::Laminar(laminar) => laminar.independent(alloc, set),
        AnyMatroid::Graphic(graphic) => graphic.independent(alloc, set),
        AnyMatroid::Transversal(transversal) => transversal.independent(alloc, set),
        AnyMatroid::Gammoid(gammoid) => gammoid.independent(alloc, set),
        AnyMatroid::Gf2(gf2) => gf2.independent(alloc, set),
        AnyMatroid::Dual(inner) => dual_independent(alloc, inner, set),
        AnyMatroid::Truncate { cap, inner } => {
            if set.len() > *cap as usize {
                return Ok(false);
            }
            independent(alloc, inner, set)
        }
        AnyMatroid::Restrict { kept, inner } => {
            if !set.is_subset(kept) {
                return Ok(false);
            }
            independent(alloc, inner, set)
        }
        AnyMatroid::Contract { away, inner } => contraction_independent(alloc, inner, away, set),
        AnyMatroid::Union { parts } => union_independent(alloc, parts, set),
    }
}

// Whether the set is independent in the dual of the matroid: the run of the dual through its members takes each of them.
fn dual_independent(alloc: Global, inner: &AnyMatroid, set: &ElemSet) -> Result<bool, AllocError>
    requires sound { IsSound (tree_of inner.now) }
    requires below { AllBelow (element_count (tree_of inner.now)) set.now }
    ensures { IfOk result (λ b. b ≡ is_dual (element_count (tree_of inner.now)) (is_independent (tree_of inner.now)) set.now) }
{
    set.rises();
    let taken = dual_run(alloc, inner, set.as_slice())?;
    Ok(taken.len() == set.len())
}

// Whether the set is independent in the union of matroids: the run of the union through its members takes each of them.
fn union_independent(
    alloc: Global,
    matroids: &[AnyMatroid],
    set: &ElemSet,
) -> Result<bool, AllocError>
    requires joined { AreJoined elements_in IsSoundOne matroids.now }
    requires below { AllBelow (size_in matroids.now) set.now }
    ensures { IfOk result (λ b. b ≡ union_in matroids.now set.now) }
{
    set.rises();
    let taken = union_run(alloc, matroids, set.as_slice())?;
    Ok(taken.len() == set.len())
}

// Whether the set is independent where the elements of `away` are contracted: it is disjoint from them, and independent
// together with a maximal independent subset of them.
#[cycle(asking)]
fn contraction_independent(
    alloc: Global,
    inner: &AnyMatroid,
    away: &ElemSet,
    set: &ElemSet,
) -> Result<bool, AllocError>
    requires sound { IsSound (tree_of inner.now) }
    requires away { IsSet (element_count (tree_of inner.now)) away.now }
    requires below { AllBelow (element_count (tree_of inner.now)) set.now }
    ensures { IfOk result (λ b. b ≡ is_contracted (element_count (tree_of inner.now)) away.now (is_independent (tree_of inner.now)) set.now) }
{
    if !set.is_disjoint(away) {
        return Ok(false);
    }
    let chosen = maximal_subset(alloc, inner, away)?;
    let joined = set.union(alloc, &chosen)?;
    independent(alloc, inner, &joined)
}

/// A maximal independent subset, by one greedy run. The only error is want of memory.
pub(crate) fn maximal_subset(
    alloc: Global,
    matroid: &AnyMatroid,
    within: &ElemSet,
) -> Result<ElemSet, AllocError>
    requires sound { IsSound (tree_of matroid.now) }
    requires below { AllBelow (element_count (tree_of matroid.now)) within.now }
    ensures { IfOk result (λ base. IsMaximal (is_independent (tree_of matroid.now)) within.now base) }
{
    within.rises();
    run(alloc, matroid, within.as_slice())
}
