//! The number of a part of a witness that bounds the rank of a set, by the kind of the matroid.

ghost use Rattle.std.specs.Prelude.{◌≡◌, ◌≤◌, if◌then◌else◌, IfOk, Some, None};
ghost use Rattle.mat_sets.specs.{Limits.{most_elements}, Sets.{IsSet}};
ghost use Rattle.mat_any.specs.{Trees.{element_count, IsSound}, Views.{tree_of}};
ghost use Rattle.mat_problem.specs.Validity.{IsValidTree};
ghost use Rattle.mat_witness.specs.{BoundParts.{bound_of, shows_bound}, Parts.{IsBoundFor}, Views.{bound_part}};

use crate::parts::{closing_bound, labels_bound, listed_bound, uniform_bound, zeros_bound};
use crate::witness::Most;
use mat_any::AnyMatroid;
use mat_sets::ElemSet;
use std::alloc::{AllocError, Global};

/// The bound that the part shows for the rank of the set, and None where it shows none. The only error is want of memory.
pub(crate) fn bound_shown(
    alloc: Global,
    matroid: &AnyMatroid,
    part: &Most,
    set: &ElemSet,
) -> Result<Option<u32>, AllocError>
    requires few { element_count (tree_of matroid.now) ≤ most_elements }
    requires sound { IsSound (tree_of matroid.now) }
    requires valid { IsValidTree (element_count (tree_of matroid.now)) (tree_of matroid.now) }
    requires set { IsSet (element_count (tree_of matroid.now)) set.now }
    requires part { IsBoundFor (element_count (tree_of matroid.now)) (tree_of matroid.now) (bound_part part.now) }
    ensures { IfOk result (λ found. found ≡ (if shows_bound (tree_of matroid.now) (bound_part part.now) set.now
        then Some (bound_of (tree_of matroid.now) (bound_part part.now)) else None)) }
{
    match (matroid, part) {
        (AnyMatroid::Uniform(uniform), Most::Spent { spent, sets }) => {
            Ok(uniform_bound(uniform, spent, sets, set))
        }
        (AnyMatroid::Partition(partition), Most::Spent { spent, sets }) => listed_bound(
            alloc,
            partition.classes(),
            partition.caps(),
            spent,
            sets,
            set,
        ),
        (AnyMatroid::Laminar(laminar), Most::Spent { spent, sets }) => {
            listed_bound(alloc, laminar.sets(), laminar.caps(), spent, sets, set)
        }
        (AnyMatroid::Graphic(graphic), Most::Labels(labels)) => {
            labels_bound(alloc, graphic, labels.as_slice(), set)
        }
        (AnyMatroid::Gammoid(gammoid), Most::Gate { reach, gate }) => {
            closing_bound(alloc, gammoid, reach, gate, set)
        }
        (AnyMatroid::Gf2(gf2), Most::Zeros(zeros)) => Ok(zeros_bound(gf2, zeros.as_slice(), set)),
        _ => Ok(None),
    }
}
