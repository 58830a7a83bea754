//! The parts of a witness, made by the kind of the matroid. What makes and what tests those of one kind stands in a file or a folder of its own.

ghost use Rattle.std.specs.Prelude.{◌≡◌, ◌≤◌, true, length, IfOk};
ghost use Rattle.mat_sets.specs.Sets.{IsSet};
ghost use Rattle.mat_laws.specs.Matroids.{IsMaximal};
ghost use Rattle.mat_any.specs.{Trees.{element_count, is_independent}, Views.{tree_of}};
ghost use Rattle.mat_witness.specs.{
  BoundParts.{bound_of, shows_bound},
  FreeParts.{shows_free},
  Making.{IsWitnessed},
  Parts.{IsBoundFor, IsFreeFor},
  Views.{bound_part, free_part},
};

mod columns;
mod counted;
mod forests;
mod gammoids;

use crate::witness::{Free, Most};
pub(crate) use columns::{probes_of, shows_probes, zeros_bound, zeros_of};
pub(crate) use counted::{filled_bound, filled_uniform, listed_bound, uniform_bound};
pub(crate) use forests::{component_labels, forest_pairs, labels_bound, shows_forest};
pub(crate) use gammoids::{closing_bound, closing_sets, paths_to, shows_paths};
use mat_any::AnyMatroid;
use mat_sets::ElemSet;
use std::alloc::{AllocError, Global};

/// What shows that an independent set is independent. The only error is want of memory.
pub(crate) fn free_of(
    alloc: Global,
    matroid: &AnyMatroid,
    set: &ElemSet,
) -> Result<Free, AllocError>
    requires witnessed { IsWitnessed (tree_of matroid.now) }
    requires set { is_independent (tree_of matroid.now) set.now ≡ true }
    ensures part { IfOk result (λ part. IsFreeFor (element_count (tree_of matroid.now)) (length set.now) (tree_of matroid.now) (free_part part)) }
    ensures shows { IfOk result (λ part. shows_free (tree_of matroid.now) (free_part part) set.now ≡ true) }
{
    match matroid {
        AnyMatroid::Uniform(_) | AnyMatroid::Partition(_) | AnyMatroid::Laminar(_) => {
            Ok(Free::Count)
        }
        AnyMatroid::Graphic(graphic) => Ok(Free::Forest(forest_pairs(alloc, graphic, set)?)),
        AnyMatroid::Gammoid(gammoid) => Ok(Free::Paths(paths_to(alloc, gammoid, set)?)),
        AnyMatroid::Gf2(gf2) => Ok(Free::Probes(probes_of(alloc, gf2, set)?)),
        _ => unreachable!(),
    }
}

/// What shows that the rank of a set is at most the number of elements of a maximal independent subset. The only error is want of memory.
pub(crate) fn bound_for(
    alloc: Global,
    matroid: &AnyMatroid,
    set: &ElemSet,
    inside: &ElemSet,
) -> Result<Most, AllocError>
    requires witnessed { IsWitnessed (tree_of matroid.now) }
    requires set { IsSet (element_count (tree_of matroid.now)) set.now }
    requires maximal { IsMaximal (is_independent (tree_of matroid.now)) set.now inside.now }
    ensures part { IfOk result (λ part. IsBoundFor (element_count (tree_of matroid.now)) (tree_of matroid.now) (bound_part part)) }
    ensures shows { IfOk result (λ part. shows_bound (tree_of matroid.now) (bound_part part) set.now ≡ true) }
    ensures number { IfOk result (λ part. bound_of (tree_of matroid.now) (bound_part part) ≤ length inside.now) }
{
    match matroid {
        AnyMatroid::Uniform(uniform) => filled_uniform(alloc, uniform, inside),
        AnyMatroid::Partition(partition) => filled_bound(
            alloc,
            partition.count(),
            partition.classes(),
            partition.caps(),
            set,
            inside,
        ),
        AnyMatroid::Laminar(laminar) => filled_bound(
            alloc,
            laminar.count(),
            laminar.sets(),
            laminar.caps(),
            set,
            inside,
        ),
        AnyMatroid::Graphic(graphic) => Ok(Most::Labels(component_labels(alloc, graphic, set)?)),
        AnyMatroid::Gammoid(gammoid) => {
            let (reach, gate) = closing_sets(alloc, gammoid, set)?;
            Ok(Most::Gate { reach, gate })
        }
        AnyMatroid::Gf2(gf2) => Ok(Most::Zeros(zeros_of(alloc, gf2, inside)?)),
        _ => unreachable!(),
    }
}
