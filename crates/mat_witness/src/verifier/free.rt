//! Whether the part of a witness shows that a set is independent, by the kind of the matroid.

ghost use Rattle.std.specs.Prelude.{◌≡◌, length, IfOk};
ghost use Rattle.mat_sets.specs.Sets.{IsSet};
ghost use Rattle.mat_any.specs.{Trees.{element_count, IsSound}, Views.{tree_of}};
ghost use Rattle.mat_witness.specs.{FreeParts.{shows_free}, Parts.{IsFreeFor}, Views.{free_part}};

use crate::parts::{shows_forest, shows_paths, shows_probes};
use crate::witness::Free;
use mat_any::AnyMatroid;
use mat_laws::Matroid;
use mat_sets::ElemSet;
use std::alloc::{AllocError, Global};

/// Whether the part shows that the set is independent. The only error is want of memory.
pub(crate) fn shows_free(
    alloc: Global,
    matroid: &AnyMatroid,
    part: &Free,
    set: &ElemSet,
) -> Result<bool, AllocError>
    requires sound { IsSound (tree_of matroid.now) }
    requires set { IsSet (element_count (tree_of matroid.now)) set.now }
    requires part { IsFreeFor (element_count (tree_of matroid.now)) (length set.now) (tree_of matroid.now) (free_part part.now) }
    ensures { IfOk result (λ shown. shown ≡ shows_free (tree_of matroid.now) (free_part part.now) set.now) }
{
    match (matroid, part) {
        (AnyMatroid::Uniform(uniform), Free::Count) => uniform.independent(alloc, set),
        (AnyMatroid::Partition(partition), Free::Count) => partition.independent(alloc, set),
        (AnyMatroid::Laminar(laminar), Free::Count) => laminar.independent(alloc, set),
        (AnyMatroid::Graphic(graphic), Free::Forest(pairs)) => {
            shows_forest(alloc, graphic, pairs, set)
        }
        (AnyMatroid::Gammoid(gammoid), Free::Paths(walks)) => {
            shows_paths(alloc, gammoid, walks.as_slice(), set)
        }
        (AnyMatroid::Gf2(gf2), Free::Probes(numbers)) => {
            Ok(shows_probes(gf2, numbers.as_slice(), set))
        }
        _ => Ok(false),
    }
}
