//! Whether colours show that there is no rainbow spanning tree.

ghost use Rattle.std.specs.Prelude.{◌≡◌, ◌≤◌, length, slice_index, IfOk};
ghost use Rattle.mat_sets.specs.{Limits.{most_elements}, Graphs.{IsGraph, ends_of}, Sets.{AllBelow}};
ghost use Rattle.mat_graphic.specs.Forests.{number_of_components};
ghost use Rattle.mat_check.specs.{Clauses.{first_failure}, TreeClauses.{colours_clauses}};

use crate::reason::{Failure, Reason};
use mat_fronts::edges_without;
use mat_graphic::{Graphic, least_vertices};
use mat_sets::{ElemSet, Pairs};
use std::alloc::{AllocError, Global};

// How many components these edges make of the vertices: as many as vertices that are the least of theirs.
fn component_count(
    alloc: Global,
    vertices: u32,
    edges: &Pairs,
    set: &ElemSet,
) -> Result<usize, AllocError>
    requires graph { IsGraph vertices edges.now }
    requires below { AllBelow (length edges.now) set.now }
    ensures { IfOk result (λ count. count ≡ number_of_components vertices (ends_of edges.now) set.now) }
{
    set.rises();
    let graphic = Graphic::new(alloc, vertices, edges.copy(alloc)?)?;
    let least = graphic.components(alloc, set)?;
    let roots = least_vertices(alloc, &least)?;
    Ok(roots.len())
}

/// The clause of missing colours, where it fails: without the edges of these colours the number of components is at most the number of these
/// colours plus one (Schrijver, chapter 41). The time is nearly linear in the number of vertices and of edges. The only error is want of
/// memory.
pub(crate) fn colours_failure(
    alloc: Global,
    vertices: u32,
    edges: &Pairs,
    colour_of: &[u32],
    missing: &Option<ElemSet>,
) -> Result<Option<Failure>, AllocError>
    requires graph { IsGraph vertices edges.now }
    requires long { length colour_of.now ≡ length edges.now }
    requires few { length edges.now ≤ most_elements }
    ensures { IfOk result (λ found. found ≡ first_failure (colours_clauses vertices (length edges.now) (ends_of edges.now)
        (slice_index colour_of.now) missing.now)) }
{
    if let Some(colours) = missing {
        let rest = edges_without(alloc, colour_of, colours)?;
        let components = component_count(alloc, vertices, edges, &rest)?;
        if components.saturating_sub(1) <= colours.len() {
            return Ok(Some(Reason::Colours.at(0, 0)));
        }
    }
    Ok(None)
}
