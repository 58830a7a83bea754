//! Groups of vertices that the edges of some colours join.

ghost use Rattle.std.specs.Prelude.{◌≡◌, ◌<◌, ◌^◌, not, length, slice_index, All, IfOk};
ghost use Rattle.mat_sets.specs.{Graphs.{IsGraph, ends_of}, Search.{those_below}, Sets.{is_member, AllBelow}};
ghost use Rattle.mat_graphic.specs.Forests.{components_of};

use mat_fronts::edges_without;
use mat_graphic::{Graphic, component_sets};
use mat_sets::ElemSet;
use std::alloc::{AllocError, Global};

/// The groups of vertices that are joined by edges of other colours than these, in the order of their least vertices. The only error is want
/// of memory.
pub fn left_groups(
    alloc: Global,
    graph: &Graphic,
    colour_of: &[u32],
    colours: &ElemSet,
) -> Result<Vec<ElemSet>, AllocError>
    requires graph { IsGraph graph.now.vertices graph.now.edges }
    requires few_vertices { graph.now.vertices < 2 ^ 32 }
    requires few { length colour_of.now < 2 ^ 32 }
    requires long { length colour_of.now ≡ length graph.now.edges }

    // Each group is a set of vertices.
    ensures below { IfOk result (λ groups. All (AllBelow graph.now.vertices) groups.items) }

    // The groups are the components that the edges of other colours make of the vertices.
    ensures components { IfOk result (λ groups. groups.items ≡ components_of graph.now.vertices (ends_of graph.now.edges)
        (those_below (length colour_of.now) (λ e. not (is_member (slice_index colour_of.now e) colours.now)))) }
{
    let rest = edges_without(alloc, colour_of, colours)?;
    let least = graph.components(alloc, &rest)?;
    let groups = component_sets(alloc, &least)?;
    Ok(groups)
}
