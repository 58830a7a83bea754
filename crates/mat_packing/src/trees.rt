//! Disjoint spanning trees of a graph.
ghost use Rattle.std.specs.Prelude.{◌≡◌, ◌≤◌, ◌↔◌, true, length, IfOk};
ghost use Rattle.mat_sets.specs.{Limits.{most_vertices, most_elements, most_trees}, Graphs.{IsGraph}};
ghost use Rattle.mat_packing.specs.Answers.{is_partition, HasNoTrees, IsRightTreesAnswer};

use crate::filling::{are_full, fill_copies};
use mat_graphic::{Graphic, component_sets};
use mat_sets::{Pairs, SetList};
use std::alloc::{AllocError, Global};

/// Disjoint spanning trees of a graph, or a partition of its vertices that does not allow so many of them.
#[derive(Debug, Drop)]
pub enum Trees {
    /// The trees, by their edges.
    Trees(SetList),
    /// The classes of the partition: fewer edges run between them than so many spanning trees need.
    Partition(SetList),
}

/// So many disjoint spanning trees, or a partition of the vertices with fewer edges between its classes than these need (Tutte;
/// Nash-Williams; Schrijver, chapter 51): the partition comes exactly where there are not so many of them. So many copies of the graphic
/// matroid are filled; where they don't become spanning trees, the classes are the components of the cut. The only error is want of memory.
pub fn pack_trees(alloc: Global, vertices: u32, edges: &Pairs, k: u32) -> Result<Trees, AllocError>
    requires graph { IsGraph vertices edges.now }
    requires some_vertex { 1 ≤ vertices }
    requires few_vertices { vertices ≤ most_vertices }
    requires few_edges { length edges.now ≤ most_elements }
    requires some_tree { 1 ≤ k }
    requires few_trees { k ≤ most_trees }
    ensures right { IfOk result (IsRightTreesAnswer vertices edges.now k) }
    ensures partition { IfOk result (λ found. (is_partition found ≡ true) ↔ HasNoTrees vertices edges.now k) }
{
    let graph = Graphic::new(alloc, vertices, edges.copy(alloc)?)?;
    let filled = fill_copies(alloc, &graph, k)?;
    if are_full(&filled.parts, vertices - 1) {
        return Ok(Trees::Trees(filled.parts));
    }
    let least = graph.components(alloc, &filled.cut)?;
    let classes = SetList::new(component_sets(alloc, &least)?);
    Ok(Trees::Partition(classes))
}
