//! Whether arcs are a spanning arborescence.
ghost use Rattle.std.specs.Prelude.{◌≡◌, ◌<◌, length, IfOk};
ghost use Rattle.mat_sets.specs.{Graphs.{ends_of}, Sets.{AllBelow}};
ghost use Rattle.mat_branch.specs.Spanning.{is_spanning_arborescence};

use crate::spare::seldom_entered;
use mat_flow::Digraph;
use mat_sets::ElemSet;
use std::alloc::{AllocError, Global};

/// Whether these arcs are a spanning arborescence from the root: one fewer than there are vertices, along which the root reaches each
/// vertex (Schrijver, chapter 52). A path is sought to each vertex. The only error is want of memory.
pub fn spans(alloc: Global, graph: &Digraph, root: u32, tree: &ElemSet) -> Result<bool, AllocError>
    requires root { root < graph.now.vertices }
    requires tree { AllBelow (length graph.now.arcs) tree.now }
    ensures { IfOk result (λ told. told ≡ is_spanning_arborescence graph.now.vertices (ends_of graph.now.arcs) root tree.now) }
{
    if tree.len() != (graph.vertices() - 1) as usize {
        return Ok(false);
    }
    match seldom_entered(alloc, graph, tree, root, 1)? {
        Some(_) => Ok(false),
        None => Ok(true),
    }
}
