//! Disjoint spanning arborescences, one grown after the other.
ghost use Rattle.std.specs.Prelude.{◌≡◌, ◌<◌, ◌↔◌, true, length, IfOk};
ghost use Rattle.mat_sets.specs.Graphs.{ends_of};
ghost use Rattle.mat_branch.specs.Branches.{is_cut, HasNoArborescences, IsBranching};

use crate::growing::grow_tree;
use crate::spare::seldom_entered;
use mat_flow::Digraph;
use mat_sets::{ElemSet, SetList};
use std::alloc::{AllocError, Global};

/// Disjoint spanning arborescences, or why there are not so many.
#[derive(Debug, Drop)]
pub enum Branch {
    /// Spanning arborescences from the root that share no arc, by their arcs.
    All(SetList),
    /// A vertex set that is not empty, does not hold the root, and is entered by fewer arcs than there should be arborescences.
    Cut(ElemSet),
}

/// k spanning arborescences from the root that share no arc, or a non-empty vertex set without the root that fewer than k arcs enter
/// (Edmonds 1973, by the proof of Lovász 1976; Schrijver, chapter 53): the set comes exactly where there are no such arborescences. At
/// most k paths are sought to each vertex, and for each arborescence at most k to the head of each arc. The only error is want of memory.
pub fn disjoint(alloc: Global, graph: &Digraph, root: u32, k: u32) -> Result<Branch, AllocError>
    requires { root < graph.now.vertices }
    ensures right { IfOk result (IsBranching graph.now.vertices (length graph.now.arcs) (ends_of graph.now.arcs) root k) }
    ensures cut { IfOk result (λ found. (is_cut found ≡ true)
        ↔ HasNoArborescences graph.now.vertices (length graph.now.arcs) (ends_of graph.now.arcs) root k) }
{
    let mut live = ElemSet::all_below(alloc, graph.arcs().len() as u32)?;
    if let Some(cut) = seldom_entered(alloc, graph, &live, root, k)? {
        return Ok(Branch::Cut(cut));
    }
    let mut trees = Vec::new(alloc);
    let mut left = k;
    while left > 0 {
        left -= 1;
        trees.push(grow_tree(alloc, graph, &mut live, root, left)?)?;
    }
    Ok(Branch::All(SetList::new(trees)))
}
