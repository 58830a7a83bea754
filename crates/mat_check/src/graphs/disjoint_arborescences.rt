//! The clauses of disjoint spanning arborescences, and of a vertex set that shows that there are no more (Edmonds 1973; Schrijver, chapter 53).

ghost use Rattle.std.specs.Prelude.{◌≡◌, ◌<◌, ◌≤◌, ◌∷◌, [], length, IfOk};
ghost use Rattle.mat_sets.specs.{Limits.{most_elements, most_vertices}, Graphs.{ends_of, IsGraph}};
ghost use Rattle.mat_cert.specs.Certificates.{AreRangedTrees};
ghost use Rattle.mat_check.specs.{
  Clauses.{first_failure, numbered_clauses},
  TreeClauses.{arborescence_clause, disjoint_clauses, seldom_entered_clauses},
};

use crate::reason::{Failure, Reason};
use crate::sets::families::overlap_failure;
use mat_branch::{entering_count, spans};
use mat_flow::Digraph;
use mat_sets::{ElemSet, Pairs};
use std::alloc::{AllocError, Global};

// The first of these sets that is no spanning arborescence from the root.
fn spanning_failure(
    alloc: Global,
    graph: &Digraph,
    root: u32,
    trees: &[ElemSet],
) -> Result<Option<Failure>, AllocError>
    requires root { root < graph.now.vertices }
    requires ranged { AreRangedTrees (length graph.now.arcs) trees.now }
    ensures { IfOk result (λ found. found ≡ first_failure (numbered_clauses
        (λ i tree. arborescence_clause graph.now.vertices (ends_of graph.now.arcs) root i tree ∷ []) 0 trees.now)) }
{
    for i in 0..trees.len() {
        if !spans(alloc, graph, root, &trees[i])? {
            return Ok(Some(Reason::Tree.at(i as u32, 0)));
        }
    }
    Ok(None)
}

/// The first clause of disjoint spanning arborescences that fails: each arc in turn is in one of them at most, and each set is a spanning
/// arborescence from the root. A path is sought to each vertex in each set. The only error is want of memory.
pub(crate) fn disjoint_failure(
    alloc: Global,
    vertices: u32,
    arcs: &Pairs,
    root: u32,
    trees: &[ElemSet],
) -> Result<Option<Failure>, AllocError>
    requires graph { IsGraph vertices arcs.now }
    requires few { length arcs.now ≤ most_elements }
    requires few_vertices { vertices ≤ most_vertices }
    requires root { root < vertices }
    requires ranged { AreRangedTrees (length arcs.now) trees.now }
    ensures { IfOk result (λ found. found ≡ first_failure (disjoint_clauses vertices (length arcs.now) (ends_of arcs.now) root trees.now)) }
{
    if let Some(failure) = overlap_failure(arcs.len() as u32, trees) {
        return Ok(Some(failure));
    }
    let graph = Digraph::new(alloc, vertices, arcs.copy(alloc)?)?;
    spanning_failure(alloc, &graph, root, trees)
}

/// The first clause of a vertex set that is entered too seldom that fails: it is not empty, it does not hold the root, and fewer than k arcs
/// enter it.
pub(crate) fn seldom_entered_failure(
    arcs: &Pairs,
    root: u32,
    k: u32,
    set: &ElemSet,
) -> Option<Failure>
    ensures { result ≡ first_failure (seldom_entered_clauses (length arcs.now) (ends_of arcs.now) root k set.now) }
{
    if set.is_empty() {
        return Some(Reason::Empty.at(0, 0));
    }
    if set.contains(root) {
        return Some(Reason::Root.at(0, 0));
    }
    if entering_count(arcs, set) >= k as usize {
        return Some(Reason::Crossing.at(0, 0));
    }
    None
}
