//! The clauses of disjoint spanning trees, and of a partition of the vertices that shows that there are no more (Schrijver, chapter 51).

ghost use Rattle.std.specs.Prelude.{◌≡◌, ◌<◌, ◌≤◌, ◌&&◌, ◌∷◌, [], length, slice_index_or, IfOk};
ghost use Rattle.mat_sets.specs.{
  Limits.{most_elements, most_vertices, most_trees},
  Graphs.{ends_of, IsGraph},
  Search.{some_below},
  Sets.{is_member, AllBelow},
};
ghost use Rattle.mat_packing.specs.Trees.{crossing, is_spanning_tree};
ghost use Rattle.mat_cert.specs.Certificates.{AreRangedSets, AreRangedTrees};
ghost use Rattle.mat_check.specs.{
  Clauses.{first_failure, numbered_clauses},
  TreeClauses.{partition_clauses, some_clause, tree_clause, trees_clauses},
};

use crate::reason::{Failure, Reason};
use crate::sets::families::{missed_failure, overlap_failure};
use mat_graphic::Graphic;
use mat_laws::Matroid;
use mat_sets::{ElemSet, Pairs};
use std::alloc::{AllocError, Global};

// Whether these edges are a spanning tree: a forest of one edge fewer than there are vertices.
fn is_tree(alloc: Global, graph: &Graphic, tree: &ElemSet) -> Result<bool, AllocError>
    requires sound { IsGraph graph.now.vertices graph.now.edges }
    requires some { 1 ≤ graph.now.vertices }
    requires below { AllBelow (length graph.now.edges) tree.now }
    ensures { IfOk result (λ told. told
        ≡ is_spanning_tree graph.now.vertices (length graph.now.edges) (ends_of graph.now.edges) tree.now) }
{
    if tree.len() != (graph.vertices() - 1) as usize {
        return Ok(false);
    }
    graph.independent(alloc, tree)
}

// The first of these sets that is no spanning tree.
fn tree_failure(
    alloc: Global,
    graph: &Graphic,
    trees: &[ElemSet],
) -> Result<Option<Failure>, AllocError>
    requires sound { IsGraph graph.now.vertices graph.now.edges }
    requires some { 1 ≤ graph.now.vertices }
    requires ranged { AreRangedTrees (length graph.now.edges) trees.now }
    ensures { IfOk result (λ found. found ≡ first_failure (numbered_clauses
        (λ i tree. tree_clause graph.now.vertices (length graph.now.edges) (ends_of graph.now.edges) i tree ∷ []) 0 trees.now)) }
{
    for i in 0..trees.len() {
        if !is_tree(alloc, graph, &trees[i])? {
            return Ok(Some(Reason::Tree.at(i as u32, 0)));
        }
    }
    Ok(None)
}

/// The first clause of disjoint spanning trees that fails: each edge in turn is in one tree at most, and each set is a spanning tree, which
/// its size and one question of independence tell. The only error is want of memory.
pub(crate) fn trees_failure(
    alloc: Global,
    vertices: u32,
    edges: &Pairs,
    trees: &[ElemSet],
) -> Result<Option<Failure>, AllocError>
    requires graph { IsGraph vertices edges.now }
    requires few { length edges.now ≤ most_elements }
    requires some_vertices { 1 ≤ vertices }
    requires few_vertices { vertices ≤ most_vertices }
    requires ranged { AreRangedTrees (length edges.now) trees.now }
    ensures { IfOk result (λ found. found ≡ first_failure (trees_clauses vertices (length edges.now) (ends_of edges.now) trees.now)) }
{
    if let Some(failure) = overlap_failure(edges.len() as u32, trees) {
        return Ok(Some(failure));
    }
    let graph = Graphic::new(alloc, vertices, edges.copy(alloc)?)?;
    tree_failure(alloc, &graph, trees)
}

// The first of these classes that is empty.
fn empty_failure(classes: &[ElemSet]) -> Option<Failure>
    requires few { length classes.now ≤ most_elements }
    ensures { result ≡ first_failure (numbered_clauses (λ i class. some_clause i class ∷ []) 0 classes.now) }
{
    for i in 0..classes.len() {
        if classes[i].is_empty() {
            return Some(Reason::Empty.at(i as u32, 0));
        }
    }
    None
}

// Whether both vertices are in the class.
fn holds_both(class: &ElemSet, first: u32, second: u32) -> bool
    ensures { result ≡ (is_member first class.now && is_member second class.now) }
{
    class.contains(first) && class.contains(second)
}

// Whether both vertices are in one class.
fn is_inside(classes: &[ElemSet], first: u32, second: u32) -> bool
    ensures { result ≡ some_below (length classes.now)
        (λ q. is_member first (slice_index_or classes.now q []) && is_member second (slice_index_or classes.now q [])) }
{
    for q in 0..classes.len() {
        if holds_both(&classes[q], first, second) {
            return true;
        }
    }
    false
}

// How many edges have their ends in different classes.
fn crossing_count(edges: &Pairs, classes: &[ElemSet]) -> usize
    requires { length edges.now ≤ most_elements }
    ensures { result ≡ length (crossing (length edges.now) (ends_of edges.now) classes.now) }
{
    let mut count = 0;
    for e in 0..edges.len() {
        let (first, second) = edges.get(e);
        if !is_inside(classes, first, second) {
            count += 1;
        }
    }
    count
}

/// The first clause of a partition of the vertices that fails: each vertex in turn is in one class at most, no class is empty, each vertex in
/// turn is in a class, and fewer edges have their ends in different classes than k disjoint spanning trees have. Each edge is looked for in
/// each class.
pub(crate) fn partition_failure(
    vertices: u32,
    edges: &Pairs,
    k: u32,
    classes: &[ElemSet],
) -> Option<Failure>
    requires few { length edges.now ≤ most_elements }
    requires some_vertices { 1 ≤ vertices }
    requires few_vertices { vertices ≤ most_vertices }
    requires some_trees { 1 ≤ k }
    requires few_trees { k ≤ most_trees }
    requires ranged { AreRangedSets vertices 1 vertices classes.now }
    ensures { result ≡ first_failure (partition_clauses vertices (length edges.now) (ends_of edges.now) k classes.now) }
{
    if let Some(failure) = overlap_failure(vertices, classes) {
        return Some(failure);
    }
    if let Some(failure) = empty_failure(classes) {
        return Some(failure);
    }
    if let Some(failure) = missed_failure(vertices, classes) {
        return Some(failure);
    }
    if crossing_count(edges, classes) >= k as usize * (classes.len() - 1) {
        return Some(Reason::Crossing.at(0, 0));
    }
    None
}
