//! Disjoint paths to the vertices of a set, in gammoids.

ghost use Rattle.std.specs.{
  Prelude.{◌≡◌, ◌<◌, ◌&&◌, ℕ, List, [], true, length, map, slice_index, slice_index_or, All, IfOk},
  List.{concat, list_all},
};
ghost use Rattle.mat_sets.specs.{Sets.{is_member, AllBelow, AreDistinct, IsSet}, SetTests.{are_distinct}};
ghost use Rattle.mat_flow.specs.Paths.{first_of, last_of};
ghost use Rattle.mat_linked.specs.Gammoids.{IsGammoid, is_gammoid, is_path, vertices_of};
ghost use Rattle.mat_any.specs.Trees.{gammoid};
ghost use Rattle.mat_witness.specs.{FreeParts.{shows_free, shows_paths}, GammoidSteps.{path_to, AreArcRows}, Parts.{IsFreeFor, paths}};

use super::arcs::arc_rows;
use mat_flow::{Digraph, Walk, linked};
use mat_linked::Gammoid;
use mat_sets::{BitRows, BitSet, ElemSet};
use std::alloc::{AllocError, Global};

/// The vertices of these elements, in their order. The only error is want of memory.
pub(crate) fn element_vertices(
    alloc: Global,
    targets: &[u32],
    elements: &[u32],
) -> Result<Vec<u32>, AllocError>
    requires { AllBelow (length targets.now) elements.now }
    ensures { IfOk result (λ vertices. vertices.items ≡ vertices_of targets.now elements.now) }
{
    let mut vertices = Vec::with_capacity(alloc, elements.len())?;
    for e in elements {
        vertices.push(targets[*e as usize])?;
    }
    Ok(vertices)
}

// Whether each vertex of a list but the first is in the row of the one before it.
fn is_along(rows: &BitRows, path: &[u32]) -> bool
    requires some { 0 < length path.now }
    requires below { AllBelow (length rows.now) path.now }
    ensures { (arcs : List (ℕ × ℕ)) → AreArcRows (length rows.now) arcs rows.now → result ≡ is_path arcs path.now }
{
    for i in 1..path.len() {
        if !rows.row(path[i - 1]).contains(path[i]) {
            return false;
        }
    }
    true
}

// Whether these are paths from sources.
fn are_from_sources(rows: &BitRows, sources: &BitSet, lists: &[Walk]) -> bool
    requires { All (λ path. (0 < length path) × AllBelow (length rows.now) path) lists.now }
    ensures { (arcs : List (ℕ × ℕ)) → AreArcRows (length rows.now) arcs rows.now
        → result ≡ list_all (λ path. is_path arcs path && is_member (first_of path) sources.now) lists.now }
{
    for path in lists {
        if !is_along(rows, path.as_slice()) || !sources.contains(path.get(0)) {
            return false;
        }
    }
    true
}

// The last vertex of each path.
fn last_vertices(alloc: Global, lists: &[Walk]) -> Result<Vec<u32>, AllocError>
    requires { All (λ path. 0 < length path) lists.now }
    ensures { IfOk result (λ ends. ends.items ≡ map last_of lists.now) }
{
    let mut ends = Vec::with_capacity(alloc, lists.len())?;
    for path in lists {
        ends.push(path.get(path.len() - 1))?;
    }
    Ok(ends)
}

// The vertices of all paths, one path after the other.
fn all_vertices(alloc: Global, lists: &[Walk]) -> Result<Vec<u32>, AllocError>
    ensures { IfOk result (λ vertices. vertices.items ≡ concat lists.now) }
{
    let mut vertices = Vec::new(alloc);
    for path in lists {
        vertices.extend_from_slice(path.as_slice())?;
    }
    Ok(vertices)
}

// Whether no item stands twice.
fn are_different(alloc: Global, items: &[u32]) -> Result<bool, AllocError>
    ensures { IfOk result (λ different. different ≡ are_distinct items.now) }
{
    let mut seen = BitSet::new(alloc);
    for x in items {
        if seen.contains(*x) {
            return Ok(false);
        }
        seen.insert(*x)?;
    }
    Ok(true)
}

// At the last vertex of each path the place of that path.
fn places_of_ends(alloc: Global, size: u32, ends: &[u32]) -> Result<Vec<usize>, AllocError>
    requires below { AllBelow size ends.now }
    requires distinct { AreDistinct ends.now }
    ensures long { IfOk result (λ places. length places.items ≡ size) }
    ensures places { IfOk result (λ places. (i : ℕ) → i < length ends.now → slice_index places.items (slice_index ends.now i) ≡ i) }
{
    let mut places = vec![in alloc; 0usize; size as usize]?;
    for i in 0..ends.len() {
        places[ends[i] as usize] = i;
    }
    Ok(places)
}

// An equal path to the one at this place.
fn copied(alloc: Global, paths: &[Walk], place: usize) -> Result<Walk, AllocError>
    requires { place < length paths.now }
    ensures { IfOk result (λ path. path ≡ slice_index_or paths.now place []) }
{
    let vertices = Vec::from_slice(alloc, paths[place].as_slice())?;
    Ok(Walk::new(vertices))
}

// The paths to these vertices, in the order of the vertices.
fn in_order(
    alloc: Global,
    size: u32,
    paths: &[Walk],
    vertices: &[u32],
) -> Result<Vec<Walk>, AllocError>
    requires some { All (λ path. 0 < length path) paths.now }
    requires below { AllBelow size (map last_of paths.now) }
    requires distinct { AreDistinct (map last_of paths.now) }
    requires ends { (v : ℕ) → is_member v vertices.now ≡ true → is_member v (map last_of paths.now) ≡ true }
    ensures { IfOk result (λ lists. lists.items ≡ map (path_to paths.now) vertices.now) }
{
    let ends = last_vertices(alloc, paths)?;
    let places = places_of_ends(alloc, size, &ends)?;
    let mut lists = Vec::with_capacity(alloc, vertices.len())?;
    for v in vertices {
        lists.push(copied(alloc, paths, places[*v as usize])?)?;
    }
    Ok(lists)
}

// Disjoint paths to the vertices of an independent set, in their order.
fn linking_paths(
    alloc: Global,
    graph: &Digraph,
    sources: &ElemSet,
    targets: &[u32],
    set: &ElemSet,
) -> Result<Vec<Walk>, AllocError>
    requires sound { IsGammoid graph.now.vertices graph.now.arcs sources.now targets.now }
    requires set { is_gammoid graph.now.vertices graph.now.arcs sources.now targets.now set.now ≡ true }
    ensures part { IfOk result (λ lists. (length lists.items ≡ length set.now)
        × All (λ path. (0 < length path) × AllBelow graph.now.vertices path) lists.items) }
    ensures shows { IfOk result (λ lists. shows_paths graph.now.arcs sources.now targets.now lists.items set.now ≡ true) }
{
    let vertices = element_vertices(alloc, targets, set.as_slice())?;
    let ends = ElemSet::from_members(alloc, &vertices)?;
    let linking = linked(alloc, graph, sources, &ends)?;
    in_order(alloc, graph.vertices(), &linking.paths, &vertices)
}

/// Whether these are paths from sources, the i-th to the vertex of the i-th member of the set, and no vertex stands twice in all of them.
/// The only error is want of memory.
pub(crate) fn shows_paths(
    alloc: Global,
    matroid: &Gammoid,
    lists: &[Walk],
    set: &ElemSet,
) -> Result<bool, AllocError>
    requires sound { IsGammoid matroid.now.vertices matroid.now.arcs matroid.now.sources matroid.now.targets }
    requires set { IsSet (length matroid.now.targets) set.now }
    requires lists { All (λ path. (0 < length path) × AllBelow matroid.now.vertices path) lists.now }
    ensures { IfOk result (λ shown. shown ≡ shows_paths matroid.now.arcs matroid.now.sources matroid.now.targets lists.now set.now) }
{
    let graph = matroid.graph();
    let rows = arc_rows(alloc, graph.vertices(), graph.arcs().as_slice())?;
    let sources = matroid.sources().to_bits(alloc)?;
    let ends = last_vertices(alloc, lists)?;
    let vertices = element_vertices(alloc, matroid.targets(), set.as_slice())?;
    if !are_from_sources(&rows, &sources, lists) {
        return Ok(false);
    }
    if ends != vertices {
        return Ok(false);
    }
    are_different(alloc, &all_vertices(alloc, lists)?)
}

/// Disjoint paths to the vertices of an independent set, one to each and in their order. The only error is want of memory.
pub(crate) fn paths_to(
    alloc: Global,
    matroid: &Gammoid,
    set: &ElemSet,
) -> Result<Vec<Walk>, AllocError>
    requires sound { IsGammoid matroid.now.vertices matroid.now.arcs matroid.now.sources matroid.now.targets }
    requires set { is_gammoid matroid.now.vertices matroid.now.arcs matroid.now.sources matroid.now.targets set.now ≡ true }
    ensures part { IfOk result (λ lists. IsFreeFor (length matroid.now.targets) (length set.now)
        (gammoid matroid.now.vertices matroid.now.arcs matroid.now.sources matroid.now.targets) (paths lists.items)) }
    ensures shows { IfOk result (λ lists. shows_free
        (gammoid matroid.now.vertices matroid.now.arcs matroid.now.sources matroid.now.targets) (paths lists.items) set.now ≡ true) }
{
    let targets = matroid.targets();
    linking_paths(alloc, matroid.graph(), matroid.sources(), targets, set)
}
