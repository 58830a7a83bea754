//! Rooted forests, by breadth-first search, which asks each found vertex once for its edges, and the trails between their vertices.
ghost use Rattle.std.specs.Prelude.{◌≡◌, ◌≢◌, ◌+◌, ◌<◌, ◌≤◌, ◌==◌, ◌||◌, ℕ, List, [], length, slice_index, true, IfOk, IfSome, OnOk, MatchOption};
ghost use Rattle.mat_sets.specs.{Graphs.{IsGraph, ends_of}, Sets.{AllBelow, IsRising, is_member, with_one}};
ghost use Rattle.mat_graphic.specs.{
  Mergings.{least_merged},
  RootedForests.{IsRootedForest},
  TrailSearches.{AreEnds, AreJoined, ArePlaces, IsClimbing, IsExploring, IsFindable, IsFront, IsOrder, IsTrailEntered, IsTrailSet, IsTree},
};

use mat_sets::{BitRows, BitSet, ElemSet};
use std::alloc::{AllocError, Global};

// Where each vertex stands first in a list, and for each place the next one with the same vertex.
#[derive(Debug, Drop)]
struct Places {
    first: Vec<Option<usize>>,
    next: Vec<Option<usize>>,
}

// The places of each vertex in a list.
fn places_of(alloc: Global, vertices: u32, list: &[u32]) -> Result<Places, AllocError>
    requires { AllBelow vertices list.now }
    ensures long { IfOk result (λ p. length p.first.items ≡ vertices) }
    ensures places { IfOk result (λ p. ArePlaces list.now 0 p.first.items p.next.items) }
{
    let mut first = vec![in alloc; None; vertices as usize]?;
    let mut next = vec![in alloc; None; list.len()]?;
    for i in (0..list.len()).rev() {
        let v = list[i] as usize;
        next[i] = first[v];
        first[v] = Some(i);
    }
    Ok(Places { first, next })
}

// The ends of the members of a set.
#[derive(Debug, Drop)]
struct Ends {
    firsts: Vec<u32>,
    seconds: Vec<u32>,
}

// The ends of the members of a set, by their places in it.
fn ends_in(alloc: Global, edges: &[(u32, u32)], set: &[u32]) -> Result<Ends, AllocError>
    requires { AllBelow (length edges.now) set.now }
    ensures { IfOk result (λ e. AreEnds (ends_of edges.now) set.now e.firsts.items e.seconds.items) }
{
    let mut firsts = Vec::with_capacity(alloc, set.len())?;
    let mut seconds = Vec::with_capacity(alloc, set.len())?;
    for e in set {
        let (first, second) = edges[*e as usize];
        firsts.push(first)?;
        seconds.push(second)?;
    }
    Ok(Ends { firsts, seconds })
}

/// A forest of a graph in which each tree has a root: all vertices in an order in which the vertices of each tree follow its
/// root, the nearer ones first; the place of each vertex in this order; and for each place the edge that leads from its
/// vertex towards the root, and the place of the vertex at the other end of this edge. A root has its own place there, and
/// 0 for the edge, which says nothing.
#[derive(Debug, Drop)]
pub struct RootedForest {
    pub(crate) place: Vec<Option<usize>>,
    pub(crate) order: Vec<u32>,
    pub(crate) through: Vec<u32>,
    pub(crate) before: Vec<usize>,
}

/// The search that has found no vertex, with room for all.
pub(crate) fn begin(alloc: Global, vertices: u32) -> Result<RootedForest, AllocError>
    ensures long { IfOk result (λ f. length f.place.items ≡ vertices) }
    ensures empty { IfOk result (λ f. f.order.items ≡ []) }
    ensures exploring { IfOk result (λ f. (firsts seconds set : List ℕ)
        → IsExploring firsts seconds set vertices (length f.order.items) f.place.items f.order.items f.through.items f.before.items) }
{
    let place = vec![in alloc; None; vertices as usize]?;
    let order = Vec::with_capacity(alloc, vertices as usize)?;
    let through = Vec::with_capacity(alloc, vertices as usize)?;
    let before = Vec::with_capacity(alloc, vertices as usize)?;
    Ok(RootedForest {
        place,
        order,
        through,
        before,
    })
}

/// Finds a vertex from the one at this place, through an edge, if it was not found before; from the place after the last
/// one it is found as a root.
pub(crate) fn visit(
    forest: &mut RootedForest,
    vertex: u32,
    edge: u32,
    at: usize,
) -> Result<(), AllocError>
    requires order { IsOrder forest.old.place.items forest.old.order.items forest.old.through.items forest.old.before.items }
    requires below { vertex < length forest.old.place.items }
    requires inside { at ≤ length forest.old.order.items }
    ensures long { OnOk result (length forest.new.place.items ≡ length forest.old.place.items) }
    ensures order { OnOk result (IsOrder forest.new.place.items forest.new.order.items forest.new.through.items forest.new.before.items) }
    ensures found { OnOk result (is_member vertex forest.new.order.items ≡ true) }
    ensures only { OnOk result ((v : ℕ) → is_member v forest.new.order.items ≡ true → (v == vertex || is_member v forest.old.order.items) ≡ true) }
    ensures front { OnOk result (IsFront forest.old.order.items forest.new.order.items) }
    ensures tree { OnOk result ((ends : ℕ → ℕ × ℕ) (X : List ℕ) → IsFindable ends X forest.old.order.items vertex edge at
        → IsTree ends X forest.old.order.items forest.old.through.items forest.old.before.items
        → IsTree ends X forest.new.order.items forest.new.through.items forest.new.before.items) }
{
    if forest.place[vertex as usize].is_some() {
        return Ok(());
    }
    forest.place[vertex as usize] = Some(forest.order.len());
    forest.order.push(vertex)?;
    forest.through.push(edge)?;
    forest.before.push(at)?;
    Ok(())
}

// Finds the other ends of the edges that have the vertex at this place as their end in `tails`.
fn scan(
    forest: &mut RootedForest,
    places: &Places,
    tails: &[u32],
    heads: &[u32],
    set: &[u32],
    at: usize,
) -> Result<(), AllocError>
    requires order { IsOrder forest.old.place.items forest.old.order.items forest.old.through.items forest.old.before.items }
    requires places { ArePlaces tails.now 0 places.now.first.items places.now.next.items }
    requires vertices { length places.now.first.items ≡ length forest.old.place.items }
    requires below { AllBelow (length forest.old.place.items) heads.now }
    requires heads { length heads.now ≡ length tails.now }
    requires set { length set.now ≡ length tails.now }
    requires inside { at < length forest.old.order.items }
    ensures long { OnOk result (length forest.new.place.items ≡ length forest.old.place.items) }
    ensures order { OnOk result (IsOrder forest.new.place.items forest.new.order.items forest.new.through.items forest.new.before.items) }
    ensures found { OnOk result ((i : ℕ) → i < length tails.now → slice_index tails.now i ≡ slice_index forest.old.order.items at
        → is_member (slice_index heads.now i) forest.new.order.items ≡ true) }
    ensures front { OnOk result (IsFront forest.old.order.items forest.new.order.items) }
    ensures tree { OnOk result ((ends : ℕ → ℕ × ℕ) (X : List ℕ) → AreJoined ends X tails.now heads.now set.now
        → IsTree ends X forest.old.order.items forest.old.through.items forest.old.before.items
        → IsTree ends X forest.new.order.items forest.new.through.items forest.new.before.items) }
{
    let vertex = forest.order[at];
    let mut next = places.first[vertex as usize];
    while let Some(i) = next {
        visit(forest, heads[i], set[i], at)?;
        next = places.next[i];
    }
    Ok(())
}

// Finds the component of a vertex, with the vertex as its root, if it was not found before.
fn explore(
    forest: &mut RootedForest,
    by_first: &Places,
    by_second: &Places,
    firsts: &[u32],
    seconds: &[u32],
    set: &[u32],
    vertex: u32,
) -> Result<(), AllocError>
    requires firsts { AllBelow (length forest.old.place.items) firsts.now }
    requires seconds { AllBelow (length forest.old.place.items) seconds.now }
    requires firsts_long { length firsts.now ≡ length set.now }
    requires seconds_long { length seconds.now ≡ length set.now }
    requires by_first { ArePlaces firsts.now 0 by_first.now.first.items by_first.now.next.items }
    requires by_second { ArePlaces seconds.now 0 by_second.now.first.items by_second.now.next.items }
    requires by_first_long { length by_first.now.first.items ≡ length forest.old.place.items }
    requires by_second_long { length by_second.now.first.items ≡ length forest.old.place.items }
    requires vertex { vertex < length forest.old.place.items }
    requires exploring { IsExploring firsts.now seconds.now set.now (length forest.old.place.items) (length forest.old.order.items)
        forest.old.place.items forest.old.order.items forest.old.through.items forest.old.before.items }
    ensures long { OnOk result (length forest.new.place.items ≡ length forest.old.place.items) }
    ensures exploring { OnOk result (IsExploring firsts.now seconds.now set.now (length forest.new.place.items) (length forest.new.order.items)
        forest.new.place.items forest.new.order.items forest.new.through.items forest.new.before.items) }
    ensures found { OnOk result (is_member vertex forest.new.order.items ≡ true) }
    ensures front { OnOk result (IsFront forest.old.order.items forest.new.order.items) }
{
    let mut at = forest.order.len();
    visit(forest, vertex, 0, at)?;
    while at < forest.order.len() {
        scan(forest, by_first, firsts, seconds, set, at)?;
        scan(forest, by_second, seconds, firsts, set, at)?;
        at += 1;
    }
    Ok(())
}

// Finds all vertices, component after component.
fn explore_all(
    alloc: Global,
    vertices: u32,
    firsts: &[u32],
    seconds: &[u32],
    set: &[u32],
) -> Result<RootedForest, AllocError>
    requires firsts { AllBelow vertices firsts.now }
    requires seconds { AllBelow vertices seconds.now }
    requires firsts_long { length firsts.now ≡ length set.now }
    requires seconds_long { length seconds.now ≡ length set.now }
    ensures { IfOk result (λ f. (ends : ℕ → ℕ × ℕ) → IsRising set.now → AreEnds ends set.now firsts.now seconds.now
        → IsRootedForest vertices ends set.now f) }
{
    let by_first = places_of(alloc, vertices, firsts)?;
    let by_second = places_of(alloc, vertices, seconds)?;
    let mut forest = begin(alloc, vertices)?;
    for v in 0..vertices {
        explore(&mut forest, &by_first, &by_second, firsts, seconds, set, v)?;
    }
    Ok(forest)
}

/// Roots the trees that the members of a set make of the vertices. The time is linear in the numbers of vertices and of
/// members. The only error is want of memory.
pub(crate) fn root_trees(
    alloc: Global,
    vertices: u32,
    edges: &[(u32, u32)],
    set: &ElemSet,
) -> Result<RootedForest, AllocError>
    requires graph { IsGraph vertices edges.now }
    requires below { AllBelow (length edges.now) set.now }
    ensures { IfOk result (λ f. IsRootedForest vertices (ends_of edges.now) set.now f) }
{
    let members = set.as_slice();
    let ends = ends_in(alloc, edges, members)?;
    explore_all(alloc, vertices, &ends.firsts, &ends.seconds, members)
}

// A step of climbing from two places: the edge that leads towards the root from the later one, and the two places after it.
#[derive(Drop)]
struct Step {
    edge: u32,
    first: usize,
    second: usize,
}

// The step from the later of two places; None where this is a root, and so the vertices from which the climbing came are in
// different trees.
fn step_up(forest: &RootedForest, first: usize, second: usize) -> Option<Step>
    requires order { IsOrder forest.now.place.items forest.now.order.items forest.now.through.items forest.now.before.items }
    requires first { first < length forest.now.order.items }
    requires second { second < length forest.now.order.items }
    requires apart { first ≢ second }
    ensures inside { IfSome result (λ s. (s.first < length forest.now.order.items) × (s.second < length forest.now.order.items)) }
    ensures lower { IfSome result (λ s. s.first + s.second < first + second) }
    ensures climbing { (ends : ℕ → ℕ × ℕ) (X : List ℕ) (from to : ℕ) (edges : List ℕ)
        → IsTree ends X forest.now.order.items forest.now.through.items forest.now.before.items
        → IsClimbing ends X forest.now.order.items from to first second edges
        → MatchOption result (least_merged ends X (slice_index forest.now.order.items from)
        ≢ least_merged ends X (slice_index forest.now.order.items to))
        (λ s. IsClimbing ends X forest.now.order.items from to s.first s.second (with_one edges s.edge)) }
{
    let high = first.max(second);
    let before = forest.before[high];
    if before == high {
        return None;
    }
    let edge = forest.through[high];
    if first == high {
        Some(Step {
            edge,
            first: before,
            second,
        })
    } else {
        Some(Step {
            edge,
            first,
            second: before,
        })
    }
}

// The edges of the trail between the vertices at two places, by climbing from the later place until both meet; None where
// this leads to a root, and so they are in different trees. The edges come in no order, so they are collected as bits, with
// room for this many edges of the graph.
fn climb(
    alloc: Global,
    forest: &RootedForest,
    edge_count: u32,
    from: usize,
    to: usize,
) -> Result<Option<ElemSet>, AllocError>
    requires order { IsOrder forest.now.place.items forest.now.order.items forest.now.through.items forest.now.before.items }
    requires from { from < length forest.now.order.items }
    requires to { to < length forest.now.order.items }
    ensures trail { IfOk result (λ found. (ends : ℕ → ℕ × ℕ) (X : List ℕ)
        → IsTree ends X forest.now.order.items forest.now.through.items forest.now.before.items
        → MatchOption found (least_merged ends X (slice_index forest.now.order.items from)
        ≢ least_merged ends X (slice_index forest.now.order.items to))
        (λ s. IsTrailSet ends X (slice_index forest.now.order.items from) (slice_index forest.now.order.items to) s)) }
    ensures rises { IfOk result (λ found. MatchOption found (Unit {0}) (λ s. IsRising s)) }
{
    let mut with = BitSet::with_capacity(alloc, edge_count)?;
    let mut first = from;
    let mut second = to;
    while first != second {
        let Some(step) = step_up(forest, first, second) else {
            return Ok(None);
        };
        with.insert(step.edge)?;
        first = step.first;
        second = step.second;
    }
    let edges = ElemSet::from_bits(alloc, &with)?;
    Ok(Some(edges))
}

// Puts an edge into the columns of the edges of the trail between the vertices at two places, by climbing from the later
// place until both meet; false where this leads to a root, and so they are in different trees: by then the columns of some
// members have the edge.
fn enter_climb(
    columns: &mut BitRows,
    forest: &RootedForest,
    from: usize,
    to: usize,
    edge: u32,
) -> Result<bool, AllocError>
    requires order { IsOrder forest.now.place.items forest.now.order.items forest.now.through.items forest.now.before.items }
    requires from { from < length forest.now.order.items }
    requires to { to < length forest.now.order.items }
    requires tree { (ends : ℕ → ℕ × ℕ) × (X : List ℕ)
        × IsTree ends X forest.now.order.items forest.now.through.items forest.now.before.items × AllBelow (length columns.old) X }
    ensures { IfOk result (λ joined. (ends : ℕ → ℕ × ℕ) (X : List ℕ)
        → IsTree ends X forest.now.order.items forest.now.through.items forest.now.before.items
        → IsTrailEntered ends X (slice_index forest.now.order.items from) (slice_index forest.now.order.items to) edge joined
        columns.old columns.new) }
{
    let mut first = from;
    let mut second = to;
    while first != second {
        let Some(step) = step_up(forest, first, second) else {
            return Ok(false);
        };
        columns.insert(step.edge, edge)?;
        first = step.first;
        second = step.second;
    }
    Ok(true)
}

/// The place of a vertex that was found.
pub(crate) fn place_of(forest: &RootedForest, vertex: u32) -> usize
    requires order { IsOrder forest.now.place.items forest.now.order.items forest.now.through.items forest.now.before.items }
    requires found { is_member vertex forest.now.order.items ≡ true }
    ensures inside { result < length forest.now.order.items }
    ensures here { slice_index forest.now.order.items result ≡ vertex }
{
    forest.place[vertex as usize].unwrap()
}

/// The edges of the trail from one vertex to another, a walk along different edges of the forest; None where they are in
/// different trees. The time is linear in the length of the trail, or in the distance to a root, and in the words that have a
/// bit for each of this many edges of the graph. The only error is want of memory.
pub(crate) fn trail(
    alloc: Global,
    forest: &RootedForest,
    edge_count: u32,
    from: u32,
    to: u32,
) -> Result<Option<ElemSet>, AllocError>
    requires order { IsOrder forest.now.place.items forest.now.order.items forest.now.through.items forest.now.before.items }
    requires from { is_member from forest.now.order.items ≡ true }
    requires to { is_member to forest.now.order.items ≡ true }
    ensures trail { IfOk result (λ found. (ends : ℕ → ℕ × ℕ) (X : List ℕ)
        → IsTree ends X forest.now.order.items forest.now.through.items forest.now.before.items
        → MatchOption found (least_merged ends X from ≢ least_merged ends X to) (λ s. IsTrailSet ends X from to s)) }
    ensures rises { IfOk result (λ found. MatchOption found (Unit {0}) (λ s. IsRising s)) }
{
    climb(
        alloc,
        forest,
        edge_count,
        place_of(forest, from),
        place_of(forest, to),
    )
}

/// Puts an edge into the columns of the edges of the trail from one vertex to another, by climbing from both; false where they
/// are in different trees: by then the columns of some members have the edge. The time is linear in the length of the trail, or
/// in the distance to a root. The only error is want of memory.
pub(crate) fn enter_trail(
    columns: &mut BitRows,
    forest: &RootedForest,
    from: u32,
    to: u32,
    edge: u32,
) -> Result<bool, AllocError>
    requires order { IsOrder forest.now.place.items forest.now.order.items forest.now.through.items forest.now.before.items }
    requires from { is_member from forest.now.order.items ≡ true }
    requires to { is_member to forest.now.order.items ≡ true }
    requires tree { (ends : ℕ → ℕ × ℕ) × (X : List ℕ)
        × IsTree ends X forest.now.order.items forest.now.through.items forest.now.before.items × AllBelow (length columns.old) X }
    ensures { IfOk result (λ joined. (ends : ℕ → ℕ × ℕ) (X : List ℕ)
        → IsTree ends X forest.now.order.items forest.now.through.items forest.now.before.items
        → IsTrailEntered ends X from to edge joined columns.old columns.new) }
{
    enter_climb(
        columns,
        forest,
        place_of(forest, from),
        place_of(forest, to),
        edge,
    )
}

/// The place of the root of the tree in which a place lies.
pub(crate) fn root_above(forest: &RootedForest, place: usize) -> usize
    requires order { IsOrder forest.now.place.items forest.now.order.items forest.now.through.items forest.now.before.items }
    requires place { place < length forest.now.order.items }
    ensures inside { result < length forest.now.order.items }
    ensures root { slice_index forest.now.before.items result ≡ result }
    ensures same { (ends : ℕ → ℕ × ℕ) (X : List ℕ) → IsTree ends X forest.now.order.items forest.now.through.items forest.now.before.items
        → least_merged ends X (slice_index forest.now.order.items result) ≡ least_merged ends X (slice_index forest.now.order.items place) }
{
    let mut at = place;
    while forest.before[at] != at {
        at = forest.before[at];
    }
    at
}

/// Whether two vertices are in one tree of the forest, by climbing from each to its root. The time is that of the ways to the roots; it takes no
/// memory.
pub(crate) fn are_joined(forest: &RootedForest, v: u32, w: u32) -> bool
    requires order { IsOrder forest.now.place.items forest.now.order.items forest.now.through.items forest.now.before.items }
    requires first { is_member v forest.now.order.items ≡ true }
    requires second { is_member w forest.now.order.items ≡ true }
    ensures { (ends : ℕ → ℕ × ℕ) (X : List ℕ) → IsTree ends X forest.now.order.items forest.now.through.items forest.now.before.items
        → result ≡ (least_merged ends X v == least_merged ends X w) }
{
    root_above(forest, place_of(forest, v)) == root_above(forest, place_of(forest, w))
}
