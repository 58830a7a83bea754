//! Forests whose edges bring a vertex each, and labels of vertices, in graphic matroids.

ghost use Rattle.std.specs.Prelude.{
  ◌≡◌,
  ◌≢◌,
  ℕ,
  ◌+◌,
  ◌<◌,
  ◌≤◌,
  ◌-◌,
  ◌^◌,
  ◌==◌,
  ◌&&◌,
  ◌||◌,
  not,
  if◌then◌else◌,
  true,
  List,
  [],
  length,
  map,
  reverse,
  slice_index,
  All,
  IfOk,
  Some,
  None,
};
ghost use Rattle.mat_sets.specs.{Graphs.{IsGraph, ends_of}, Sets.{AllBelow, IsSet}};
ghost use Rattle.mat_laws.specs.Matroids.{IsMaximal};
ghost use Rattle.mat_graphic.specs.Forests.{is_graphic};
ghost use Rattle.mat_any.specs.Trees.{graphic};
ghost use Rattle.mat_witness.specs.{
  BoundParts.{bound_of, count_different, have_equal_labels, shows_bound},
  EndSums.{IsSumTable, at_ends},
  FreeParts.{bring_vertices, lists_members, shows_forest, shows_free},
  Parts.{IsBoundFor, IsFreeFor, forest, labels},
};

use mat_graphic::Graphic;
use mat_sets::{ElemSet, Pairs};
use std::alloc::{AllocError, Global};

// Whether the edges of the pairs are the members of a set, each once: as many, and the set of all is this one.
fn lists_edges(alloc: Global, pairs: &Pairs, set: &ElemSet) -> Result<bool, AllocError>
    ensures { IfOk result (λ listed. listed ≡ lists_members (map (λ pair. pair.0) pairs.now) set.now) }
{
    let edges = pairs.firsts(alloc)?;
    if edges.len() != set.len() {
        return Ok(false);
    }
    Ok(ElemSet::from_members(alloc, &edges)? == *set)
}

// Whether one end of an edge is this vertex, and the other end is another one.
fn is_single_end(first: u32, second: u32, vertex: u32) -> bool
    ensures { result ≡ ((first == vertex || second == vertex) && not (first == second)) }
{
    (first == vertex || second == vertex) && first != second
}

// Whether each edge brings its vertex: a table marks the ends of the edges so far.
fn brings_each(
    alloc: Global,
    vertices: u32,
    edges: &[(u32, u32)],
    pairs: &[(u32, u32)],
) -> Result<bool, AllocError>
    requires graph { IsGraph vertices edges.now }
    requires pairs { All (λ pair. (pair.0 < length edges.now) × (pair.1 < vertices)) pairs.now }
    ensures { IfOk result (λ brought. brought ≡ bring_vertices (ends_of edges.now) [] pairs.now) }
{
    let mut touched = vec![in alloc; false; vertices as usize]?;
    for pair in pairs {
        let (e, vertex) = *pair;
        let (first, second) = edges[e as usize];
        if !is_single_end(first, second, vertex) || touched[vertex as usize] {
            return Ok(false);
        }
        touched[first as usize] = true;
        touched[second as usize] = true;
    }
    Ok(true)
}

/// Whether the edges of the pairs are those of the set, each once, and each brings its vertex. The only error is want of memory.
pub(crate) fn shows_forest(
    alloc: Global,
    matroid: &Graphic,
    pairs: &Pairs,
    set: &ElemSet,
) -> Result<bool, AllocError>
    requires sound { IsGraph matroid.now.vertices matroid.now.edges }
    requires set { IsSet (length matroid.now.edges) set.now }
    requires pairs { All (λ pair. (pair.0 < length matroid.now.edges) × (pair.1 < matroid.now.vertices)) pairs.now }
    ensures { IfOk result (λ shown. shown ≡ shows_forest (ends_of matroid.now.edges) pairs.now set.now) }
{
    if !lists_edges(alloc, pairs, set)? {
        return Ok(false);
    }
    brings_each(
        alloc,
        matroid.vertices(),
        matroid.edges().as_slice(),
        pairs.as_slice(),
    )
}

// Whether both ends of each edge of a set have one label.
fn have_equal_labels(edges: &[(u32, u32)], numbers: &[u32], set: &[u32]) -> bool
    requires graph { IsGraph (length numbers.now) edges.now }
    requires below { AllBelow (length edges.now) set.now }
    ensures { result ≡ have_equal_labels (ends_of edges.now) numbers.now set.now }
{
    for e in set {
        let (first, second) = edges[*e as usize];
        if numbers[first as usize] != numbers[second as usize] {
            return false;
        }
    }
    true
}

/// The number of vertices less that of the different labels, and None where an edge of the set joins two labels. The only error is want of
/// memory.
pub(crate) fn labels_bound(
    alloc: Global,
    matroid: &Graphic,
    numbers: &[u32],
    set: &ElemSet,
) -> Result<Option<u32>, AllocError>
    requires sound { IsGraph matroid.now.vertices matroid.now.edges }
    requires set { IsSet (length matroid.now.edges) set.now }
    requires long { length numbers.now ≡ matroid.now.vertices }
    requires below { AllBelow matroid.now.vertices numbers.now }
    ensures { IfOk result (λ found. found ≡ (if have_equal_labels (ends_of matroid.now.edges) numbers.now set.now
        then Some (matroid.now.vertices - count_different numbers.now) else None)) }
{
    if !have_equal_labels(matroid.edges().as_slice(), numbers, set.as_slice()) {
        return Ok(None);
    }
    let different = ElemSet::from_members(alloc, numbers)?;
    Ok(Some(matroid.vertices() - different.len() as u32))
}

// For each vertex how many edges of a forest have it as an end, and the sum of their numbers.
#[derive(Debug, Drop)]
struct EndSums {
    degree: Vec<u64>,
    sum: Vec<u64>,
}

// Adds an amount at both ends of an edge.
fn add_at(table: &mut [u64], first: u32, second: u32, amount: u64)
    requires first { first < length table.old }
    requires second { second < length table.old }
    requires apart { first ≢ second }
    requires room { (v : ℕ) → v < length table.old → slice_index table.old v + amount < 2 ^ 64 }
    ensures { (v : ℕ) → v < length table.old → slice_index table.new v ≡ at_ends (first, second) amount v + slice_index table.old v }
{
    table[first as usize] += amount;
    table[second as usize] += amount;
}

// Takes an amount away at both ends of an edge.
fn take_at(table: &mut [u64], first: u32, second: u32, amount: u64)
    requires first { first < length table.old }
    requires second { second < length table.old }
    requires apart { first ≢ second }
    requires enough { (v : ℕ) → v < length table.old → at_ends (first, second) amount v ≤ slice_index table.old v }
    ensures { (v : ℕ) → v < length table.old → slice_index table.old v ≡ at_ends (first, second) amount v + slice_index table.new v }
{
    table[first as usize] -= amount;
    table[second as usize] -= amount;
}

// The sums of the edges of a forest.
fn end_sums(
    alloc: Global,
    vertices: u32,
    edges: &[(u32, u32)],
    set: &ElemSet,
) -> Result<EndSums, AllocError>
    requires graph { IsGraph vertices edges.now }
    requires set { is_graphic (length edges.now) (ends_of edges.now) set.now ≡ true }
    ensures degree { IfOk result (λ sums. IsSumTable (λ e. 1) (ends_of edges.now) set.now vertices sums.degree.items) }
    ensures sum { IfOk result (λ sums. IsSumTable (λ e. e) (ends_of edges.now) set.now vertices sums.sum.items) }
{
    let mut degree = vec![in alloc; 0u64; vertices as usize]?;
    let mut sum = vec![in alloc; 0u64; vertices as usize]?;
    for i in (0..set.len()).rev() {
        let e = set.get(i);
        let (first, second) = edges[e as usize];
        add_at(&mut degree, first, second, 1);
        add_at(&mut sum, first, second, e as u64);
    }
    Ok(EndSums { degree, sum })
}

// The edges of a forest from its leaves on: each with an end that no later one has. A leaf is an end of one edge, whose number is the sum of
// the numbers of its edges; without this edge its other end may be a leaf.
fn leaves_first(
    alloc: Global,
    vertices: u32,
    edges: &[(u32, u32)],
    set: &ElemSet,
) -> Result<Vec<(u32, u32)>, AllocError>
    requires graph { IsGraph vertices edges.now }
    requires set { is_graphic (length edges.now) (ends_of edges.now) set.now ≡ true }
    ensures long { IfOk result (λ pairs. length pairs.items ≡ length set.now) }
    ensures inside { IfOk result (λ pairs. All (λ pair. (pair.0 < length edges.now) × (pair.1 < vertices)) (reverse pairs.items)) }
    ensures shows { IfOk result (λ pairs. shows_forest (ends_of edges.now) (reverse pairs.items) set.now ≡ true) }
{
    let mut sums = end_sums(alloc, vertices, edges, set)?;
    let mut pairs = Vec::with_capacity(alloc, set.len())?;
    let mut passed = 0;
    let mut v = 0;
    while passed < vertices {
        if sums.degree[v as usize] == 1 {
            let e = sums.sum[v as usize] as u32;
            let (first, second) = edges[e as usize];
            take_at(&mut sums.degree, first, second, 1);
            take_at(&mut sums.sum, first, second, e as u64);
            pairs.push((e, v))?;
            v = if first == v { second } else { first };
        } else {
            passed += 1;
            v = passed;
        }
    }
    Ok(pairs)
}

/// The edges of a forest in an order in which each brings a vertex, with this vertex: from the roots of its trees on. The only error is
/// want of memory.
pub(crate) fn forest_pairs(
    alloc: Global,
    matroid: &Graphic,
    set: &ElemSet,
) -> Result<Pairs, AllocError>
    requires sound { IsGraph matroid.now.vertices matroid.now.edges }
    requires set { is_graphic (length matroid.now.edges) (ends_of matroid.now.edges) set.now ≡ true }
    ensures part { IfOk result (λ pairs. IsFreeFor (length matroid.now.edges) (length set.now)
        (graphic matroid.now.vertices matroid.now.edges) (forest pairs)) }
    ensures shows { IfOk result (λ pairs. shows_free (graphic matroid.now.vertices matroid.now.edges) (forest pairs) set.now ≡ true) }
{
    let mut pairs = leaves_first(alloc, matroid.vertices(), matroid.edges().as_slice(), set)?;
    pairs.reverse();
    Ok(Pairs::new(pairs))
}

/// For each vertex the least one of its component along the edges of a set: the number of vertices less that of the components is the rank
/// of the set, and that of a maximal independent subset. The only error is want of memory.
pub(crate) fn component_labels(
    alloc: Global,
    matroid: &Graphic,
    set: &ElemSet,
) -> Result<Vec<u32>, AllocError>
    requires sound { IsGraph matroid.now.vertices matroid.now.edges }
    requires set { IsSet (length matroid.now.edges) set.now }
    ensures part { IfOk result (λ numbers. IsBoundFor (length matroid.now.edges) (graphic matroid.now.vertices matroid.now.edges)
        (labels numbers.items)) }
    ensures shows { IfOk result (λ numbers. shows_bound (graphic matroid.now.vertices matroid.now.edges) (labels numbers.items)
        set.now ≡ true) }
    ensures number { IfOk result (λ numbers. (inside : List ℕ)
        → IsMaximal (is_graphic (length matroid.now.edges) (ends_of matroid.now.edges)) set.now inside
        → bound_of (graphic matroid.now.vertices matroid.now.edges) (labels numbers.items) ≤ length inside) }
{
    matroid.components(alloc, set)
}
