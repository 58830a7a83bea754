//! Graphic matroids.
ghost use Rattle.std.specs.Prelude.{◌≡◌, ℕ, List, [], ◌∷◌, ◌<◌, ◌==◌, not, true, false, length, slice_index, IfOk, OnOk};
ghost use Rattle.mat_sets.specs.{Graphs.{IsGraph, ends_of}, Rows.{IsEntered}, Sets.{AllBelow, IsRising, is_member}};
ghost use Rattle.mat_laws.specs.{Exchanges.{row_of}, GreedyRuns.{grown_along}};
ghost use Rattle.mat_graphic.specs.{
  Forests.{IsLeastReached, is_forest, is_graphic},
  Mergings.{least_merged},
  ForestLaws.{graphic_laws},
  RootedForests.{IsRootedForest},
  ParentTables.{IsDescending, IsParentTable},
};

use crate::hanging::{new_member, with_edge};
use crate::rooted_forest::{RootedForest, are_joined, enter_trail, root_trees, trail};
use crate::union_find::{settle, singletons, unite};
use mat_laws::{Exchange, Matroid};
use mat_sets::{BitRows, BitSet, ElemSet, Pairs};
use std::alloc::{AllocError, Global};

/// The matroid of the edges of a graph in which a set is independent where it is a forest: no walk along a non-empty
/// list of different members ends where it begins (Schrijver, chapter 39).
#[derive(Debug, Drop)]
pub struct Graphic {
    vertices: u32,
    edges: Pairs,
}

// Unites the components of the ends of an edge, and tells whether they were two.
fn unite_ends(parent: &mut [u32], edges: &[(u32, u32)], e: u32) -> bool
    requires graph { IsGraph (length parent.old) edges.now }
    requires below { e < length edges.now }
    requires descending { IsDescending parent.old }
    ensures descending { IsDescending parent.new }
    ensures united { (X : List ℕ) → IsParentTable (least_merged (ends_of edges.now) X) parent.old
        → IsParentTable (least_merged (ends_of edges.now) (e ∷ X)) parent.new }
    ensures apart { (X : List ℕ) → IsParentTable (least_merged (ends_of edges.now) X) parent.old
        → result ≡ not (least_merged (ends_of edges.now) X (ends_of edges.now e).0
        == least_merged (ends_of edges.now) X (ends_of edges.now e).1) }
{
    let (first, second) = edges[e as usize];
    unite(parent, first, second)
}

// Unites the components of the ends of each edge of a set, from the last edge to the first.
fn unite_all(parent: &mut [u32], edges: &[(u32, u32)], set: &ElemSet)
    requires graph { IsGraph (length parent.old) edges.now }
    requires below { AllBelow (length edges.now) set.now }
    requires descending { IsDescending parent.old }
    requires single { IsParentTable (λ v. v) parent.old }
    ensures descending { IsDescending parent.new }
    ensures united { IsParentTable (least_merged (ends_of edges.now) set.now) parent.new }
    ensures rises { IsRising set.now }
{
    for i in (0..set.len()).rev() {
        unite_ends(parent, edges, set.get(i));
    }
}

// Whether a set of edges is a forest: from the last edge to the first, the ends of each are in different components of
// those after it.
fn are_forest(parent: &mut [u32], edges: &[(u32, u32)], set: &ElemSet) -> bool
    requires graph { IsGraph (length parent.old) edges.now }
    requires below { AllBelow (length edges.now) set.now }
    requires descending { IsDescending parent.old }
    requires single { IsParentTable (λ v. v) parent.old }
    ensures answer { result ≡ is_forest (ends_of edges.now) set.now }
    ensures rises { IsRising set.now }
{
    for i in (0..set.len()).rev() {
        if !unite_ends(parent, edges, set.get(i)) {
            return false;
        }
    }
    true
}

// The greedy run along an order: each edge whose ends are in two components of those before it enters.
fn forest_along(
    alloc: Global,
    parent: &mut [u32],
    edges: &[(u32, u32)],
    order: &[u32],
) -> Result<ElemSet, AllocError>
    requires graph { IsGraph (length parent.old) edges.now }
    requires below { AllBelow (length edges.now) order.now }
    requires descending { IsDescending parent.old }
    requires single { IsParentTable (λ v. v) parent.old }
    ensures { IfOk result (λ set. set ≡ grown_along (is_graphic (length edges.now) (ends_of edges.now)) [] order.now) }
{
    let mut set = BitSet::new(alloc);
    for x in order {
        if unite_ends(parent, edges, *x) {
            set.insert(*x)?;
        }
    }
    ElemSet::from_bits(alloc, &set)
}

impl Graphic {
    /// The graphic matroid of the graph with this many vertices and these edges, each the pair of its ends: element e is
    /// the edge at place e, counted from 0. An edge whose ends are one vertex is a loop, and edges with the same ends are
    /// parallel. The only error is want of memory; as the edges are taken as they stand, none comes.
    pub fn new(_alloc: Global, vertices: u32, edges: Pairs) -> Result<Graphic, AllocError>
        requires { IsGraph vertices edges }
        ensures value { IfOk result (λ g. g ≡ record { vertices = vertices; edges = edges }) }
        ensures sound { IfOk result (λ g. IsGraph g.vertices g.edges) }
    {
        Ok(Graphic { vertices, edges })
    }

    /// The number of vertices.
    pub fn vertices(&self) -> u32
        ensures { result ≡ self.now.vertices }
    {
        self.vertices
    }

    /// The edges, as they were handed in.
    pub fn edges(&self) -> &Pairs
        ensures { result.now ≡ self.now.edges }
    {
        &self.edges
    }

    /// For each vertex the least vertex that walks along these edges reach from it. The time is nearly linear in the
    /// number of vertices and of edges: union-find with path halving, in which the least vertex of a component is its
    /// root. The only error is want of memory.
    pub fn components(&self, alloc: Global, edges: &ElemSet) -> Result<Vec<u32>, AllocError>
        requires sound { IsGraph self.now.vertices self.now.edges }
        requires below { AllBelow (length self.now.edges) edges.now }
        ensures long { IfOk result (λ t. length t.items ≡ self.now.vertices) }
        ensures least { IfOk result (λ t. (v : ℕ) → v < self.now.vertices → IsLeastReached (ends_of self.now.edges) edges.now v
            (slice_index t.items v)) }
    {
        let mut parent = singletons(alloc, self.vertices)?;
        unite_all(&mut parent, self.edges.as_slice(), edges);
        settle(&mut parent);
        Ok(parent)
    }

    // Puts an edge outside a forest into the columns of the members for which it can be exchanged: where its ends are in one tree,
    // those of the trail between them, and else all.
    fn enter_exchanges(
        &self,
        columns: &mut BitRows,
        base: &ElemSet,
        kept: &RootedForest,
        x: u32,
    ) -> Result<(), AllocError>
        requires sound { IsGraph self.now.vertices self.now.edges }
        requires base { is_graphic (length self.now.edges) (ends_of self.now.edges) base.now ≡ true }
        requires kept { IsRootedForest self.now.vertices (ends_of self.now.edges) base.now kept.now }
        requires below { x < length self.now.edges }
        requires outside { is_member x base.now ≡ false }
        requires long { length columns.old ≡ length self.now.edges }
        ensures { OnOk result (IsEntered x (row_of (is_graphic (length self.now.edges) (ends_of self.now.edges)) base.now x).with
            columns.old columns.new) }
    {
        let (first, second) = self.edges.get(x as usize);
        let joined = enter_trail(columns, kept, second, first, x)?;
        if joined {
            return Ok(());
        }
        columns.insert_each(base.as_slice(), x)
    }
}

impl Matroid for Graphic {
    ghost ground_size = { λ m. length m.edges };

    ghost sound = { λ m. IsGraph m.vertices m.edges };

    ghost indep = { λ m. is_graphic (length m.edges) (ends_of m.edges) };

    type Kept = RootedForest;

    ghost keeps = { λ m base kept. IsRootedForest m.vertices (ends_of m.edges) base kept };

    ghost laws = { λ m h. graphic_laws (length m.edges) (ends_of m.edges) };

    fn size(&self) -> u32 {
        self.edges.len() as u32
    }

    fn independent(&self, alloc: Global, set: &ElemSet) -> Result<bool, AllocError> {
        let mut parent = singletons(alloc, self.vertices)?;
        Ok(are_forest(&mut parent, self.edges.as_slice(), set))
    }

    /// The greedy run along an order, by one union-find: an edge enters where its ends are in two components of those
    /// before it, as in Kruskal's algorithm (Schrijver, chapter 50). The time is nearly linear in the number of vertices and
    /// the length of the order, but for a shift of the set's later members where one is put in before them. The only error is
    /// want of memory.
    fn run(&self, alloc: Global, order: &[u32]) -> Result<ElemSet, AllocError> {
        let mut parent = singletons(alloc, self.vertices)?;
        forest_along(alloc, &mut parent, self.edges.as_slice(), order)
    }

    /// The trees of a forest are rooted, in time linear in the numbers of vertices and of members. The only error is want of
    /// memory.
    fn keep(&self, alloc: Global, base: &ElemSet) -> Result<RootedForest, AllocError> {
        self.lawful();
        root_trees(alloc, self.vertices, self.edges.as_slice(), base)
    }

    /// If the other forest has one edge more, the tree of one of its ends is hung below the other end; else the trees are rooted anew. The time is
    /// linear in the numbers of vertices and of members. The only error is want of memory.
    fn keep_next(
        &self,
        alloc: Global,
        base: &ElemSet,
        kept: &RootedForest,
        next: &ElemSet,
    ) -> Result<RootedForest, AllocError> {
        self.lawful();
        let Some(edge) = new_member(base.as_slice(), next.as_slice()) else {
            return self.keep(alloc, next);
        };
        let (first, second) = self.edges.get(edge as usize);
        match with_edge(alloc, kept, self.vertices, edge, first, second)? {
            Some(forest) => Ok(forest),
            None => self.keep(alloc, next),
        }
    }

    /// The exchanges of an edge outside a forest: where its ends are in two trees it can be added, and exchanged for any
    /// member; else it can be exchanged for the members of the trail between its ends, which are found by climbing from both.
    /// The only error is want of memory.
    fn row(
        &self,
        alloc: Global,
        base: &ElemSet,
        kept: &RootedForest,
        x: u32,
    ) -> Result<Exchange, AllocError> {
        let (first, second) = self.edges.get(x as usize);
        match trail(alloc, kept, self.size(), second, first)? {
            Some(with) => Ok(Exchange {
                addable: false,
                with,
            }),
            None => Ok(Exchange {
                addable: true,
                with: base.copy(alloc)?,
            }),
        }
    }

    /// Whether the ends of the edge are in two trees, by the ways from both to their roots. It takes no memory.
    fn adds(
        &self,
        _alloc: Global,
        _base: &ElemSet,
        kept: &RootedForest,
        x: u32,
    ) -> Result<bool, AllocError> {
        let (first, second) = self.edges.get(x as usize);
        Ok(!are_joined(kept, first, second))
    }

    /// The exchanges column by column, with no row: an edge enters the columns of the trail between its ends while this is climbed,
    /// or all where they are in two trees. The only error is want of memory.
    fn columns(
        &self,
        alloc: Global,
        base: &ElemSet,
        kept: &RootedForest,
    ) -> Result<BitRows, AllocError> {
        self.lawful();
        let size = self.size();
        let members = base.to_bits(alloc)?;
        let mut columns = BitRows::with_rows(alloc, size, 0)?;
        columns.empty_each(alloc, base.as_slice(), size)?;
        for x in 0..size {
            if !members.contains(x) {
                self.enter_exchanges(&mut columns, base, kept, x)?;
            }
        }
        Ok(columns)
    }
}
