//! Gammoids.
ghost use Rattle.std.specs.Prelude.{◌≡◌, ◌<◌, ◌^◌, ℕ, List, [], true, false, filter, length, IfOk};
ghost use Rattle.mat_sets.specs.Sets.{is_member, AllBelow, AreDistinct, IsRising};
ghost use Rattle.mat_flow.specs.{Digraphs.{IsTurned}, LinkedEnds.{IsLinker}, Reroutes.{AreReroutes}};
ghost use Rattle.mat_laws.specs.{Exchanges.{row_of}, GreedyRuns.{grown_along}};
ghost use Rattle.mat_linked.specs.{
  Gammoids.{is_gammoid, set_of_vertices, IsGammoid},
  GammoidLaws.{gammoid_laws},
  KeptLinkings.{has_vertex_in, IsKeptLinking},
};

use crate::kept_linking::KeptLinking;
use mat_flow::{Digraph, Linker, Reroutes};
use mat_laws::{Exchange, Matroid};
use mat_sets::{BitSet, ElemSet};
use std::alloc::{AllocError, Global};
use std::marker::Model;

/// The matroid of vertices of a directed graph in which a set is independent where disjoint paths lead from sources to its
/// members, one to each (Schrijver, chapter 39).
#[derive(Debug, Drop)]
pub struct Gammoid {
    graph: Digraph,
    // The graph with its arcs turned round.
    back: Digraph,
    sources: ElemSet,
    // The same, as bits.
    starts: BitSet,
    targets: Vec<u32>,
}

impl Model for Gammoid {
    ghost use Rattle.std.specs.Prelude.{◌≡◌};
    ghost use Rattle.mat_flow.specs.Digraphs.{IsTurned};
    ghost use Rattle.mat_linked.specs.Gammoids.{LinkedVertices};

    ghost Value = { LinkedVertices };

    ghost view = { λ g. record {
      vertices = g.graph.vertices;
      arcs = g.graph.arcs;
      sources = g.sources;
      targets = g.targets.items;
    } };

    ghost invariant = { λ g. IsTurned g.graph.vertices g.graph.arcs g.back × (g.starts ≡ g.sources) };
}

// Whether disjoint paths lead from the sources to the vertices of these elements, one to each.
fn are_linked(
    alloc: Global,
    graph: &Digraph,
    back: &Digraph,
    sources: &BitSet,
    targets: &[u32],
    elements: &[u32],
) -> Result<bool, AllocError>
    requires back { IsTurned graph.now.vertices graph.now.arcs back.now }
    requires gammoid { IsGammoid graph.now.vertices graph.now.arcs sources.now targets.now }
    requires below { AllBelow (length targets.now) elements.now }
    requires rises { IsRising elements.now }
    ensures { IfOk result (λ b. b ≡ is_gammoid graph.now.vertices graph.now.arcs sources.now targets.now elements.now) }
{
    let mut links = Linker::new(alloc, graph.vertices())?;
    for x in elements {
        if !links.link(alloc, graph, back, sources, targets[*x as usize])? {
            return Ok(false);
        }
    }
    Ok(true)
}

// The elements of the order that get in, one after the other, and disjoint paths to the vertices of those.
fn link_along(
    alloc: Global,
    graph: &Digraph,
    back: &Digraph,
    sources: &BitSet,
    targets: &[u32],
    order: &[u32],
) -> Result<(ElemSet, Linker), AllocError>
    requires back { IsTurned graph.now.vertices graph.now.arcs back.now }
    requires gammoid { IsGammoid graph.now.vertices graph.now.arcs sources.now targets.now }
    requires below { AllBelow (length targets.now) order.now }
    requires distinct { AreDistinct order.now }
    ensures set { IfOk result (λ r. r.0 ≡ grown_along (is_gammoid graph.now.vertices graph.now.arcs sources.now targets.now) [] order.now) }
    ensures links { IfOk result (λ r. IsLinker graph.now.vertices graph.now.arcs sources.now (set_of_vertices targets.now r.0) r.1) }
{
    let mut set = ElemSet::new(alloc);
    let mut links = Linker::new(alloc, graph.vertices())?;
    for x in order {
        if links.link(alloc, graph, back, sources, targets[*x as usize])? {
            set.add(*x)?;
        }
    }
    Ok((set, links))
}

// What is kept of disjoint paths.
fn kept_of(
    alloc: Global,
    back: &Digraph,
    sources: &BitSet,
    reroutes: Reroutes,
) -> Result<KeptLinking, AllocError>
    requires { (vertices : ℕ) × (arcs : List (ℕ × ℕ)) × (ends : List ℕ) × IsTurned vertices arcs back.now
        × AreReroutes vertices arcs sources.now ends reroutes }
    ensures { IfOk result (λ kept. (vertices : ℕ) (arcs : List (ℕ × ℕ)) (targets base : List ℕ) → IsTurned vertices arcs back.now
        → AreReroutes vertices arcs sources.now (set_of_vertices targets base) reroutes
        → IsKeptLinking vertices arcs sources.now targets base kept) }
{
    let next_ends = reroutes.next_ends(alloc, back, sources)?;
    Ok(KeptLinking {
        reroutes,
        next_ends,
    })
}

// Disjoint paths to the vertices of an independent set.
fn keep_paths(
    alloc: Global,
    graph: &Digraph,
    back: &Digraph,
    sources: &BitSet,
    targets: &[u32],
    base: &ElemSet,
) -> Result<KeptLinking, AllocError>
    requires back { IsTurned graph.now.vertices graph.now.arcs back.now }
    requires gammoid { IsGammoid graph.now.vertices graph.now.arcs sources.now targets.now }
    requires base { is_gammoid graph.now.vertices graph.now.arcs sources.now targets.now base.now ≡ true }
    ensures { IfOk result (λ kept. IsKeptLinking graph.now.vertices graph.now.arcs sources.now targets.now base.now kept) }
{
    let (_, links) = link_along(alloc, graph, back, sources, targets, base.as_slice())?;
    kept_of(alloc, back, sources, links.into_reroutes())
}

// Disjoint paths to the vertices of an independent set, from such as are kept of another one: the path to each member that is gone is
// taken out, and then there is one path more for each new one.
fn keep_next_paths(
    alloc: Global,
    graph: &Digraph,
    back: &Digraph,
    sources: &BitSet,
    targets: &[u32],
    base: &ElemSet,
    kept: &KeptLinking,
    next: &ElemSet,
) -> Result<KeptLinking, AllocError>
    requires back { IsTurned graph.now.vertices graph.now.arcs back.now }
    requires gammoid { IsGammoid graph.now.vertices graph.now.arcs sources.now targets.now }
    requires base { is_gammoid graph.now.vertices graph.now.arcs sources.now targets.now base.now ≡ true }
    requires kept { IsKeptLinking graph.now.vertices graph.now.arcs sources.now targets.now base.now kept.now }
    requires next { is_gammoid graph.now.vertices graph.now.arcs sources.now targets.now next.now ≡ true }
    ensures { IfOk result (λ kept. IsKeptLinking graph.now.vertices graph.now.arcs sources.now targets.now next.now kept) }
{
    let mut links = kept.reroutes.links(alloc, graph.vertices())?;
    let gone = base.minus(alloc, next)?;
    for y in gone.as_slice() {
        links.unlink(targets[*y as usize]);
    }
    let mut linker = Linker::of_table(alloc, graph.vertices(), &links)?;
    let more = next.minus(alloc, base)?;
    for x in more.as_slice() {
        linker.link(alloc, graph, back, sources, targets[*x as usize])?;
    }
    kept_of(alloc, back, sources, linker.into_reroutes())
}

// Those of the elements whose vertices are of this set.
fn members_at(
    alloc: Global,
    targets: &[u32],
    elements: &[u32],
    vertices: &BitSet,
) -> Result<ElemSet, AllocError>
    requires below { AllBelow (length targets.now) elements.now }
    requires rises { IsRising elements.now }
    ensures members { IfOk result (λ s. s ≡ filter (has_vertex_in targets.now vertices.now) elements.now) }
    ensures rises { IfOk result (λ s. IsRising s) }
{
    let mut found = ElemSet::new(alloc);
    for e in elements {
        if vertices.contains(targets[*e as usize]) {
            found.add(*e)?;
        }
    }
    Ok(found)
}

// The exchanges of an element by what is kept.
fn row_by_paths(
    alloc: Global,
    back: &Digraph,
    sources: &BitSet,
    targets: &[u32],
    base: &ElemSet,
    kept: &KeptLinking,
    x: u32,
) -> Result<Exchange, AllocError>
    requires below { AllBelow (length targets.now) base.now }
    requires element { x < length targets.now }
    requires kept { (vertices : ℕ) × (arcs : List (ℕ × ℕ)) × (ends : List ℕ) × IsTurned vertices arcs back.now
        × AreReroutes vertices arcs sources.now ends kept.now.reroutes }
    ensures row { IfOk result (λ e. (vertices : ℕ) (arcs : List (ℕ × ℕ)) → IsTurned vertices arcs back.now
        → IsGammoid vertices arcs sources.now targets.now → is_gammoid vertices arcs sources.now targets.now base.now ≡ true → is_member x base.now ≡ false
        → IsKeptLinking vertices arcs sources.now targets.now base.now kept.now
        → e ≡ row_of (is_gammoid vertices arcs sources.now targets.now) base.now x) }
    ensures rises { IfOk result (λ e. IsRising e.with) }
{
    match kept
        .reroutes
        .giving_way(alloc, back, sources, targets[x as usize])?
    {
        None => {
            let with = base.copy(alloc)?;
            Ok(Exchange {
                addable: true,
                with,
            })
        }
        Some(ways) => {
            let with = members_at(alloc, targets, base.as_slice(), &ways)?;
            Ok(Exchange {
                addable: false,
                with,
            })
        }
    }
}

// Whether an element can be added, by what is kept.
fn adds_by_paths(targets: &[u32], kept: &KeptLinking, x: u32) -> bool
    requires { x < length targets.now }
    ensures { (vertices : ℕ) (arcs : List (ℕ × ℕ)) (sources base : List ℕ) → IsGammoid vertices arcs sources targets.now
        → is_gammoid vertices arcs sources targets.now base ≡ true → is_member x base ≡ false
        → IsKeptLinking vertices arcs sources targets.now base kept.now
        → result ≡ (row_of (is_gammoid vertices arcs sources targets.now) base x).addable }
{
    kept.next_ends.contains(targets[x as usize])
}

impl Gammoid {
    /// The gammoid of this graph in which paths start at the sources and element e is the vertex `targets[e]`. It keeps the graph with
    /// its arcs turned round beside it. The only error is want of memory.
    pub fn new(
        alloc: Global,
        graph: Digraph,
        sources: ElemSet,
        targets: Vec<u32>,
    ) -> Result<Gammoid, AllocError>
        requires sources { AllBelow graph.vertices sources }
        requires targets { AllBelow graph.vertices targets.items }
        requires distinct { AreDistinct targets.items }
        requires few { length targets.items < 2 ^ 32 }
        ensures value { IfOk result (λ g. g ≡ record { vertices = graph.vertices; arcs = graph.arcs; sources = sources; targets = targets.items }) }
        ensures sound { IfOk result (λ g. IsGammoid g.vertices g.arcs g.sources g.targets) }
    {
        let back = graph.turned(alloc)?;
        // (asking for the number of vertices tells the proof that the ends of the arcs are below it)
        let _ = graph.vertices();
        let starts = sources.to_bits(alloc)?;
        Ok(Gammoid {
            graph,
            back,
            sources,
            starts,
            targets,
        })
    }

    /// The graph.
    pub fn graph(&self) -> &Digraph
        ensures { result.now ≡ record { vertices = self.now.vertices; arcs = self.now.arcs } }
    {
        &self.graph
    }

    /// The vertices at which paths may start.
    pub fn sources(&self) -> &ElemSet
        ensures { result.now ≡ self.now.sources }
    {
        &self.sources
    }

    /// The vertex of each element.
    pub fn targets(&self) -> &[u32]
        ensures { result.now ≡ self.now.targets }
    {
        self.targets.as_slice()
    }
}

impl Matroid for Gammoid {
    ghost ground_size = { λ m. length m.targets };

    ghost sound = { λ m. IsGammoid m.vertices m.arcs m.sources m.targets };

    ghost indep = { λ m. is_gammoid m.vertices m.arcs m.sources m.targets };

    type Kept = KeptLinking;

    ghost keeps = { λ m base kept. IsKeptLinking m.vertices m.arcs m.sources m.targets base kept };

    ghost laws = { λ m h. gammoid_laws m.vertices m.arcs m.sources m.targets h };

    fn size(&self) -> u32 {
        self.targets.len() as u32
    }

    /// Whether disjoint paths lead from the sources to the vertices of the members, one to each: one search of the bits of the graph
    /// for each member, up to the first one that finds no path more. The only error is want of memory.
    fn independent(&self, alloc: Global, set: &ElemSet) -> Result<bool, AllocError> {
        are_linked(
            alloc,
            &self.graph,
            &self.back,
            &self.starts,
            &self.targets,
            set.as_slice(),
        )
    }

    /// One search of the bits of the graph for each element: a path more is sought to its vertex, beside the paths to those that
    /// are in. The only error is want of memory.
    fn run(&self, alloc: Global, order: &[u32]) -> Result<ElemSet, AllocError> {
        let (set, _) = link_along(
            alloc,
            &self.graph,
            &self.back,
            &self.starts,
            &self.targets,
            order,
        )?;
        Ok(set)
    }

    /// Disjoint paths to the vertices of the set: one search of the bits of the graph for each member. The only error is want of memory.
    fn keep(&self, alloc: Global, base: &ElemSet) -> Result<KeptLinking, AllocError> {
        keep_paths(
            alloc,
            &self.graph,
            &self.back,
            &self.starts,
            &self.targets,
            base,
        )
    }

    /// One search of the bits of the graph for each member that is new; the path to each that is gone is taken out. The only error is
    /// want of memory.
    fn keep_next(
        &self,
        alloc: Global,
        base: &ElemSet,
        kept: &KeptLinking,
        next: &ElemSet,
    ) -> Result<KeptLinking, AllocError> {
        keep_next_paths(
            alloc,
            &self.graph,
            &self.back,
            &self.starts,
            &self.targets,
            base,
            kept,
            next,
        )
    }

    /// One search of the bits of the graph, back from the vertex of x in what the paths leave. The only error is want of memory.
    fn row(
        &self,
        alloc: Global,
        base: &ElemSet,
        kept: &KeptLinking,
        x: u32,
    ) -> Result<Exchange, AllocError> {
        self.lawful();
        row_by_paths(
            alloc,
            &self.back,
            &self.starts,
            &self.targets,
            base,
            kept,
            x,
        )
    }

    /// Whether an element can be added, by the bit of its vertex. It takes no memory.
    fn adds(
        &self,
        _alloc: Global,
        _base: &ElemSet,
        kept: &KeptLinking,
        x: u32,
    ) -> Result<bool, AllocError> {
        Ok(adds_by_paths(&self.targets, kept, x))
    }
}
