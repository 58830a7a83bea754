//! Directed graphs, with a row of bits for each vertex.
ghost use Rattle.std.specs.Prelude.{◌≡◌, ◌||◌, ◌==◌, ◌<◌, ℕ, [], IfOk};
ghost use Rattle.mat_sets.specs.{Graphs.{IsGraph}, Sets.{is_member}};
ghost use Rattle.mat_flow.specs.{Digraphs.{reversed_arcs, AreRows, IsTurned}, Paths.{has_arc}};

use mat_sets::{BitRows, BitSet, Pairs};
use std::alloc::{AllocError, Global};
use std::marker::Model;

/// A directed graph. Its vertices are the numbers below their count, and each arc leads from its tail to its head; an arc may lead
/// from a vertex to itself, and arcs may have the same ends (Schrijver, chapter 3).
#[derive(Debug, Drop)]
pub struct Digraph {
    vertices: u32,
    arcs: Pairs,
    // At u the vertex u itself and the heads of the arcs that leave it.
    rows: BitRows,
}

impl Model for Digraph {
    ghost use Rattle.mat_flow.specs.Digraphs.{DirectedGraph, IsAdjacency};

    ghost Value = { DirectedGraph };

    ghost view = { λ g. record { vertices = g.vertices; arcs = g.arcs } };

    ghost invariant = { λ g. IsAdjacency g.vertices g.arcs g.rows };
}

// The rows of the graph without arcs.
fn lone_rows(alloc: Global, vertices: u32) -> Result<BitRows, AllocError>
    ensures { IfOk result (λ rows. AreRows vertices [] rows) }
{
    let mut rows = BitRows::with_rows(alloc, vertices, vertices)?;
    for u in 0..vertices {
        rows.insert(u, u)?;
    }
    Ok(rows)
}

// The rows of a graph.
fn rows_of(alloc: Global, vertices: u32, arcs: &[(u32, u32)]) -> Result<BitRows, AllocError>
    requires { IsGraph vertices arcs.now }
    ensures { IfOk result (λ rows. AreRows vertices arcs.now rows) }
{
    let mut rows = lone_rows(alloc, vertices)?;
    for i in 0..arcs.len() {
        let (tail, head) = arcs[i];
        rows.insert(tail, head)?;
    }
    Ok(rows)
}

// The arcs, each turned round.
fn turned_round(alloc: Global, arcs: &[(u32, u32)]) -> Result<Vec<(u32, u32)>, AllocError>
    ensures { IfOk result (λ back. back.items ≡ reversed_arcs arcs.now) }
{
    let mut back = Vec::with_capacity(alloc, arcs.len())?;
    for (tail, head) in arcs {
        back.push((*head, *tail))?;
    }
    Ok(back)
}

impl Digraph {
    /// The graph with this many vertices and these arcs, each the pair of its tail and its head. It takes a bit for each two
    /// vertices. The only error is want of memory.
    pub fn new(alloc: Global, vertices: u32, arcs: Pairs) -> Result<Digraph, AllocError>
        requires { IsGraph vertices arcs }
        ensures { IfOk result (λ g. g ≡ record { vertices = vertices; arcs = arcs }) }
    {
        let rows = rows_of(alloc, vertices, arcs.as_slice())?;
        Ok(Digraph {
            vertices,
            arcs,
            rows,
        })
    }

    /// The graph with each arc turned round. The only error is want of memory.
    pub fn turned(&self, alloc: Global) -> Result<Digraph, AllocError>
        ensures { IfOk result (λ back. IsTurned self.now.vertices self.now.arcs back) }
    {
        let arcs = turned_round(alloc, self.arcs().as_slice())?;
        Digraph::new(alloc, self.vertices(), Pairs::new(arcs))
    }

    /// How many vertices there are.
    pub fn vertices(&self) -> u32
        ensures count { result ≡ self.now.vertices }
        ensures graph { IsGraph self.now.vertices self.now.arcs }
    {
        self.vertices
    }

    /// The arcs, as they were handed in.
    pub fn arcs(&self) -> &Pairs
        ensures arcs { result.now ≡ self.now.arcs }
        ensures graph { IsGraph self.now.vertices self.now.arcs }
    {
        &self.arcs
    }

    /// The vertex u and the heads of the arcs that leave it.
    pub(crate) fn row(&self, u: u32) -> &BitSet
        requires { u < self.now.vertices }
        ensures { (v : ℕ) → is_member v result.now ≡ (v == u || has_arc self.now.arcs u v) }
    {
        self.rows.row(u)
    }
}
