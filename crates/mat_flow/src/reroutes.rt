//! Which ends of disjoint paths can give way to another vertex (Schrijver, chapters 9 and 16).
ghost use Rattle.std.specs.Prelude.{◌≡◌, ℕ, List, [], true, false, Some, IfOk};
ghost use Rattle.mat_sets.specs.Sets.{is_member, with_one};
ghost use Rattle.mat_flow.specs.{Digraphs.{IsTurned}, LinkedEnds.{IsLinkedTo}, Reroutes.{AreNextEnds, AreReroutes, TellsWays}};

use crate::digraph::Digraph;
use crate::leading::leading_vertices;
use crate::link_table::LinkTable;
use crate::seeking::SearchRoom;
use crate::trails::after_table;
use crate::turned_residual::TurnedResidual;
use mat_sets::BitSet;
use std::alloc::{AllocError, Global};

/// What is kept of disjoint paths from sources to ends, so that one search tells which ends can give way to a vertex.
#[derive(Debug, Drop)]
pub struct Reroutes {
    // The vertex after each vertex.
    after: Vec<Option<u32>>,
}

impl Reroutes {
    /// What is kept of the paths with this vertex after each.
    pub(crate) fn of_table(after: Vec<Option<u32>>) -> Reroutes
        ensures { result.after.items ≡ after.items }
    {
        Reroutes { after }
    }

    /// The paths, by the vertex before each vertex. The only error is want of memory.
    pub fn links(&self, alloc: Global, vertices: u32) -> Result<LinkTable, AllocError>
        requires { (arcs : List (ℕ × ℕ)) × (sources : List ℕ) × (ends : List ℕ) × AreReroutes vertices arcs sources ends self.now }
        ensures { IfOk result (λ links. (arcs : List (ℕ × ℕ)) (sources ends : List ℕ) → AreReroutes vertices arcs sources ends self.now
            → IsLinkedTo vertices arcs sources ends links) }
    {
        let before = after_table(alloc, vertices, &self.after)?;
        Ok(LinkTable::of_table(before))
    }

    /// The vertices that are no ends and to which one path more leads: disjoint paths lead from the sources to all ends and to such a
    /// vertex. They are those from which a walk leads, in what the paths leave, to a vertex with a source after it; `back` is the graph
    /// with its arcs turned round (Schrijver, chapters 9 and 16). The only error is want of memory.
    pub fn next_ends(
        &self,
        alloc: Global,
        back: &Digraph,
        sources: &BitSet,
    ) -> Result<BitSet, AllocError>
        requires { (vertices : ℕ) × (arcs : List (ℕ × ℕ)) × (ends : List ℕ) × IsTurned vertices arcs back.now
            × AreReroutes vertices arcs sources.now ends self.now }
        ensures { IfOk result (λ found. (vertices : ℕ) (arcs : List (ℕ × ℕ)) (ends : List ℕ) → IsTurned vertices arcs back.now
            → AreReroutes vertices arcs sources.now ends self.now → AreNextEnds vertices arcs sources.now ends found) }
    {
        let residual = TurnedResidual {
            back,
            sources,
            after: &self.after,
            v: 0,
        };
        leading_vertices(alloc, &residual, back.vertices())
    }

    /// None where disjoint paths lead from the sources to all ends and to v; otherwise a set of vertices, of which the ends are
    /// those that can give way to v: disjoint paths lead to the other ends and to v. Where v is an end itself, the set is v alone.
    /// One search, back from v, in what the paths leave, which ends at the first source that it meets; `back` is the graph with its arcs
    /// turned round (Schrijver, chapters 9 and 16). The only error is want of memory.
    pub fn giving_way(
        &self,
        alloc: Global,
        back: &Digraph,
        sources: &BitSet,
        v: u32,
    ) -> Result<Option<BitSet>, AllocError>
        requires { (vertices : ℕ) × (arcs : List (ℕ × ℕ)) × (ends : List ℕ) × IsTurned vertices arcs back.now
            × AreReroutes vertices arcs sources.now ends self.now }
        ensures ways { IfOk result (λ ways. (vertices : ℕ) (arcs : List (ℕ × ℕ)) (ends : List ℕ) → IsTurned vertices arcs back.now
            → AreReroutes vertices arcs sources.now ends self.now → is_member v ends ≡ false → TellsWays arcs sources.now ends v ways) }
        ensures own { IfOk result (λ ways. (vertices : ℕ) (arcs : List (ℕ × ℕ)) (ends : List ℕ) → IsTurned vertices arcs back.now
            → AreReroutes vertices arcs sources.now ends self.now → is_member v ends ≡ true → ways ≡ Some (with_one [] v)) }
    {
        let mut room = SearchRoom::new(alloc, back.vertices())?;
        let residual = TurnedResidual {
            back,
            sources,
            after: &self.after,
            v,
        };
        match room.seek(alloc, &residual)? {
            Some(_) => Ok(None),
            None => Ok(Some(room.reached(alloc, back.vertices())?)),
        }
    }
}
