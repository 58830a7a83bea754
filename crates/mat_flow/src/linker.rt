//! Disjoint paths to a growing set of ends, by searches back from new ends (Schrijver, chapters 9 and 16).
ghost use Rattle.std.specs.Prelude.{◌≡◌, ◌↔◌, ℕ, List, [], true, false, if◌then◌else◌, IfOk};
ghost use Rattle.mat_sets.specs.{Graphs.{IsGraph}, Sets.{is_member, with_one, AllBelow}};
ghost use Rattle.mat_flow.specs.{Digraphs.{IsTurned}, LinkedEnds.{IsLinkedTo, IsLinker}, Paths.{HasPathsToEach}, Reroutes.{AreReroutes}};

use crate::digraph::Digraph;
use crate::link_table::{LinkTable, no_links, shift_along};
use crate::reroutes::Reroutes;
use crate::seeking::SearchRoom;
use crate::trails::after_table;
use crate::turned_residual::TurnedResidual;
use mat_sets::BitSet;
use std::alloc::{AllocError, Global};

/// Disjoint paths of a directed graph from sources to a growing set of ends. It takes a few bytes for each vertex.
#[derive(Debug, Drop)]
pub struct Linker {
    // The vertex after each vertex: itself where no path passes it, and none where a path ends.
    after: Vec<Option<u32>>,
    room: SearchRoom,
}

impl Linker {
    /// No paths yet, in a graph of this many vertices. The only error is want of memory.
    pub fn new(alloc: Global, vertices: u32) -> Result<Linker, AllocError>
        ensures { IfOk result (λ linker. (arcs : List (ℕ × ℕ)) (sources : List ℕ) → IsLinker vertices arcs sources [] linker) }
    {
        let after = no_links(alloc, vertices)?;
        let room = SearchRoom::new(alloc, vertices)?;
        Ok(Linker { after, room })
    }

    /// The paths of a table, in a graph of this many vertices. The only error is want of memory.
    pub fn of_table(alloc: Global, vertices: u32, links: &LinkTable) -> Result<Linker, AllocError>
        requires { (arcs : List (ℕ × ℕ)) × (sources : List ℕ) × (ends : List ℕ) × IsLinkedTo vertices arcs sources ends links.now }
        ensures { IfOk result (λ linker. (arcs : List (ℕ × ℕ)) (sources ends : List ℕ) → IsLinkedTo vertices arcs sources ends links.now
            → IsLinker vertices arcs sources ends linker) }
    {
        let after = after_table(alloc, vertices, links.before())?;
        let room = SearchRoom::new(alloc, vertices)?;
        Ok(Linker { after, room })
    }

    /// Makes v an end beside the present ones, where it is none yet and disjoint paths lead from the sources to all of them and to v,
    /// and tells whether that is so: one search back from v in what the paths leave, which ends at the first source that it meets; `back`
    /// is the graph with its arcs turned round (Schrijver, chapters 9 and 16). No later search comes again to what one has reached in
    /// vain. The only error is want of memory.
    pub fn link(
        &mut self,
        alloc: Global,
        graph: &Digraph,
        back: &Digraph,
        sources: &BitSet,
        v: u32,
    ) -> Result<bool, AllocError>
        requires back { IsTurned graph.now.vertices graph.now.arcs back.now }
        requires sources { AllBelow graph.now.vertices sources.now }
        requires paths { (ends : List ℕ) × IsLinker graph.now.vertices graph.now.arcs sources.now ends self.old }
        ensures ends { IfOk result (λ found. (ends : List ℕ) → IsLinker graph.now.vertices graph.now.arcs sources.now ends self.old
            → IsLinker graph.now.vertices graph.now.arcs sources.now (if found then with_one ends v else ends) self.new) }
        ensures answer { IfOk result (λ found. (ends : List ℕ) → IsLinker graph.now.vertices graph.now.arcs sources.now ends self.old
            → (found ≡ true) ↔ ((is_member v ends ≡ false) × HasPathsToEach graph.now.arcs sources.now (with_one ends v))) }
    {
        // (asking for the number of vertices tells the proof that the ends of the arcs are below it)
        let _ = graph.vertices();
        let residual = TurnedResidual {
            back,
            sources,
            after: &self.after,
            v,
        };
        match self.room.seek(alloc, &residual)? {
            Some(walk) => {
                shift_along(&mut self.after, &walk, None);
                Ok(true)
            }
            None => Ok(false),
        }
    }

    /// What is kept of the paths, so that one search tells which ends can give way to a vertex. It takes no memory.
    pub fn into_reroutes(self) -> Reroutes
        ensures { (vertices : ℕ) (arcs : List (ℕ × ℕ)) (sources ends : List ℕ) → IsGraph vertices arcs → AllBelow vertices sources
            → IsLinker vertices arcs sources ends self → AreReroutes vertices arcs sources ends result }
    {
        Reroutes::of_table(self.after)
    }
}
