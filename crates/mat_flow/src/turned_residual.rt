//! The graph in which walks are sought back from a new end of disjoint paths.

use crate::digraph::Digraph;
use crate::search_graph::SearchGraph;
use mat_sets::BitSet;

/// The residual graph of disjoint paths, read from their ends, by the graph with its arcs turned round and the vertex after each vertex:
/// the start is one vertex, and goals are the vertices with a source after them (Schrijver, chapters 9 and 16).
#[derive(Drop)]
pub(crate) struct TurnedResidual<'a> {
    pub(crate) back: &'a Digraph,
    pub(crate) sources: &'a BitSet,
    pub(crate) after: &'a [Option<u32>],
    pub(crate) v: u32,
}

impl SearchGraph for TurnedResidual<'_> {
    ghost use Rattle.std.specs.Prelude.{ℕ, ◌≡◌, ◌<◌, [], length, Some};
    ghost use Rattle.mat_sets.specs.Sets.{is_member, with_one};
    ghost use Rattle.mat_flow.specs.LinkTables.{entry_at, residual_arc, residual_goal};

    ghost count = { λ r. r.back.now.vertices };

    ghost sound = { λ r. (length r.after.now ≡ r.back.now.vertices)
        × ((v u : ℕ) → entry_at r.after.now v ≡ Some u → u < r.back.now.vertices) };

    ghost arc = { λ r. residual_arc r.back.now.arcs r.after.now };

    ghost start = { λ r u. is_member u (with_one [] r.v) };

    ghost goal = { λ r. residual_goal r.sources.now r.after.now };

    fn is_goal(&self, u: u32) -> bool {
        match self.after[u as usize] {
            Some(w) => self.sources.contains(w),
            None => false,
        }
    }

    fn next_start(&self, among: &BitSet, from: u32) -> Option<u32> {
        if from <= self.v && among.contains(self.v) {
            Some(self.v)
        } else {
            None
        }
    }

    fn next_arc(&self, u: u32, among: &BitSet, from: u32) -> Option<u32> {
        match self.after[u as usize] {
            Some(w) => among.next_common(self.back.row(w), from),
            None => None,
        }
    }
}
