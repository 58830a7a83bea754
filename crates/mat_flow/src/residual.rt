//! The graph in which the walks are sought that make one more path of the given ones.

use crate::digraph::Digraph;
use mat_sets::{BitSet, ElemSet, Relation};

/// The residual graph of disjoint paths: an arc leads from a vertex to the vertex before it and to the heads of the arcs that
/// leave that one; starts are the sources, and goals the vertices with a target before them (Schrijver, chapters 9 and 16).
#[derive(Drop)]
pub(crate) struct Residual<'a> {
    pub(crate) graph: &'a Digraph,
    pub(crate) sources: &'a ElemSet,
    pub(crate) targets: &'a ElemSet,
    pub(crate) before: &'a [Option<u32>],
}

impl Relation for Residual<'_> {
    ghost use Rattle.std.specs.Prelude.{ℕ, ◌≡◌, ◌<◌, length, Some};
    ghost use Rattle.mat_sets.specs.Sets.{is_member};
    ghost use Rattle.mat_flow.specs.LinkTables.{entry_at, residual_arc, residual_goal};

    ghost count = { λ r. r.graph.now.vertices };

    ghost sound = { λ r. (length r.before.now ≡ r.graph.now.vertices)
        × ((v u : ℕ) → entry_at r.before.now v ≡ Some u → u < r.graph.now.vertices) };

    ghost arc = { λ r. residual_arc r.graph.now.arcs r.before.now };

    ghost start = { λ r v. is_member v r.sources.now };

    ghost goal = { λ r. residual_goal r.targets.now r.before.now };

    fn size(&self) -> u32 {
        self.graph.vertices()
    }

    fn is_start(&self, v: u32) -> bool {
        self.sources.contains(v)
    }

    fn is_goal(&self, v: u32) -> bool {
        match self.before[v as usize] {
            Some(u) => self.targets.contains(u),
            None => false,
        }
    }

    fn next_arc(&self, v: u32, among: &BitSet, from: u32) -> Option<u32> {
        match self.before[v as usize] {
            Some(u) => among.next_common(self.graph.row(u), from),
            None => None,
        }
    }
}
