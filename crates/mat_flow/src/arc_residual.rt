//! The residual graph in which the walks are sought that make one more path that shares no arc with the given ones.
ghost use Rattle.std.specs.Prelude.{◌&&◌, ◌||◌, ◌==◌};
ghost use Rattle.mat_sets.specs.{Search.{IsNextFrom}, Sets.{is_member}};

use crate::digraph::Digraph;
use mat_sets::{BitRows, BitSet, ElemSet, Relation};

/// The residual graph of the line graph of the live arcs, whose vertices are the arcs: starts are the live arcs that leave `from`, and
/// goals the arcs with an arc to `to` before them.
#[derive(Drop)]
pub(crate) struct ArcResidual<'a> {
    pub(crate) graph: &'a Digraph,
    pub(crate) live: &'a ElemSet,
    // For each vertex the live arcs that leave it.
    pub(crate) leaving: &'a BitRows,
    pub(crate) from: u32,
    pub(crate) to: u32,
    pub(crate) before: &'a [Option<u32>],
}

/// The first number from `from` on among these that is u or in the row.
pub(crate) fn next_of(u: u32, row: &BitSet, among: &BitSet, from: u32) -> Option<u32>
    ensures { IsNextFrom (λ b. is_member b among.now && (b == u || is_member b row.now)) from result }
{
    let next = among.next_common(row, from);
    if u < from || !among.contains(u) {
        return next;
    }
    match next {
        Some(b) => Some(b.min(u)),
        None => Some(u),
    }
}

impl Relation for ArcResidual<'_> {
    ghost use Rattle.std.specs.Prelude.{ℕ, ◌≡◌, ◌<◌, length, Some};
    ghost use Rattle.mat_sets.specs.{Graphs.{ends_of, IsGraph}, Sets.{is_member}};
    ghost use Rattle.mat_flow.specs.{
      LineGraphs.{arcs_from, arcs_to, line_arcs, AreLeaving},
      LinkTables.{entry_at, residual_arc, residual_goal},
    };

    ghost count = { λ r. length r.graph.now.arcs };

    ghost sound = { λ r. IsGraph r.graph.now.vertices r.graph.now.arcs × (r.from < r.graph.now.vertices)
        × AreLeaving r.graph.now.vertices (ends_of r.graph.now.arcs) r.live.now r.leaving.now
        × (length r.before.now ≡ length r.graph.now.arcs)
        × ((a u : ℕ) → entry_at r.before.now a ≡ Some u → u < length r.graph.now.arcs) };

    ghost arc = { λ r. residual_arc (line_arcs (ends_of r.graph.now.arcs) (length r.graph.now.arcs) r.live.now) r.before.now };

    ghost start = { λ r a. is_member a (arcs_from (ends_of r.graph.now.arcs) r.live.now r.from) };

    ghost goal = { λ r. residual_goal (arcs_to (ends_of r.graph.now.arcs) (length r.graph.now.arcs) r.to) r.before.now };

    fn size(&self) -> u32 {
        self.graph.arcs().len() as u32
    }

    fn is_start(&self, a: u32) -> bool {
        self.leaving.row(self.from).contains(a)
    }

    fn is_goal(&self, a: u32) -> bool {
        match self.before[a as usize] {
            Some(u) => self.graph.arcs().get(u as usize).1 == self.to,
            None => false,
        }
    }

    #[tactic(auto, using(crate::proofs::ArcFlows::next_there))]
    fn next_arc(&self, a: u32, among: &BitSet, from: u32) -> Option<u32> {
        match self.before[a as usize] {
            Some(u) => {
                let head = self.graph.arcs().get(u as usize).1;
                next_of(u, self.leaving.row(head), among, from)
            }
            None => None,
        }
    }
}
