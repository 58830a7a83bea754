//! One arborescence grows, arc by arc.
ghost use Rattle.std.specs.Prelude.{◌<◌, suc, ℕ, List, length, IfOk, OnOk};
ghost use Rattle.mat_sets.specs.{Graphs.{ends_of}, Sets.{IsSet}};
ghost use Rattle.mat_branch.specs.Growth.{AreEntered, AreRefused, Grows, IsGrown, IsTakable};

use crate::spare::can_spare;
use mat_flow::Digraph;
use mat_sets::{BitSet, ElemSet};
use std::alloc::{AllocError, Global};

/// An arc that can be taken: while some vertex is not reached there is one (Lovász 1976). Arcs that cannot be spared are put among the
/// refused ones, and are not tried again. The only error is want of memory.
fn next_arc(
    alloc: Global,
    graph: &Digraph,
    live: &ElemSet,
    reached: &BitSet,
    refused: &mut BitSet,
    root: u32,
    m: u32,
) -> Result<u32, AllocError>
    requires root { root < graph.now.vertices }
    requires grows { (first tree : List ℕ) × Grows graph.now.vertices (length graph.now.arcs) root (ends_of graph.now.arcs) first m live.now reached.now tree
        × (suc (length tree) < graph.now.vertices) }
    requires refused { AreRefused graph.now.vertices root (ends_of graph.now.arcs) live.now m refused.old }
    ensures arc { IfOk result (IsTakable graph.now.vertices root (ends_of graph.now.arcs) live.now reached.now m) }
    ensures refused { OnOk result (AreRefused graph.now.vertices root (ends_of graph.now.arcs) live.now m refused.new) }
{
    let arcs = graph.arcs();
    for a in live.as_slice() {
        let (tail, head) = arcs.get(*a as usize);
        if reached.contains(tail) && !reached.contains(head) && !refused.contains(*a) {
            if can_spare(alloc, graph, live, root, m, *a)? {
                return Ok(*a);
            }
            refused.insert(*a)?;
        }
    }
    unreachable!()
}

/// A spanning arborescence of live arcs, which are then no longer live, after which each non-empty vertex set without the root is still
/// entered by at least m live arcs. The only error is want of memory.
pub(crate) fn grow_tree(
    alloc: Global,
    graph: &Digraph,
    live: &mut ElemSet,
    root: u32,
    m: u32,
) -> Result<ElemSet, AllocError>
    requires root { root < graph.now.vertices }
    requires live { IsSet (length graph.now.arcs) live.old }
    requires entered { AreEntered graph.now.vertices root (ends_of graph.now.arcs) live.old (suc m) }
    ensures { IfOk result (IsGrown graph.now.vertices (length graph.now.arcs) root (ends_of graph.now.arcs) live.old m live.new) }
{
    let mut tree = ElemSet::new(alloc);
    let mut reached = BitSet::new(alloc);
    reached.insert(root)?;
    let mut refused = BitSet::new(alloc);
    for _ in 1..graph.vertices() {
        let a = next_arc(alloc, graph, live, &reached, &mut refused, root, m)?;
        live.take_out(a);
        tree.add(a)?;
        reached.insert(graph.arcs().get(a as usize).1)?;
    }
    Ok(tree)
}
