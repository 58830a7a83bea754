//! What is asked of paths that share no arc: whether each vertex set is entered often enough, and whether an arc can be spared.
ghost use Rattle.std.specs.Prelude.{◌≡◌, ◌≢◌, ◌<◌, true, length, IfOk};
ghost use Rattle.mat_sets.specs.{Graphs.{ends_of}, Sets.{is_member, IsSet}};
ghost use Rattle.mat_branch.specs.Growth.{AreEntered, TellsSeldom, TellsSpare};

use mat_flow::{ArcAnswer, Digraph, arc_paths};
use mat_sets::ElemSet;
use std::alloc::{AllocError, Global};

/// A vertex set that is not empty, does not hold the root and is entered by fewer than k live arcs, if there is one. There is one exactly
/// where fewer than k paths that share no live arc lead from the root to some other vertex (Menger), so at most k paths are sought to each
/// vertex. The only error is want of memory.
pub(crate) fn seldom_entered(
    alloc: Global,
    graph: &Digraph,
    live: &ElemSet,
    root: u32,
    k: u32,
) -> Result<Option<ElemSet>, AllocError>
    requires root { root < graph.now.vertices }
    requires live { IsSet (length graph.now.arcs) live.now }
    ensures { IfOk result (TellsSeldom graph.now.vertices root (ends_of graph.now.arcs) live.now k) }
{
    for v in 0..graph.vertices() {
        if v != root {
            match arc_paths(alloc, graph, live, root, v, k)? {
                ArcAnswer::Paths(_) => {}
                ArcAnswer::Cut(cut) => return Ok(Some(cut)),
            }
        }
    }
    Ok(None)
}

/// Whether without the arc each non-empty vertex set without the root is still entered by at least m live arcs: that is so exactly where
/// m paths that share no arc lead from the root to the head of the arc along the other live arcs (Menger). The only error is want of memory.
pub(crate) fn can_spare(
    alloc: Global,
    graph: &Digraph,
    live: &ElemSet,
    root: u32,
    m: u32,
    a: u32,
) -> Result<bool, AllocError>
    requires root { root < graph.now.vertices }
    requires live { IsSet (length graph.now.arcs) live.now }
    requires entered { AreEntered graph.now.vertices root (ends_of graph.now.arcs) live.now m }
    requires arc { is_member a live.now ≡ true }
    requires head { (ends_of graph.now.arcs a).1 ≢ root }
    ensures { IfOk result (TellsSpare graph.now.vertices root (ends_of graph.now.arcs) live.now m a) }
{
    if m == 0 {
        return Ok(true);
    }
    let rest = live.without(alloc, a)?;
    let head = graph.arcs().get(a as usize).1;
    match arc_paths(alloc, graph, &rest, root, head, m)? {
        ArcAnswer::Paths(_) => Ok(true),
        ArcAnswer::Cut(_) => Ok(false),
    }
}
