//! What the root reaches.
ghost use Rattle.std.specs.Prelude.{◌<◌, ℕ, length, IfOk, MatchOption};
ghost use Rattle.mat_sets.specs.Graphs.{ends_of, IsGraph};
ghost use Rattle.mat_arbor.specs.{Arborescences.{HasNoArborescence, IsUnreachedSet}, Growing.{IsGrownTree, Leaves}};

use mat_sets::ElemSet;
use std::alloc::{AllocError, Global};

/// The first arc that leads from a vertex of the set to one outside.
fn leaving_arc(arcs: &[(u32, u32)], set: &ElemSet) -> Option<usize>
    ensures { MatchOption result ((a : ℕ) → a < length arcs.now → ¬ Leaves (ends_of arcs.now) set.now a) (λ a. (a < length arcs.now) × Leaves (ends_of arcs.now) set.now a) }
{
    for a in 0..arcs.len() {
        let (tail, head) = arcs[a];
        if set.contains(tail) && !set.contains(head) {
            return Some(a);
        }
    }
    None
}

/// The vertices that the root reaches: the head of one arc after the other that leaves them is added. The only error is want of memory.
fn reached_from(alloc: Global, arcs: &[(u32, u32)], root: u32) -> Result<ElemSet, AllocError>
    ensures grown { IfOk result (IsGrownTree (length arcs.now) (ends_of arcs.now) root) }
    ensures closed { IfOk result (λ s. (a : ℕ) → a < length arcs.now → ¬ Leaves (ends_of arcs.now) s a) }
{
    let mut reached = ElemSet::new(alloc);
    reached.add(root)?;
    while let Some(a) = leaving_arc(arcs, &reached) {
        reached.add(arcs[a].1)?;
    }
    Ok(reached)
}

/// The vertices that the root does not reach, where there is no spanning arborescence. The only error is want of memory.
pub(crate) fn unreached_from(
    alloc: Global,
    vertices: u32,
    arcs: &[(u32, u32)],
    root: u32,
) -> Result<ElemSet, AllocError>
    requires graph { IsGraph vertices arcs.now }
    requires root { root < vertices }
    requires none { HasNoArborescence vertices arcs.now root }
    ensures { IfOk result (IsUnreachedSet vertices arcs.now root) }
{
    let reached = reached_from(alloc, arcs, root)?;
    let rest = ElemSet::all_below(alloc, vertices)?.minus(alloc, &reached)?;
    Ok(rest)
}
