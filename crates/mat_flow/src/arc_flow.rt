//! Paths from one vertex to another that share no arc, or a cut that few live arcs enter.
ghost use Rattle.std.specs.Prelude.{◌≡◌, ◌≢◌, ◌<◌, ◌↔◌, ℕ, true, Some, length, IfOk};
ghost use Rattle.mat_sets.specs.{Graphs.{ends_of, IsGraph}, Sets.{AllBelow, IsSet}};
ghost use Rattle.mat_flow.specs.{
  ArcAnswers.{is_arc_cut, HasNoArcPaths, IsArcAnswer},
  LineGraphs.{AreLeaving, IsLeftOut},
  LinkTables.{entry_at},
};

use crate::arc_residual::ArcResidual;
use crate::digraph::Digraph;
use crate::link_table::{no_links, shift_along};
use crate::trails::{after_table, paths_among};
use crate::walk::ArcPath;
use mat_sets::{BitRows, ElemSet, WalkSearch, shortest_walk};
use std::alloc::{AllocError, Global};

/// So many paths that share no arc, or the cut that shows that there are not so many.
#[derive(Debug, Drop)]
pub enum ArcAnswer {
    /// Paths from the one vertex to the other: no arc stands in two of them, nor twice in one.
    Paths(Vec<ArcPath>),
    /// A vertex set with the end of the paths and without their start, that fewer live arcs enter.
    Cut(ElemSet),
}

// For each vertex the live arcs that leave it.
fn leaving_rows(
    alloc: Global,
    vertices: u32,
    arcs: &[(u32, u32)],
    live: &[u32],
) -> Result<BitRows, AllocError>
    requires graph { IsGraph vertices arcs.now }
    requires live { AllBelow (length arcs.now) live.now }
    ensures { IfOk result (λ rows. AreLeaving vertices (ends_of arcs.now) live.now rows) }
{
    let mut rows = BitRows::with_rows(alloc, vertices, 0)?;
    for a in live {
        rows.insert(arcs[*a as usize].0, *a)?;
    }
    Ok(rows)
}

// The vertices but `from` and the heads of the arcs before reached ones.
fn left_out(
    alloc: Global,
    vertices: u32,
    arcs: &[(u32, u32)],
    from: u32,
    before: &[Option<u32>],
    reached: &[u32],
) -> Result<ElemSet, AllocError>
    requires inside { AllBelow (length before.now) reached.now }
    requires below { (a u : ℕ) → entry_at before.now a ≡ Some u → u < length arcs.now }
    ensures set { IfOk result (λ cut. IsSet vertices cut) }
    ensures members { IfOk result (λ cut. IsLeftOut vertices (ends_of arcs.now) from before.now reached.now cut) }
{
    let mut cut = ElemSet::all_below(alloc, vertices)?;
    cut.take_out(from);
    for a in reached {
        if let Some(u) = before[*a as usize] {
            cut.take_out(arcs[u as usize].1);
        }
    }
    Ok(cut)
}

/// `want` paths along live arcs from one vertex to another, of which no two share an arc, by shortest augmenting walks from arc to arc; or a
/// vertex set with the end and without the start that fewer than `want` live arcs enter (Menger's theorem for arcs; Schrijver, chapter 9):
/// the set comes exactly where there are not so many paths.
/// There is one search for each path that is found, and one more where the set comes; each asks an arc at most once for the arcs that follow
/// it. The only error is want of memory.
pub fn arc_paths(
    alloc: Global,
    graph: &Digraph,
    live: &ElemSet,
    from: u32,
    to: u32,
    want: u32,
) -> Result<ArcAnswer, AllocError>
    requires live { AllBelow (length graph.now.arcs) live.now }
    requires from { from < graph.now.vertices }
    requires to { to < graph.now.vertices }
    requires differ { from ≢ to }
    ensures right { IfOk result (IsArcAnswer graph.now.vertices (ends_of graph.now.arcs) live.now from to want) }
    ensures cut { IfOk result (λ answer. (is_arc_cut answer ≡ true) ↔ HasNoArcPaths (ends_of graph.now.arcs) live.now from to want) }
{
    let arcs = graph.arcs().as_slice();
    let count = arcs.len() as u32;
    let leaving = leaving_rows(alloc, graph.vertices(), arcs, live.as_slice())?;
    let mut before = no_links(alloc, count)?;
    for _ in 0..want {
        let residual = ArcResidual {
            graph,
            live,
            leaving: &leaving,
            from,
            to,
            before: &before,
        };
        match shortest_walk(alloc, &residual)? {
            WalkSearch::Walk(walk) => shift_along(&mut before, &walk, None),
            WalkSearch::Reached(reached) => {
                let cut = left_out(
                    alloc,
                    graph.vertices(),
                    arcs,
                    from,
                    &before,
                    reached.as_slice(),
                )?;
                return Ok(ArcAnswer::Cut(cut));
            }
        }
    }
    let after = after_table(alloc, count, &before)?;
    let all = ElemSet::all_below(alloc, count)?;
    let paths = paths_among(alloc, &before, &after, all.as_slice())?;
    Ok(ArcAnswer::Paths(paths))
}
