//! The largest number of disjoint paths from sources to targets, with a separator of as many vertices.
ghost use Rattle.std.specs.Prelude.{◌≡◌, ℕ, true, false, IfOk};
ghost use Rattle.mat_sets.specs.{Sets.{is_member, AllBelow}, Walks.{IsReachedSet}};
ghost use Rattle.mat_flow.specs.{LinkTables.{residual_arc, residual_goal, IsLinkTable}, Paths.{IsLinking}};

use crate::digraph::Digraph;
use crate::link_table::{no_links, shift_along};
use crate::residual::Residual;
use crate::separator::frontier;
use crate::trails::{after_table, paths_among};
use crate::walk::Walk;
use mat_sets::{ElemSet, WalkSearch, shortest_walk};
use std::alloc::{AllocError, Global};

/// Disjoint paths from sources to targets, and a separator of as many vertices, which shows that there are no more.
#[derive(Debug, Drop)]
pub struct Linking {
    /// Paths from sources to targets: no vertex stands in two of them, nor twice in one.
    pub paths: Vec<Walk>,
    /// A set of vertices that each path from a source to a target meets.
    pub separator: ElemSet,
}

// The paths of a table and their separator, where the sources reach no goal of the residual graph.
fn linking_of(alloc: Global, residual: &Residual, reached: &ElemSet) -> Result<Linking, AllocError>
    requires sources { AllBelow residual.now.graph.now.vertices residual.now.sources.now }
    requires table { IsLinkTable residual.now.graph.now.vertices residual.now.graph.now.arcs residual.now.sources.now
        residual.now.targets.now residual.now.before.now }
    requires reached { IsReachedSet residual.now.graph.now.vertices (residual_arc residual.now.graph.now.arcs residual.now.before.now)
        (λ v. is_member v residual.now.sources.now) reached.now }
    requires missed { (v : ℕ) → is_member v reached.now ≡ true → residual_goal residual.now.targets.now residual.now.before.now v ≡ false }
    ensures { IfOk result (λ l. IsLinking residual.now.graph.now.arcs residual.now.sources.now residual.now.targets.now
        l.paths.items l.separator) }
{
    let after = after_table(alloc, residual.graph.vertices(), residual.before)?;
    let paths = paths_among(alloc, residual.before, &after, reached.as_slice())?;
    let separator = frontier(alloc, residual.before, reached)?;
    Ok(Linking { paths, separator })
}

/// As many disjoint paths from sources to targets as there are, by shortest augmenting walks, and a separator of as many
/// vertices (Menger's theorem; Schrijver, chapter 9). A vertex that is a source and a target may be a path by itself. There is
/// one search for each path and one more, and each reads the rows of bits of the graph at most once. The only error is want of
/// memory.
pub fn linked(
    alloc: Global,
    graph: &Digraph,
    sources: &ElemSet,
    targets: &ElemSet,
) -> Result<Linking, AllocError>
    requires sources { AllBelow graph.now.vertices sources.now }
    requires targets { AllBelow graph.now.vertices targets.now }
    ensures { IfOk result (λ l. IsLinking graph.now.arcs sources.now targets.now l.paths.items l.separator) }
{
    let mut before = no_links(alloc, graph.vertices())?;
    loop {
        let residual = Residual {
            graph,
            sources,
            targets,
            before: &before,
        };
        match shortest_walk(alloc, &residual)? {
            WalkSearch::Walk(walk) => shift_along(&mut before, &walk, None),
            WalkSearch::Reached(reached) => return linking_of(alloc, &residual, &reached),
        }
    }
}
