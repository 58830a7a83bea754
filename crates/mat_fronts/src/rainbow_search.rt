//! The search for rainbow spanning trees.
ghost use Rattle.std.specs.Prelude.{◌≡◌, ◌≤◌, length, slice_index, IfOk};
ghost use Rattle.mat_sets.specs.{
  Limits.{most_vertices, most_elements, largest_weight},
  Graphs.{IsGraph},
  Sets.{AllBelow, IsRising},
  Weights.{AreWeightsWithin},
};
ghost use Rattle.mat_work.specs.Workers.{AreWorkers};
ghost use Rattle.mat_fronts.specs.{Once.{AreLabelsOf}, Rainbow.{IsColouring, IsRainbowLadder}};

use crate::rainbow_ladder::RainbowLadder;
use mat_count::Partition;
use mat_graphic::Graphic;
use mat_sets::{ElemSet, Pairs, Weight};
use mat_split::intersect_in_turn;
use std::alloc::{AllocError, Global};

/// The colours of the edges of a set.
fn colours_on(alloc: Global, colour_of: &[u32], set: &ElemSet) -> Result<ElemSet, AllocError>
    requires { AllBelow (length colour_of.now) set.now }
    ensures colours { IfOk result (AreLabelsOf (slice_index colour_of.now) set.now) }
    ensures rises { IfOk result (λ s. IsRising s) }
{
    let mut colours = ElemSet::new(alloc);
    for e in set.as_slice() {
        colours.add(colour_of[*e as usize])?;
    }
    Ok(colours)
}

/// A heaviest forest of pairwise different colours for each size, each with a split of the weights that proves it; and where none is a
/// spanning tree, colours that show that there is none (Schrijver, chapter 41). These are the colours on the cut of the ladder. Edge e, counted
/// from 0, has the colour `colour_of[e]`, a number below `colours`, and the e-th weight. There are 1 to 500 vertices and at most 500 edges; both
/// numbers of each weight are at least -10^12 and at most 10^12; there are 1 to 16 workers, for which no thread is started, since a row takes
/// less time than a thread takes to start. The time is that of the intersection of the graphic matroid and the partition matroid of the
/// colours. The only error is want of memory.
pub fn rainbow(
    alloc: Global,
    vertices: u32,
    edges: &Pairs,
    colours: u32,
    colour_of: &[u32],
    weights: &[Weight],
    workers: u32,
) -> Result<RainbowLadder, AllocError>
    requires graph { IsGraph vertices edges.now }
    requires vertices { (1 ≤ vertices) × (vertices ≤ most_vertices) }
    requires few { length edges.now ≤ most_elements }
    requires colouring { IsColouring (length edges.now) colours colour_of.now }
    requires lengths { length weights.now ≡ length edges.now }
    requires small { AreWeightsWithin largest_weight weights.now }
    requires workers { AreWorkers workers }
    ensures { IfOk result (λ r. IsRainbowLadder vertices edges.now colours colour_of.now weights.now r.ladder.rungs.items r.ladder.cut r.missing) }
{
    let graphic = Graphic::new(alloc, vertices, edges.copy(alloc)?)?;
    let classes = Partition::one_for_each_label(alloc, colour_of, colours)?;
    let ladder = intersect_in_turn(alloc, &graphic, &classes, weights)?;
    if ladder.rungs.len() == vertices as usize {
        return Ok(RainbowLadder {
            ladder,
            missing: None,
        });
    }
    let missing = colours_on(alloc, colour_of, &ladder.cut)?;
    Ok(RainbowLadder {
        ladder,
        missing: Some(missing),
    })
}
