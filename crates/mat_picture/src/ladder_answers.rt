//! Answers with ladders.

ghost use Rattle.std.specs.Prelude.{◌≡◌, ◌<◌, ◌^◌, length, IfOk};
ghost use Rattle.mat_problem.specs.{Validity.{IsValid}, Views.{instance_of}};
ghost use Rattle.mat_sets.specs.Graphs.{IsGraph};

use crate::drawn_graph::draw_graph;
use crate::rainbow::arranged_rainbow;
use crate::scene::Scene;
use mat_cert::{PlainRung, PricedRung};
use mat_charts::{Canvas, Ladder, Table, draw_ladder, draw_table, steps_of};
use mat_graphic::Graphic;
use mat_reasons::{Step, best_of, left_groups, plain_steps};
use mat_sets::{ElemSet, Pairs};
use mat_text::Noun;
use std::alloc::{AllocError, Global};

// Draws steps, and gives the number of the best.
fn draw_steps<'a>(
    canvas: &mut Canvas,
    scene: &Scene<'a>,
    noun: Noun,
    steps: &'a [Step<'a>],
) -> Result<usize, AllocError>
    requires { 0 < length steps.now }
    ensures { IfOk result (λ best. best < length steps.now) }
{
    let best = best_of(steps);
    let ladder = Ladder {
        called: scene.called,
        noun,
        weights: scene.weights(),
        steps,
        best,
    };
    draw_ladder(canvas, &ladder)?;
    Ok(best)
}

/// Draws heaviest sets that one matroid allows. The only error is want of memory.
pub(crate) fn draw_plain(
    canvas: &mut Canvas,
    scene: &Scene<'_>,
    rungs: &[PlainRung],
) -> Result<(), AllocError>
    requires { 0 < length rungs.now }
{
    let steps = plain_steps(canvas.alloc(), rungs)?;
    let _best = draw_steps(canvas, scene, Noun::Element, &steps)?;
    Ok(())
}

/// Draws heaviest sets that two rules allow, and gives the best of them. The only error is want of memory.
pub(crate) fn draw_priced<'a>(
    canvas: &mut Canvas,
    scene: &Scene<'_>,
    noun: Noun,
    rungs: &'a [PricedRung],
) -> Result<&'a ElemSet, AllocError>
    requires { 0 < length rungs.now }
{
    let steps = steps_of(canvas.alloc(), rungs)?;
    let best = draw_steps(canvas, scene, noun, &steps)?;
    Ok(&rungs[best].set)
}

/// Draws heaviest sets of cells, and the table with the best of them. The only error is want of memory.
pub(crate) fn draw_assignment(
    canvas: &mut Canvas,
    scene: &Scene<'_>,
    cells: &Pairs,
    rungs: &[PricedRung],
    cut: &ElemSet,
) -> Result<(), AllocError>
    requires some { 0 < length rungs.now }
    requires few { length cells.now < 2 ^ 32 }
{
    let best = draw_priced(canvas, scene, Noun::Cell, rungs)?;
    if cells.len() == 0 {
        return Ok(());
    }
    let table = Table {
        called: scene.called,
        cells,
        weights: scene.weights(),
        best,
        cut,
    };
    draw_table(canvas, &table)
}

// The groups of vertices that are left without the edges of the missing colours: none where no colours are missing.
fn groups_without(
    alloc: Global,
    vertices: u32,
    edges: &Pairs,
    colour_of: &[u32],
    missing: &Option<ElemSet>,
) -> Result<Vec<ElemSet>, AllocError>
    requires graph { IsGraph vertices edges.now }
    requires few { length colour_of.now < 2 ^ 32 }
    requires long { length colour_of.now ≡ length edges.now }
{
    match missing {
        Some(missing) => {
            let graph = Graphic::new(alloc, vertices, edges.copy(alloc)?)?;
            left_groups(alloc, &graph, colour_of, missing)
        }
        None => Ok(Vec::new(alloc)),
    }
}

/// Draws heaviest forests of edges of different colours, and the graph with the best of them. The only error is want of memory.
pub(crate) fn draw_rainbow(
    canvas: &mut Canvas,
    scene: &Scene<'_>,
    vertices: u32,
    edges: &Pairs,
    colour_of: &[u32],
    rungs: &[PricedRung],
    missing: &Option<ElemSet>,
) -> Result<(), AllocError>
    requires valid { IsValid (instance_of scene.now.problem.now) }
    requires some { 0 < length rungs.now }
    requires graph { IsGraph vertices edges.now }
    requires few { length colour_of.now < 2 ^ 32 }
    requires long { length colour_of.now ≡ length edges.now }
{
    let alloc = canvas.alloc();
    let best = draw_priced(canvas, scene, Noun::Edge, rungs)?;
    let groups = groups_without(alloc, vertices, edges, colour_of, missing)?;
    let Some(graph) = scene.graph() else {
        return Ok(());
    };
    let arrangement = arranged_rainbow(alloc, colour_of, best, missing, &groups)?;
    draw_graph(canvas, &graph, &arrangement)
}
