//! The picture of a right answer.

ghost use Rattle.std.specs.Prelude.{◌<◌, ◌^◌, length, IfOk};
ghost use Rattle.mat_cert.specs.{Certificates.{IsRanged}, Views.{certificate_of}};
ghost use Rattle.mat_problem.specs.{Validity.{IsValid}, Views.{instance_of}};
ghost use Rattle.mat_drawing.specs.Markup.{IsPicture};
ghost use Rattle.mat_right.specs.Right.{IsRight};
ghost use Rattle.mat_text.specs.Texts.{IsPrintable};

use crate::arborescences::{arranged_cheapest, arranged_entered};
use crate::drawn_graph::draw_graph;
use crate::frame::{Head, framed};
use crate::graph::Graph;
use crate::ladder_answers::{draw_assignment, draw_plain, draw_priced, draw_rainbow};
use crate::parts::{draw_sets, draw_union};
use crate::scene::Scene;
use crate::trees::{arranged_classes, arranged_trees};
use mat_cert::Answer;
use mat_charts::Canvas;
use mat_problem::{Named, Problem};
use mat_text::{Called, Noun, Text};
use std::alloc::{AllocError, Global};

// Draws an answer about a directed graph.
fn draw_arcs(
    canvas: &mut Canvas,
    graph: &Graph<'_>,
    root: u32,
    answer: &Answer,
) -> Result<(), AllocError>
    requires { length graph.now.ends.pairs.now < 2 ^ 32 }
{
    let alloc = canvas.alloc();
    let arrangement = match answer {
        Answer::Arbor { arcs, .. } => arranged_cheapest(alloc, graph, root, arcs)?,
        Answer::Unreached { set, .. } => arranged_entered(alloc, graph, root, set, 1)?,
        Answer::Disjoint { trees, .. } => {
            arranged_trees(alloc, graph, Noun::Set, trees.as_slice(), Some(root))?
        }
        Answer::DisjointNone { k, set, .. } => arranged_entered(alloc, graph, root, set, *k)?,
        _ => return Ok(()),
    };
    draw_graph(canvas, graph, &arrangement)
}

// Draws an answer about a graph.
fn draw_edges(canvas: &mut Canvas, graph: &Graph<'_>, answer: &Answer) -> Result<(), AllocError>
    requires { length graph.now.ends.pairs.now < 2 ^ 32 }
{
    let alloc = canvas.alloc();
    let arrangement = match answer {
        Answer::Trees { trees, .. } => {
            arranged_trees(alloc, graph, Noun::Tree, trees.as_slice(), None)?
        }
        Answer::TreesNone { k, classes, .. } => {
            arranged_classes(alloc, graph, *k, classes.as_slice())?
        }
        _ => return Ok(()),
    };
    draw_graph(canvas, graph, &arrangement)
}

// Draws an answer with edges or arcs.
fn draw_joined(canvas: &mut Canvas, scene: &Scene<'_>, answer: &Answer) -> Result<(), AllocError>
    requires { IsValid (instance_of scene.now.problem.now) }
{
    let Some(graph) = scene.graph() else {
        return Ok(());
    };
    if graph.is_directed() {
        draw_arcs(canvas, &graph, scene.root(), answer)
    } else {
        draw_edges(canvas, &graph, answer)
    }
}

// Draws an answer with parts of the elements.
fn draw_parted(canvas: &mut Canvas, scene: &Scene<'_>, answer: &Answer) -> Result<(), AllocError>
    requires { IsValid (instance_of scene.now.problem.now) }
{
    let called = &scene.called;
    match answer {
        Answer::UnionOf { parts, levels, .. } => {
            draw_union(canvas, called, scene.weights(), parts.as_slice(), levels)
        }
        Answer::Pack { count, bases, cut } => {
            let bases = bases.as_slice();
            draw_sets(
                canvas,
                called,
                scene.told,
                Noun::Base,
                *count,
                bases,
                Some(cut),
            )
        }
        Answer::Cover { count, sets, cut } => {
            let sets = sets.as_slice();
            draw_sets(
                canvas,
                called,
                scene.told,
                Noun::Set,
                *count,
                sets,
                cut.as_ref(),
            )
        }
        other => draw_joined(canvas, scene, other),
    }
}

// Draws an answer.
fn draw(canvas: &mut Canvas, scene: &Scene<'_>, answer: &Answer) -> Result<(), AllocError>
    requires valid { IsValid (instance_of scene.now.problem.now) }
    requires ranged { IsRanged (certificate_of answer.now) }
    requires right { IsRight (instance_of scene.now.problem.now) (certificate_of answer.now) }
{
    match (scene.problem, answer) {
        (_, Answer::Intersect { rungs, .. }) => {
            let _best = draw_priced(canvas, scene, Noun::Element, rungs)?;
            Ok(())
        }
        (_, Answer::Best { rungs, .. }) => draw_plain(canvas, scene, rungs),
        (Problem::Table { cells, .. }, Answer::Assign { rungs, cut, .. }) => {
            draw_assignment(canvas, scene, cells, rungs, cut)
        }
        (
            Problem::Coloured {
                vertices,
                edges,
                colour_of,
                ..
            },
            Answer::Rainbow { rungs, missing, .. },
        ) => draw_rainbow(canvas, scene, *vertices, edges, colour_of, rungs, missing),
        (_, other) => draw_parted(canvas, scene, other),
    }
}

/// A right answer to a problem as a picture with what is told of it: one SVG that needs no other file. Its markup is well formed, and names
/// are escaped in it. The only error is want of memory.
pub fn picture(
    alloc: Global,
    named: &Named,
    answer: &Answer,
    told: &Text,
) -> Result<Vec<u8>, AllocError>
    requires valid { IsValid (instance_of named.now.problem) }
    requires ranged { IsRanged (certificate_of answer.now) }
    requires right { IsRight (instance_of named.now.problem) (certificate_of answer.now) }

    // The text is one element `svg` with well-formed markup in it, and a line feed behind it.
    ensures picture { IfOk result (λ text. IsPicture text.items) }

    // The bytes of the text are line feeds, spaces and graphic ones.
    ensures printable { IfOk result (λ text. IsPrintable text.items) }
{
    let head = Head::new(alloc, told)?;
    let scene = Scene {
        called: Called {
            elements: &named.elements,
            vertices: &named.vertices,
        },
        problem: &named.problem,
        told,
    };
    let mut canvas = Canvas::new(alloc, head.width(), head.bottom());
    draw(&mut canvas, &scene, answer)?;
    framed(
        &head,
        canvas.drawing(),
        canvas.width(),
        canvas.top(),
        scene.has_arcs(),
    )
}
