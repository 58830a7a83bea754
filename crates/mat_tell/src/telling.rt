//! The text of a right answer in words.

ghost use Rattle.std.specs.Prelude.{◌≡◌, true, IfOk};
ghost use Rattle.mat_cert.specs.{Certificates.{IsRanged}, Views.{certificate_of}};
ghost use Rattle.mat_problem.specs.{Validity.{IsValid}, Soundness.{IsSoundInstance}, Views.{instance_of}};
ghost use Rattle.mat_right.specs.Right.{IsRight};
ghost use Rattle.mat_tell.specs.Forms.{is_drawn, is_weighted};
ghost use Rattle.mat_text.specs.{Paragraphs.{AreShallow}, Texts.{IsPrintable}};

use crate::arborescences::Network;
use crate::assigned::Table;
use crate::graph_answers::{tell_coloured, tell_graph, tell_rooted, tell_table};
use crate::intersection::Pair;
use crate::matroid_answers::{tell_list, tell_pair};
use crate::rainbow::Coloured;
use crate::unions::Rules;
use mat_cert::Answer;
use mat_problem::{Named, Problem};
use mat_text::{Called, Ends, Text};
use std::alloc::{AllocError, Global};

// The most bytes of a line, except where its first word and the spaces in front of it have more. No clause says so.
const LINE: usize = 96;

// Tells a right answer to a problem whose edges or cells have weights: a graph with colours, or a table.
fn tell_weighted(
    text: &mut Text,
    called: &Called<'_>,
    problem: &Problem,
    answer: &Answer,
) -> Result<(), AllocError>
    requires valid { IsValid (instance_of problem.now) }
    requires form { is_weighted (instance_of problem.now) ≡ true }
    requires ranged { IsRanged (certificate_of answer.now) }
    requires right { IsRight (instance_of problem.now) (certificate_of answer.now) }
{
    match problem {
        Problem::Coloured {
            vertices,
            colours,
            edges,
            colour_of,
            weights,
        } => {
            let graph = Coloured {
                vertices: *vertices,
                colours: *colours,
                ends: Ends::of_edges(*called, edges),
                colour_of,
                weights: weights.as_slice(),
            };
            tell_coloured(text, &graph, answer)
        }
        Problem::Table {
            rows,
            columns,
            cells,
            weights,
        } => {
            let table = Table {
                called: *called,
                rows: *rows,
                columns: *columns,
                cells,
                weights: weights.as_slice(),
            };
            tell_table(text, &table, answer)
        }
        _ => unreachable!(),
    }
}

// Tells a right answer to a problem that states a graph or a table.
fn tell_drawn(
    text: &mut Text,
    called: &Called<'_>,
    problem: &Problem,
    answer: &Answer,
) -> Result<(), AllocError>
    requires valid { IsValid (instance_of problem.now) }
    requires form { is_drawn (instance_of problem.now) ≡ true }
    requires ranged { IsRanged (certificate_of answer.now) }
    requires right { IsRight (instance_of problem.now) (certificate_of answer.now) }
{
    match problem {
        Problem::Graph { vertices, edges } => {
            tell_graph(text, &Ends::of_edges(*called, edges), *vertices, answer)
        }
        Problem::Rooted {
            vertices,
            root,
            arcs,
            costs,
        } => {
            let network = Network {
                vertices: *vertices,
                root: *root,
                ends: Ends::of_arcs(*called, arcs),
                costs: costs.as_slice(),
            };
            tell_rooted(text, &network, answer)
        }
        weighted => tell_weighted(text, called, weighted, answer),
    }
}

// Tells a right answer to a problem.
fn tell(
    text: &mut Text,
    called: &Called<'_>,
    problem: &Problem,
    answer: &Answer,
) -> Result<(), AllocError>
    requires valid { IsValid (instance_of problem.now) }
    requires sound { IsSoundInstance (instance_of problem.now) }
    requires ranged { IsRanged (certificate_of answer.now) }
    requires right { IsRight (instance_of problem.now) (certificate_of answer.now) }
{
    match problem {
        Problem::Pair {
            weights,
            first,
            second,
        } => {
            let pair = Pair {
                weights: weights.as_slice(),
                first,
                second,
            };
            tell_pair(text, called, &pair, answer)
        }
        Problem::List { weights, matroids } => {
            let rules = Rules {
                weights: weights.as_slice(),
                matroids,
            };
            tell_list(text, called, &rules, answer)
        }
        drawn => tell_drawn(text, called, drawn, answer),
    }
}

// What the elements and the vertices of a problem with names are called.
fn called_in(named: &Named) -> Called<'_>
    ensures elements { result.elements.now ≡ named.now.elements }
    ensures vertices { result.vertices.now ≡ named.now.vertices }
{
    Called {
        elements: &named.elements,
        vertices: &named.vertices,
    }
}

/// The paragraphs on a right answer to a problem: what was wanted, what was found, and why nothing better exists. The only error is want of
/// memory.
pub fn told_text(alloc: Global, named: &Named, answer: &Answer) -> Result<Text, AllocError>
    requires valid { IsValid (instance_of named.now.problem) }
    requires ranged { IsRanged (certificate_of answer.now) }
    requires right { IsRight (instance_of named.now.problem) (certificate_of answer.now) }

    // At most four spaces stand in front of each paragraph.
    ensures { IfOk result (λ text. AreShallow text.paragraphs.items) }
{
    let mut text = Text::new(alloc);
    tell(&mut text, &called_in(named), &named.problem, answer)?;
    Ok(text)
}

/// A right answer to a problem in words, paragraph by paragraph as [`told_text`] has them, in lines of at most 96 bytes, except where the first
/// word of a line and the spaces in front of it have more. The clause speaks of the bytes alone: what the words say, and how long the lines
/// are, is tested. The only error is want of memory.
pub fn told(alloc: Global, named: &Named, answer: &Answer) -> Result<Vec<u8>, AllocError>
    requires valid { IsValid (instance_of named.now.problem) }
    requires ranged { IsRanged (certificate_of answer.now) }
    requires right { IsRight (instance_of named.now.problem) (certificate_of answer.now) }

    // The bytes of the text are line feeds, spaces and graphic ones.
    ensures printable { IfOk result (λ text. IsPrintable text.items) }
{
    told_text(alloc, named, answer)?.filled(LINE)
}
