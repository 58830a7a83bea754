//! Answers about graphs and tables.

ghost use Rattle.mat_cert.specs.{Certificates.{IsRanged}, Views.{certificate_of}};
ghost use Rattle.mat_problem.specs.{Validity.{IsValid}, Instances.{coloured, graph, rooted, table}};
ghost use Rattle.mat_right.specs.Right.{IsRight};

use crate::arborescences::{
    Cheapest, Network, tell_cheapest, tell_disjoint, tell_not_disjoint, tell_unreached,
};
use crate::assigned::{Table, tell_assignment};
use crate::rainbow::{Coloured, tell_rainbow};
use crate::spanning::{tell_no_trees, tell_trees};
use mat_cert::Answer;
use mat_text::{Ends, Text};
use std::alloc::AllocError;

/// Tells a right answer about a graph. The only error is want of memory.
pub(crate) fn tell_graph(
    text: &mut Text,
    ends: &Ends<'_>,
    vertices: u32,
    answer: &Answer,
) -> Result<(), AllocError>
    requires valid { IsValid (graph vertices ends.now.pairs.now) }
    requires ranged { IsRanged (certificate_of answer.now) }
    requires right { IsRight (graph vertices ends.now.pairs.now) (certificate_of answer.now) }
{
    match answer {
        Answer::Trees { trees, .. } => tell_trees(text, ends, vertices, trees.as_slice()),
        Answer::TreesNone { k, classes, .. } => {
            tell_no_trees(text, ends, vertices, *k, classes.as_slice())
        }
        _ => unreachable!(),
    }
}

/// Tells a right answer about a directed graph. The only error is want of memory.
pub(crate) fn tell_rooted(
    text: &mut Text,
    network: &Network<'_>,
    answer: &Answer,
) -> Result<(), AllocError>
    requires valid { IsValid (rooted network.now.vertices network.now.root network.now.ends.pairs.now network.now.costs.now) }
    requires ranged { IsRanged (certificate_of answer.now) }
    requires right { IsRight (rooted network.now.vertices network.now.root network.now.ends.pairs.now network.now.costs.now) (certificate_of answer.now) }
{
    match answer {
        Answer::Arbor {
            cost,
            arcs,
            first,
            second,
            ..
        } => {
            let cheapest = Cheapest {
                cost: *cost,
                arcs,
                first: first.as_slice(),
                second: second.as_slice(),
            };
            tell_cheapest(text, network, &cheapest)
        }
        Answer::Unreached { set, .. } => tell_unreached(text, network, set),
        Answer::Disjoint { trees, .. } => tell_disjoint(text, network, trees.as_slice()),
        Answer::DisjointNone { k, set, .. } => tell_not_disjoint(text, network, *k, set),
        _ => unreachable!(),
    }
}

/// Tells a right answer about a graph with coloured edges. The only error is want of memory.
pub(crate) fn tell_coloured(
    text: &mut Text,
    graph: &Coloured<'_>,
    answer: &Answer,
) -> Result<(), AllocError>
    requires valid { IsValid (coloured graph.now.vertices graph.now.colours graph.now.ends.pairs.now graph.now.colour_of.now graph.now.weights.now) }
    requires ranged { IsRanged (certificate_of answer.now) }
    requires right { IsRight (coloured graph.now.vertices graph.now.colours graph.now.ends.pairs.now graph.now.colour_of.now graph.now.weights.now) (certificate_of answer.now) }
{
    match answer {
        Answer::Rainbow {
            rungs,
            cut,
            missing,
            ..
        } => tell_rainbow(text, graph, rungs, cut, missing),
        _ => unreachable!(),
    }
}

/// Tells a right answer about a table. The only error is want of memory.
pub(crate) fn tell_table(
    text: &mut Text,
    cells: &Table<'_>,
    answer: &Answer,
) -> Result<(), AllocError>
    requires valid { IsValid (table cells.now.rows cells.now.columns cells.now.cells.now cells.now.weights.now) }
    requires ranged { IsRanged (certificate_of answer.now) }
    requires right { IsRight (table cells.now.rows cells.now.columns cells.now.cells.now cells.now.weights.now) (certificate_of answer.now) }
{
    match answer {
        Answer::Assign { rungs, cut, .. } => tell_assignment(text, cells, rungs, cut),
        _ => unreachable!(),
    }
}
