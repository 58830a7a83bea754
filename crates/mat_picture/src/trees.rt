//! Trees that share no edge, and classes of vertices that show that there are too few.

ghost use Rattle.std.specs.Prelude.{◌<◌, ◌^◌, length};

use crate::arrangement::Arrangement;
use crate::graph::Graph;
use crate::groups::grouped;
use crate::styles::{style_of, style_of_set, styles, styles_of_set};
use mat_reasons::crossing;
use mat_sets::ElemSet;
use mat_text::{Noun, Text, many};
use std::alloc::{AllocError, Global};

/// How sets of edges are drawn, each of which joins all vertices: the vertex `marked` is filled, if there is one. The only error is want of
/// memory.
pub(crate) fn arranged_trees(
    alloc: Global,
    graph: &Graph<'_>,
    noun: Noun,
    sets: &[ElemSet],
    marked: Option<u32>,
) -> Result<Arrangement, AllocError> {
    Ok(Arrangement {
        groups: Vec::new(alloc),
        styles: styles(alloc, noun, sets.len())?,
        style_of: style_of(alloc, graph.edges(), sets)?,
        marked,
        is_priced: false,
        notes: Text::new(alloc),
    })
}

/// How classes of vertices are drawn between which there are too few edges for so many trees. The only error is want of memory.
pub(crate) fn arranged_classes(
    alloc: Global,
    graph: &Graph<'_>,
    trees: u32,
    classes: &[ElemSet],
) -> Result<Arrangement, AllocError>
    requires { length graph.now.ends.pairs.now < 2 ^ 32 }
{
    let between = crossing(alloc, graph.ends.pairs, classes)?;
    let groups = grouped(alloc, classes)?;
    let needed = classes
        .len()
        .saturating_sub(1)
        .saturating_mul(trees as usize);
    let mut notes = Text::new(alloc);
    notes.say(format_args!(
        "Between groups: {}, and {needed} are needed.",
        many(between.len(), Noun::Edge)
    ))?;
    Ok(Arrangement {
        groups,
        styles: styles_of_set(alloc, "within a group", "between groups", 1)?,
        style_of: style_of_set(alloc, graph.edges(), &between)?,
        marked: None,
        is_priced: false,
        notes,
    })
}
