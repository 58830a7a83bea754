//! Arcs along which a root reaches all vertices, and vertices that too few arcs enter.

ghost use Rattle.std.specs.Prelude.{◌<◌, ◌^◌, length};

use crate::arrangement::{Arrangement, Group};
use crate::graph::Graph;
use crate::styles::{style_of_set, styles_of_set};
use mat_reasons::entering;
use mat_sets::ElemSet;
use mat_text::{Noun, Text, many};
use std::alloc::{AllocError, Global};

/// How the cheapest arcs are drawn. The only error is want of memory.
pub(crate) fn arranged_cheapest(
    alloc: Global,
    graph: &Graph<'_>,
    root: u32,
    arcs: &ElemSet,
) -> Result<Arrangement, AllocError> {
    Ok(Arrangement {
        groups: Vec::new(alloc),
        styles: styles_of_set(alloc, "not taken", "taken", 0)?,
        style_of: style_of_set(alloc, graph.edges(), arcs)?,
        marked: Some(root),
        is_priced: true,
        notes: Text::new(alloc),
    })
}

/// How vertices are drawn that too few arcs enter: so many are needed. The only error is want of memory.
pub(crate) fn arranged_entered(
    alloc: Global,
    graph: &Graph<'_>,
    root: u32,
    set: &ElemSet,
    needed: u32,
) -> Result<Arrangement, AllocError>
    requires { length graph.now.ends.pairs.now < 2 ^ 32 }
{
    let entering = entering(alloc, graph.ends.pairs, set)?;
    let mut notes = Text::new(alloc);
    notes.say(format_args!(
        "Into the shaded vertices: {}, and {needed} needed.",
        many(entering.len(), Noun::Arc)
    ))?;
    let mut groups = Vec::new(alloc);
    groups.push(Group {
        vertices: set.copy(alloc)?,
        colour: 1,
    })?;
    Ok(Arrangement {
        groups,
        styles: styles_of_set(alloc, "other arcs", "into the shaded vertices", 1)?,
        style_of: style_of_set(alloc, graph.edges(), &entering)?,
        marked: Some(root),
        is_priced: false,
        notes,
    })
}
