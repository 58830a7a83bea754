//! Groups of vertices.

ghost use Rattle.mat_text.specs.Paragraphs.{KeepsParagraphs};

use crate::called::Called;
use crate::nouns::{Noun, many};
use crate::text::Text;
use mat_sets::ElemSet;
use std::alloc::{AllocError, Global};

// The vertices of the groups of one vertex.
fn alone(alloc: Global, groups: &[ElemSet]) -> Result<ElemSet, AllocError> {
    let mut alone = ElemSet::new(alloc);
    for group in groups {
        if let [vertex] = group.as_slice() {
            alone.add(*vertex)?;
        }
    }
    Ok(alone)
}

// Tells the vertices of a group.
fn tell_group(
    text: &mut Text,
    called: &Called<'_>,
    number: usize,
    group: &ElemSet,
) -> Result<(), AllocError>
    ensures { KeepsParagraphs text.old text.new }
{
    let names = called.vertices_of(text.alloc(), group)?;
    text.item_list(
        format_args!("group {number}, {}", many(group.len(), Noun::Vertex)),
        &names,
    )
}

/// Tells groups of vertices: those of more than one in their order, and then all that are alone. The only error is want of memory.
pub fn tell_groups(
    text: &mut Text,
    called: &Called<'_>,
    groups: &[ElemSet],
) -> Result<(), AllocError>
    ensures { KeepsParagraphs text.old text.new }
{
    let mut number: usize = 0;
    for group in groups {
        if group.len() > 1 {
            number = number.saturating_add(1);
            tell_group(text, called, number, group)?;
        }
    }
    let alone = alone(text.alloc(), groups)?;
    if alone.is_empty() {
        return Ok(());
    }
    let names = called.vertices_of(text.alloc(), &alone)?;
    text.item_list(
        format_args!("each alone, {}", many(alone.len(), Noun::Vertex)),
        &names,
    )
}
