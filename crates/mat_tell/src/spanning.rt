//! Spanning trees that share no edge.

ghost use Rattle.std.specs.Prelude.{◌<◌, ◌^◌, length};

use mat_reasons::crossing;
use mat_sets::ElemSet;
use mat_text::{
    Ends, Noun, Text, many, outside, tell_found, tell_groups, tell_none, tell_numbered,
};
use std::alloc::AllocError;

// Tells what is wanted: so many trees.
fn tell_wanted(
    text: &mut Text,
    ends: &Ends<'_>,
    vertices: u32,
    trees: usize,
) -> Result<(), AllocError> {
    text.say(format_args!(
        "Wanted: of {} between {} {} without a common edge. A spanning tree joins all vertices, and has no ring.",
        many(ends.pairs.len(), Noun::Edge),
        many(vertices as usize, Noun::Vertex),
        many(trees, Noun::SpanningTree)
    ))
}

// Tells which edges are in no tree, where there are such.
fn tell_left(text: &mut Text, ends: &Ends<'_>, trees: &[ElemSet]) -> Result<(), AllocError>
    requires { length ends.now.pairs.now < 2 ^ 32 }
{
    let left = outside(text.alloc(), ends.pairs.len() as u32, trees)?;
    if left.is_empty() {
        return Ok(());
    }
    let words = ends.words(text.alloc(), &left)?;
    text.list(
        format_args!("in no tree, {}", many(left.len(), Noun::Edge)),
        &words,
    )
}

/// Tells spanning trees without a common edge. The only error is want of memory.
pub(crate) fn tell_trees(
    text: &mut Text,
    ends: &Ends<'_>,
    vertices: u32,
    trees: &[ElemSet],
) -> Result<(), AllocError>
    requires { length ends.now.pairs.now < 2 ^ 32 }
{
    tell_wanted(text, ends, vertices, trees.len())?;
    tell_found(text, trees.len(), Noun::Tree, vertices, Noun::Edge)?;
    tell_numbered(text, ends, Noun::Tree, trees)?;
    tell_left(text, ends, trees)?;
    if trees.len() < 2 || vertices < 2 {
        return Ok(());
    }
    text.say(format_args!(
        "So all vertices stay joined after the loss of any {}.",
        many(trees.len() - 1, Noun::Edge)
    ))
}

// Tells how many edges between groups so many trees need, and how many are missing.
fn tell_missing(
    text: &mut Text,
    trees: u32,
    groups: usize,
    crossing: usize,
) -> Result<(), AllocError> {
    let each = groups.saturating_sub(1);
    let needed = each.saturating_mul(trees as usize);
    text.detail(format_args!(
        "Each tree needs {each} of them to join {}: with {} {trees} * {each} = {needed}.",
        many(groups, Noun::Group),
        many(trees as usize, Noun::Tree)
    ))?;
    text.detail(format_args!(
        "So between groups there have to be at least {} more.",
        many(needed.saturating_sub(crossing), Noun::Edge)
    ))
}

/// Tells that there are not so many disjoint spanning trees, since too few edges join these classes of vertices (Tutte; Nash-Williams; Schrijver,
/// chapter 51). The only error is want of memory.
pub(crate) fn tell_no_trees(
    text: &mut Text,
    ends: &Ends<'_>,
    vertices: u32,
    trees: u32,
    classes: &[ElemSet],
) -> Result<(), AllocError>
    requires { length ends.now.pairs.now < 2 ^ 32 }
{
    tell_wanted(text, ends, vertices, trees as usize)?;
    tell_none(text)?;
    text.detail(format_args!(
        "Put the vertices into {}:",
        many(classes.len(), Noun::Group)
    ))?;
    tell_groups(text, &ends.called, classes)?;
    let crossing = crossing(text.alloc(), ends.pairs, classes)?;
    let words = ends.words(text.alloc(), &crossing)?;
    text.list(
        format_args!("Edges between groups, {} in all", crossing.len()),
        &words,
    )?;
    tell_missing(text, trees, classes.len(), crossing.len())
}
