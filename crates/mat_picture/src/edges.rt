//! The edges of a graph that is drawn.

use crate::arrangement::Style;
use crate::layout::Layout;
use crate::strands::Strand;
use mat_drawing::{Drawing, Look, Shape, Units};
use std::alloc::{AllocError, Global};

// The path of a loop: two arcs that meet on its far side.
fn loop_path(alloc: Global, layout: &Layout<'_>, strand: &Strand) -> Result<String, AllocError> {
    let at = layout.point(strand.tail);
    let (end, radius) = layout.loop_end(strand);
    format!(in alloc; "M{at} A{radius} {radius} 0 1 1 {end} A{radius} {radius} 0 1 1 {at}")
}

// The path of an edge: straight where none is beside it.
fn path_of(alloc: Global, layout: &Layout<'_>, strand: &Strand) -> Result<String, AllocError> {
    if strand.is_loop() {
        return loop_path(alloc, layout, strand);
    }
    let from = layout.point(strand.tail);
    let to = layout.point(strand.head);
    if strand.count == 1 {
        format!(in alloc; "M{from} L{to}")
    } else {
        let by = layout.bend(strand).by;
        format!(in alloc; "M{from} Q{by} {to}")
    }
}

// Draws an edge.
fn draw_edge(
    drawing: &mut Drawing,
    layout: &Layout<'_>,
    e: usize,
    strand: &Strand,
) -> Result<(), AllocError> {
    let alloc = drawing.alloc();
    let path = path_of(alloc, layout, strand)?;
    let title = layout.graph.title(alloc, e, strand.tail, strand.head)?;
    drawing.titled(Shape::Path(&path), &Look::PLAIN, title)
}

// How edges of a style look: directed ones end with arrow heads.
fn look_of(layout: &Layout<'_>, style: &Style) -> Look {
    let width = if layout.is_crowded() {
        style.width.saturating_add(1) / 2
    } else {
        style.width
    };
    let look = style.look(Units(width)).no_fill();
    if layout.graph.is_directed() {
        look.arrow(style.head)
    } else {
        look
    }
}

// Draws the edges of the style of this number.
fn draw_styled(
    drawing: &mut Drawing,
    layout: &Layout<'_>,
    number: usize,
    style: &Style,
) -> Result<(), AllocError> {
    let mut edges = Drawing::new(drawing.alloc());
    for (e, strand) in layout.strands.iter().enumerate() {
        if layout.arrangement.style_of.get(e) == Some(&number) {
            draw_edge(&mut edges, layout, e, strand)?;
        }
    }
    drawing.group(&look_of(layout, style), &edges)
}

// Draws the thin edges or the thick ones, style by style.
fn draw_all(drawing: &mut Drawing, layout: &Layout<'_>, are_thin: bool) -> Result<(), AllocError> {
    for (i, style) in layout.arrangement.styles.iter().enumerate() {
        if style.is_thin() == are_thin && layout.arrangement.uses(i) {
            draw_styled(drawing, layout, i, style)?;
        }
    }
    Ok(())
}

/// Draws all edges, the thin ones behind the others. The only error is want of memory.
pub(crate) fn draw_edges(drawing: &mut Drawing, layout: &Layout<'_>) -> Result<(), AllocError> {
    draw_all(drawing, layout, true)?;
    draw_all(drawing, layout, false)
}
