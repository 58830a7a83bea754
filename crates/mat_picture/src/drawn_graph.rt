//! Graphs, drawn on a circle.

use crate::arrangement::Arrangement;
use crate::edges::draw_edges;
use crate::graph::Graph;
use crate::labels::{draw_labels, notes_on};
use crate::layout::Layout;
use crate::legend::Legend;
use crate::vertices::{draw_groups, draw_names, draw_vertices};
use mat_charts::Canvas;
use mat_drawing::Drawing;
use std::alloc::AllocError;

// Draws the edges of a graph with their labels, and over them the vertices with their names.
fn draw_layout(drawing: &mut Drawing, layout: &Layout<'_>) -> Result<(), AllocError> {
    draw_groups(drawing, layout)?;
    draw_edges(drawing, layout)?;
    draw_labels(drawing, layout)?;
    draw_vertices(drawing, layout)?;
    draw_names(drawing, layout)
}

/// Draws a graph: its vertices on a circle, its edges with their labels, a legend and notes. The only error is want of memory.
pub(crate) fn draw_graph(
    canvas: &mut Canvas,
    graph: &Graph<'_>,
    arrangement: &Arrangement,
) -> Result<(), AllocError> {
    let alloc = canvas.alloc();
    let layout = Layout::new(alloc, graph, arrangement, canvas.top())?;
    let legend = Legend::new(alloc, arrangement)?;
    let mut part = Drawing::new(alloc);
    draw_layout(&mut part, &layout)?;
    legend.draw(&mut part, layout.bottom())?;
    let notes = notes_on(alloc, &layout)?;
    canvas.add_part(
        &part,
        layout.width().max(legend.width()),
        layout.bottom() + legend.height() + 4,
        &notes,
    )
}
