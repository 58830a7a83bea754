//! The vertices of a graph that is drawn, with their names, and the groups that are shaded.

use crate::arrangement::Group;
use crate::circle::sine;
use crate::layout::Layout;
use mat_drawing::{Anchor, Colour, Drawing, Look, Shape, Units, polyline};
use std::alloc::{AllocError, Global};

// Shades a group: its vertices, in their order, and what is between them.
fn draw_group(drawing: &mut Drawing, layout: &Layout<'_>, group: &Group) -> Result<(), AllocError> {
    let mut points = Vec::new(drawing.alloc());
    for v in group.vertices.as_slice() {
        points.push(layout.point(*v))?;
    }
    let around = polyline(drawing.alloc(), &points)?;
    let pale = Colour::pale(group.colour);
    let look = Look::PLAIN.fill(pale).stroke(pale).stroke_width(Units(30));
    drawing.path(format_args!("{around} Z"), &look.round())
}

// Shades what each vertex of a group stands on, over the groups behind it.
fn draw_places(
    drawing: &mut Drawing,
    layout: &Layout<'_>,
    group: &Group,
) -> Result<(), AllocError> {
    let look = Look::PLAIN.fill(Colour::pale(group.colour));
    for v in group.vertices.as_slice() {
        drawing.shape(Shape::Circle(layout.point(*v), Units(15)), &look)?;
    }
    Ok(())
}

/// Shades the groups. The only error is want of memory.
pub(crate) fn draw_groups(drawing: &mut Drawing, layout: &Layout<'_>) -> Result<(), AllocError> {
    for group in &layout.arrangement.groups {
        draw_group(drawing, layout, group)?;
    }
    for group in &layout.arrangement.groups {
        draw_places(drawing, layout, group)?;
    }
    Ok(())
}

// Draws a vertex.
fn draw_vertex(drawing: &mut Drawing, layout: &Layout<'_>, v: u32) -> Result<(), AllocError> {
    let look = if layout.arrangement.marked == Some(v) {
        Look::PLAIN.fill(Colour::BLACK)
    } else {
        Look::PLAIN
    };
    let circle = Shape::Circle(layout.point(v), Units(6));
    let name = layout.graph.ends.called.vertex(v as usize);
    drawing.titled(circle, &look, name)
}

/// Draws the vertices. The only error is want of memory.
pub(crate) fn draw_vertices(drawing: &mut Drawing, layout: &Layout<'_>) -> Result<(), AllocError> {
    let mut circles = Drawing::new(drawing.alloc());
    for v in 0..layout.graph.vertices {
        draw_vertex(&mut circles, layout, v)?;
    }
    let look = Look::PLAIN.fill(Colour::WHITE).stroke(Colour::BLACK);
    drawing.group(&look.stroke_width(Units(2)), &circles)
}

// The name of a vertex, and the number of its group where groups are told apart by their numbers.
fn name_of(alloc: Global, layout: &Layout<'_>, v: u32) -> Result<String, AllocError> {
    let name = layout.graph.ends.called.vertex(v as usize);
    match layout.arrangement.group_of(v) {
        Some(number) if layout.arrangement.numbers_groups() => {
            format!(in alloc; "{name} ({number})")
        }
        _ => name.to_string(alloc),
    }
}

// Draws the name of a vertex, upright.
fn draw_name(drawing: &mut Drawing, layout: &Layout<'_>, v: u32) -> Result<(), AllocError> {
    let i = v as usize;
    let count = layout.graph.order();
    let name = name_of(drawing.alloc(), layout, v)?;
    let at = layout.name_at(v);
    let sine = sine(i, count);
    let (lower, anchor) = if Units(-2000) < sine && sine < Units(2000) {
        let turned = i.saturating_mul(4);
        let is_low = count < turned && turned < count.saturating_mul(3);
        (if is_low { 10 } else { 0 }, Anchor::Middle)
    } else if sine > Units::ZERO {
        (5, Anchor::Start)
    } else {
        (5, Anchor::End)
    };
    let look = Look::PLAIN.font_size(Units(14)).anchor(anchor);
    drawing.text(at.below(lower), name, &look)
}

// Draws the name of one of many vertices, along the line from the middle.
fn draw_turned_name(drawing: &mut Drawing, layout: &Layout<'_>, v: u32) -> Result<(), AllocError> {
    let i = v as usize;
    let count = layout.graph.order();
    let name = name_of(drawing.alloc(), layout, v)?;
    let at = layout.name_at(v);
    let turned = (Units::of(i) * 360).over(Units::of(count));
    let (anchor, turn) = if i.saturating_mul(2) >= count {
        (Anchor::End, turned + 90)
    } else {
        (Anchor::Start, turned - 90)
    };
    let look = Look::PLAIN.lower(Units(4)).anchor(anchor);
    drawing.text(at, name, &look.turned(turn, at))
}

/// Draws the names of the vertices. The only error is want of memory.
pub(crate) fn draw_names(drawing: &mut Drawing, layout: &Layout<'_>) -> Result<(), AllocError> {
    for v in 0..layout.graph.vertices {
        if layout.is_crowded() {
            draw_turned_name(drawing, layout, v)?;
        } else {
            draw_name(drawing, layout, v)?;
        }
    }
    Ok(())
}
