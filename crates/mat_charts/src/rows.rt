//! The sets of a ladder as rows of squares beneath its chart.

ghost use Rattle.std.specs.Prelude.{◌≤ℤ◌, OnOk};
ghost use Rattle.mat_drawing.specs.Markup.{AddsMarkup};

use crate::canvas::Canvas;
use crate::chart::Chart;
use crate::ladder::Ladder;
use crate::measures::weight_at;
use mat_drawing::{Anchor, Area, Colour, Drawing, Look, Point, Units, strokes};
use mat_text::{Spelled, Text, many};
use std::alloc::{AllocError, Global};

// Draws the name and the weight of each row.
fn draw_names(drawing: &mut Drawing, chart: &Chart<'_>) -> Result<(), AllocError> {
    let ladder = chart.ladder;
    for (i, e) in chart.rows.iter().enumerate() {
        let y = chart.row_at(i) + 12;
        let x = chart.left - 12 - chart.digits * 8;
        let end = Look::PLAIN.anchor(Anchor::End);
        let look = if ladder.holds(ladder.best, *e) {
            end.bold()
        } else {
            end
        };
        drawing.text(Point { x, y }, ladder.called.element(*e as usize), &look)?;
        let x = chart.left - 6;
        drawing.text(
            Point { x, y },
            Spelled(weight_at(ladder.weights, *e)),
            &end.fill(Colour::DIM),
        )?;
    }
    Ok(())
}

// Draws the squares of row i in the columns from one on and before another, as one rectangle.
fn draw_squares(
    drawing: &mut Drawing,
    chart: &Chart<'_>,
    i: usize,
    from: usize,
    to: usize,
    fill: Colour,
) -> Result<(), AllocError> {
    let x = chart.column_at(from);
    let squares = Area {
        x,
        y: chart.row_at(i) + 2,
        width: chart.column_at(to) - x,
        height: Units(12),
    };
    drawing.rectangle(squares, fill)
}

// Draws each longest run of steps whose sets have the element of row i.
fn draw_runs(drawing: &mut Drawing, chart: &Chart<'_>, i: usize, e: u32) -> Result<(), AllocError> {
    let mut begun = None;
    for k in 0..=chart.ladder.steps.len() {
        let holds = chart.ladder.holds(k, e);
        match begun {
            None if holds => begun = Some(k),
            Some(from) if !holds => {
                draw_squares(drawing, chart, i, from, k, Colour::BLUE)?;
                begun = None;
            }
            _ => {}
        }
    }
    Ok(())
}

// Draws the runs of all rows.
fn draw_all_runs(drawing: &mut Drawing, chart: &Chart<'_>) -> Result<(), AllocError> {
    for (i, e) in chart.rows.iter().enumerate() {
        draw_runs(drawing, chart, i, *e)?;
    }
    Ok(())
}

// Draws the squares of the best step.
fn draw_best(drawing: &mut Drawing, chart: &Chart<'_>) -> Result<(), AllocError> {
    let best = chart.ladder.best;
    for (i, e) in chart.rows.iter().enumerate() {
        if chart.ladder.holds(best, *e) {
            draw_squares(drawing, chart, i, best, best.saturating_add(1), Colour::RED)?;
        }
    }
    Ok(())
}

// Draws white strokes between the columns, where these are wide.
fn draw_gaps(drawing: &mut Drawing, chart: &Chart<'_>) -> Result<(), AllocError> {
    if chart.column < Units(8) || chart.rows.is_empty() {
        return Ok(());
    }
    let from = Point {
        x: chart.left,
        y: chart.row_at(0),
    };
    let count = chart.ladder.steps.len().saturating_add(1);
    let gaps = strokes(drawing.alloc(), from, chart.column, count, chart.end())?;
    drawing.path(
        gaps,
        &Look::PLAIN.stroke(Colour::WHITE).stroke_width(Units(2)),
    )
}

// Draws the rows.
fn draw_rows(drawing: &mut Drawing, chart: &Chart<'_>) -> Result<(), AllocError> {
    draw_names(drawing, chart)?;
    draw_all_runs(drawing, chart)?;
    draw_best(drawing, chart)?;
    draw_gaps(drawing, chart)
}

// Whether a step has a weight of two numbers.
fn has_ties(ladder: &Ladder<'_>) -> bool {
    for step in ladder.steps {
        if step.weight.tie != 0 {
            return true;
        }
    }
    false
}

// The notes on a ladder: which number of its weights the curve shows, and how many elements are in none of its sets.
fn notes(alloc: Global, chart: &Chart<'_>) -> Result<Text, AllocError> {
    let mut notes = Text::new(alloc);
    let ladder = chart.ladder;
    if has_ties(ladder) {
        notes.say("The curve shows the number before `:` of each weight.")?;
    }
    let none = ladder.weights.len().saturating_sub(chart.rows.len());
    if none > 0 {
        notes.say(format_args!("In no set, and without a row: {}.", many(none, ladder.noun)))?;
    }
    Ok(notes)
}

/// Draws a ladder: a chart of weight over size, and beneath it the sets as rows of squares. The only error is want of memory.
pub fn draw_ladder(canvas: &mut Canvas, ladder: &Ladder<'_>) -> Result<(), AllocError>
    ensures drawn { OnOk result (AddsMarkup canvas.old.drawing.markup canvas.new.drawing.markup) }
    ensures wide { canvas.old.width.0 ≤ℤ canvas.new.width.0 }
{
    let alloc = canvas.alloc();
    let chart = Chart::new(alloc, ladder, canvas.top())?;
    let mut part = Drawing::new(alloc);
    chart.draw(&mut part)?;
    draw_rows(&mut part, &chart)?;
    let notes = notes(alloc, &chart)?;
    canvas.add_part(&part, chart.reach() - 20, chart.end() + 18, &notes)
}
