//! The chart of a ladder: weight over size.

use crate::canvas::MARGIN;
use crate::ladder::Ladder;
use crate::measures::{longest_element, step, weight_at, weight_bytes};
use mat_drawing::{Anchor, Area, Colour, Drawing, Look, Point, Shape, Units, polyline};
use mat_reasons::Step;
use mat_text::Spelled;
use std::alloc::{AllocError, Global};

// How high the curve rises.
const HEIGHT: i128 = 160;

/// Where the chart of a ladder stands, and the rows beneath it: a column for each step, and a row for each element of a set.
#[derive(Drop)]
pub(crate) struct Chart<'a> {
    pub(crate) ladder: &'a Ladder<'a>,
    pub(crate) rows: Vec<u32>,
    /// The most bytes of a weight.
    pub(crate) digits: Units,
    /// How wide a column is.
    pub(crate) column: Units,
    /// Where the first column begins.
    pub(crate) left: Units,
    top: Units,
    low: i128,
    high: i128,
    // How much room the weight of the best step takes.
    best_words: Units,
}

// How much room the weight of the best step takes.
fn best_words(alloc: Global, ladder: &Ladder<'_>) -> Result<Units, AllocError> {
    match ladder.steps.get(ladder.best) {
        Some(step) => Ok(Units::of(weight_bytes(alloc, step.weight)?) * 8),
        None => Ok(Units::ZERO),
    }
}

// The most bytes of the weight of a row, and at least so many.
fn digits_of_rows(
    alloc: Global,
    ladder: &Ladder<'_>,
    rows: &[u32],
    least: usize,
) -> Result<usize, AllocError> {
    let mut digits = least;
    for e in rows {
        digits = digits.max(weight_bytes(alloc, weight_at(ladder.weights, *e))?);
    }
    Ok(digits)
}

// The most bytes of the weight of a step, and at least so many.
fn digits_of_steps(alloc: Global, steps: &[Step<'_>], least: usize) -> Result<usize, AllocError> {
    let mut digits = least;
    for step in steps {
        digits = digits.max(weight_bytes(alloc, step.weight)?);
    }
    Ok(digits)
}

// The most bytes of a weight of a row or of a step, and at least 6.
fn digits(alloc: Global, ladder: &Ladder<'_>, rows: &[u32]) -> Result<usize, AllocError> {
    digits_of_rows(
        alloc,
        ladder,
        rows,
        digits_of_steps(alloc, ladder.steps, 6)?,
    )
}

// The least and the greatest of the main numbers of the steps.
fn range(steps: &[Step<'_>]) -> (i128, i128) {
    let Some(first) = steps.first() else {
        return (0, 0);
    };
    let mut low = first.weight.main;
    let mut high = first.weight.main;
    for step in steps {
        low = low.min(step.weight.main);
        high = high.max(step.weight.main);
    }
    (low, high)
}

// How high a number stands on a scale from the low one to the high one.
fn rise(number: i128, low: i128, high: i128) -> Units {
    let range = high.saturating_sub(low);
    if range < 1 {
        return Units::ZERO;
    }
    let part = number
        .saturating_sub(low)
        .saturating_mul(HEIGHT)
        .div_euclid(range);
    Units(part.clamp(0, HEIGHT) as i64)
}

impl<'a> Chart<'a> {
    /// The chart that begins at this height. The only error is want of memory.
    pub(crate) fn new(
        alloc: Global,
        ladder: &'a Ladder<'a>,
        from: Units,
    ) -> Result<Chart<'a>, AllocError> {
        let rows = ladder.rows(alloc)?;
        let digits = digits(alloc, ladder, &rows)?;
        let names = longest_element(alloc, &ladder.called, &rows)?;
        let column = (720 / ladder.steps.len().max(1)).clamp(4, 40);
        let (low, high) = range(ladder.steps);
        Ok(Chart {
            ladder,
            rows,
            digits: Units::of(digits),
            column: Units::of(column),
            left: MARGIN + (Units::of(names) + Units::of(digits)) * 8 + 24,
            top: from + 30,
            low,
            high,
            best_words: best_words(alloc, ladder)?,
        })
    }

    /// Where column k begins.
    pub(crate) fn column_at(&self, k: usize) -> Units {
        self.left + self.column * Units::of(k)
    }

    /// Where the last column ends.
    pub(crate) fn right(&self) -> Units {
        self.column_at(self.ladder.steps.len())
    }

    // The middle of the weight of the best step: it stands to the right of the scale of weights.
    fn best_middle(&self) -> Units {
        self.middle(self.ladder.best)
            .max(self.left + self.best_words.half() + 4)
    }

    /// Where the last column and the weight of the best step end.
    pub(crate) fn reach(&self) -> Units {
        self.right()
            .max(self.best_middle() + self.best_words.half())
    }

    // Where the scale of sizes is.
    fn foot(&self) -> Units {
        self.top + 172
    }

    /// Where row i begins.
    pub(crate) fn row_at(&self, i: usize) -> Units {
        self.top + 198 + Units::of(i) * 16
    }

    /// Where the last row ends.
    pub(crate) fn end(&self) -> Units {
        self.row_at(self.rows.len())
    }

    // The middle of column k.
    fn middle(&self, k: usize) -> Units {
        self.column_at(k) + self.column.half()
    }

    // How high a number stands.
    fn height_of(&self, number: i128) -> Units {
        self.top + 160 - rise(number, self.low, self.high)
    }

    // The point of step k on the curve.
    fn point(&self, k: usize, step: &Step<'_>) -> Point {
        Point {
            x: self.middle(k),
            y: self.height_of(step.weight.main),
        }
    }

    // Draws what stands behind the curve: the column of the best step, the line of 0, and the two axes.
    fn draw_axes(&self, drawing: &mut Drawing) -> Result<(), AllocError> {
        let (left, right) = (self.left, self.right());
        let (top, foot) = (self.top - 8, self.foot());
        let best = Area {
            x: self.column_at(self.ladder.best),
            y: top,
            width: self.column,
            height: self.end() - top,
        };
        drawing.rectangle(best, Colour::pale(4))?;
        if self.low < 0 && 0 < self.high {
            let zero = self.height_of(0);
            drawing.path(
                format_args!("M{left} {zero} H{right}"),
                &Look::PLAIN.stroke(Colour::GREY),
            )?;
        }
        drawing.path(
            format_args!("M{left} {top} V{foot} H{right}"),
            &Look::PLAIN.no_fill().stroke(Colour::BLACK),
        )
    }

    // Draws a number of the scale of weights.
    fn draw_mark(&self, drawing: &mut Drawing, number: i128) -> Result<(), AllocError> {
        let at = Point {
            x: self.left - 6,
            y: self.height_of(number) + 4,
        };
        drawing.text(at, number, &Look::PLAIN.anchor(Anchor::End))
    }

    // Draws the scale of weights: its least and its greatest number.
    fn draw_scale(&self, drawing: &mut Drawing) -> Result<(), AllocError> {
        let at = Point {
            x: self.left - 6,
            y: self.top - 14,
        };
        drawing.text(at, "weight", &Look::PLAIN.anchor(Anchor::End))?;
        self.draw_mark(drawing, self.low)?;
        if self.low < self.high {
            self.draw_mark(drawing, self.high)?;
        }
        Ok(())
    }

    // Draws the curve.
    fn draw_curve(&self, drawing: &mut Drawing) -> Result<(), AllocError> {
        let mut points = Vec::new(drawing.alloc());
        for (k, step) in self.ladder.steps.iter().enumerate() {
            points.push(self.point(k, step))?;
        }
        let curve = polyline(drawing.alloc(), &points)?;
        let look = Look::PLAIN.no_fill().stroke(Colour::BLUE);
        drawing.path(curve, &look.stroke_width(Units(2)))
    }

    // Draws the dot of a step on the curve, and its weight, where there is room.
    fn draw_step(
        &self,
        drawing: &mut Drawing,
        k: usize,
        step: &Step<'_>,
    ) -> Result<(), AllocError> {
        let is_best = k == self.ladder.best;
        let weight = Spelled(step.weight);
        let at = self.point(k, step);
        if is_best || self.column >= Units(8) {
            let (radius, fill) = if is_best {
                (Units(6), Colour::RED)
            } else {
                (Units(3), Colour::BLUE)
            };
            drawing.titled(
                Shape::Circle(at, radius),
                &Look::PLAIN.fill(fill),
                format_args!("size {k} weighs {weight}"),
            )?;
        }
        let middle = Look::PLAIN.anchor(Anchor::Middle);
        if is_best {
            let words = Point {
                x: self.best_middle(),
                y: at.y - 10,
            };
            return drawing.text(words, weight, &middle.bold());
        }
        let long = Units::of(weight_bytes(drawing.alloc(), step.weight)?) * 8;
        if self.column >= long {
            drawing.text(at.below(-10), weight, &middle)?;
        }
        Ok(())
    }

    // Draws the scale of sizes.
    fn draw_sizes(&self, drawing: &mut Drawing) -> Result<(), AllocError> {
        let y = self.foot() + 16;
        let x = self.left - 6;
        drawing.text(Point { x, y }, "size", &Look::PLAIN.anchor(Anchor::End))?;
        for k in (0..self.ladder.steps.len()).step_by(step(self.column, 28)) {
            let x = self.middle(k);
            drawing.text(Point { x, y }, k, &Look::PLAIN.anchor(Anchor::Middle))?;
        }
        Ok(())
    }

    /// Draws the chart. The only error is want of memory.
    pub(crate) fn draw(&self, drawing: &mut Drawing) -> Result<(), AllocError> {
        self.draw_axes(drawing)?;
        self.draw_scale(drawing)?;
        self.draw_curve(drawing)?;
        for (k, step) in self.ladder.steps.iter().enumerate() {
            self.draw_step(drawing, k, step)?;
        }
        self.draw_sizes(drawing)
    }
}
