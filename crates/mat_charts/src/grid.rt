//! Grids: a row for each element, in blocks side by side, and a column for each part.

ghost use Rattle.std.specs.Prelude.{◌<◌, ◌≤ℤ◌, OnOk};
ghost use Rattle.mat_drawing.specs.Markup.{AddsMarkup};

use crate::canvas::{Canvas, MARGIN};
use crate::measures::{longest_element, longest_weight, step, weight_at};
use mat_drawing::{Anchor, Area, Colour, Drawing, Look, Point, Shape, Units, strokes};
use mat_sets::{ElemSet, Weight};
use mat_text::{Called, Noun, Spelled, Text, is_in_some};
use std::alloc::{AllocError, Global};

/// Parts of the elements, in an order of these, and a set of elements that is shaded.
#[derive(Clone, Copy)]
pub struct Grid<'a> {
    /// What the elements are called.
    pub called: Called<'a>,
    /// What a part is.
    pub noun: Noun,
    /// The parts, which are numbered from 1.
    pub parts: &'a [ElemSet],
    /// The weights of the elements, where these are to be told.
    pub weights: Option<&'a [Weight]>,
    /// The elements in the order of their rows.
    pub order: &'a [u32],
    /// The elements whose rows are shaded.
    pub shaded: &'a ElemSet,
}

impl Grid<'_> {
    // How many elements a block has.
    fn block_size(&self) -> usize
        ensures { 0 < result }
    {
        if self.parts.len() > 20 { 125 } else { 50 }
    }

    // The elements of a block.
    fn block(&self, block: usize) -> &[u32] {
        let size = self.block_size();
        let from = block.saturating_mul(size).min(self.order.len());
        let to = from.saturating_add(size).min(self.order.len());
        &self.order[from..to]
    }

    // How many blocks there are: one where there are no elements.
    fn blocks(&self) -> usize {
        self.order.len().div_ceil(self.block_size()).max(1)
    }
}

// Where the blocks of a grid are drawn.
#[derive(Clone, Copy)]
struct Blocks<'a> {
    grid: &'a Grid<'a>,
    // How wide a column is.
    column: Units,
    // How much room the weights take.
    digits: Units,
    // How much room the words of a row take.
    head: Units,
    top: Units,
}

impl<'a> Blocks<'a> {
    // The blocks of a grid that is drawn from this height on.
    fn new(alloc: Global, grid: &'a Grid<'a>, from: Units) -> Result<Blocks<'a>, AllocError> {
        let digits = match grid.weights {
            Some(weights) => Units::of(longest_weight(alloc, weights)?),
            None => Units(-1),
        };
        let names = Units::of(longest_element(alloc, &grid.called, grid.order)?);
        let word = Units::of(grid.noun.word().len());
        Ok(Blocks {
            grid,
            column: Units::of((720 / grid.parts.len().max(1)).clamp(4, 28)),
            digits,
            head: (names + digits).max(word) * 8 + 24,
            top: from + 40,
        })
    }

    // How wide all columns are.
    fn columns(&self) -> Units {
        self.column * Units::of(self.grid.parts.len())
    }

    // How much further each block begins than the one before it.
    fn wide(&self) -> Units {
        self.head + self.columns() + 24
    }

    // Where so many rows end.
    fn bottom(&self, rows: usize) -> Units {
        self.top + Units::of(rows) * 16
    }

    // Draws what stands above a block: the word for a part, and numbers of parts.
    fn draw_head(&self, drawing: &mut Drawing, left: Units) -> Result<(), AllocError> {
        let y = self.top - 6;
        let x = left - 6;
        drawing.text(
            Point { x, y },
            self.grid.noun.word(),
            &Look::PLAIN.anchor(Anchor::End),
        )?;
        for i in (0..self.grid.parts.len()).step_by(step(self.column, 24)) {
            let x = left + self.column * Units::of(i) + self.column.half();
            drawing.text(
                Point { x, y },
                i.saturating_add(1),
                &Look::PLAIN.anchor(Anchor::Middle),
            )?;
        }
        Ok(())
    }

    // Draws the words of a row: the name of an element, and its weight where this is told.
    fn draw_words(
        &self,
        drawing: &mut Drawing,
        left: Units,
        y: Units,
        e: u32,
    ) -> Result<(), AllocError> {
        let name = self.grid.called.element(e as usize);
        let end = Look::PLAIN.anchor(Anchor::End);
        let dim = end.fill(Colour::DIM);
        let at = Point {
            x: left - 12 - self.digits * 8,
            y: y + 12,
        };
        if is_in_some(self.grid.parts, e) {
            drawing.text(at, name, &end)?;
        } else {
            drawing.text(at, name, &dim)?;
        }
        let Some(weights) = self.grid.weights else {
            return Ok(());
        };
        let at = Point {
            x: left - 6,
            y: y + 12,
        };
        drawing.text(at, Spelled(weight_at(weights, e)), &dim)
    }

    // Draws the squares of a row, one for each part that has the element.
    fn draw_squares(
        &self,
        drawing: &mut Drawing,
        left: Units,
        y: Units,
        e: u32,
    ) -> Result<(), AllocError> {
        let name = self.grid.called.element(e as usize);
        let word = self.grid.noun.word();
        for (c, part) in self.grid.parts.iter().enumerate() {
            if part.contains(e) {
                let square = Area {
                    x: left + self.column * Units::of(c),
                    y: y + 1,
                    width: self.column,
                    height: Units(14),
                };
                let number = c.saturating_add(1);
                drawing.titled(
                    Shape::Rectangle(square),
                    &Look::PLAIN.fill(Colour::numbered(c)),
                    format_args!("{name} in {word} {number}"),
                )?;
            }
        }
        Ok(())
    }

    // Draws the row of an element, in a block that begins at x.
    fn draw_row(
        &self,
        drawing: &mut Drawing,
        x: Units,
        y: Units,
        e: u32,
    ) -> Result<(), AllocError> {
        if self.grid.shaded.contains(e) {
            let strip = Area {
                x,
                y,
                width: self.head + self.columns(),
                height: Units(16),
            };
            drawing.rectangle(strip, Colour::pale(0))?;
        }
        let left = x + self.head;
        self.draw_words(drawing, left, y, e)?;
        self.draw_squares(drawing, left, y, e)
    }

    // Draws the lines of a block.
    fn draw_lines(
        &self,
        drawing: &mut Drawing,
        left: Units,
        bottom: Units,
    ) -> Result<(), AllocError> {
        let top = self.top;
        let right = left + self.columns();
        let from = Point { x: left, y: top };
        let count = self.grid.parts.len().saturating_add(1);
        let down = strokes(drawing.alloc(), from, self.column, count, bottom)?;
        let across = Point { x: left, y: bottom };
        drawing.path(
            format_args!("{down} M{from} H{right} M{across} H{right}"),
            &Look::PLAIN.no_fill().stroke(Colour::GREY),
        )
    }

    // Draws the block of these elements.
    fn draw_block(
        &self,
        drawing: &mut Drawing,
        block: usize,
        elements: &[u32],
    ) -> Result<(), AllocError> {
        let x = MARGIN + self.wide() * Units::of(block);
        let left = x + self.head;
        self.draw_head(drawing, left)?;
        for (i, e) in elements.iter().enumerate() {
            self.draw_row(drawing, x, self.bottom(i), *e)?;
        }
        self.draw_lines(drawing, left, self.bottom(elements.len()))
    }

    // Draws all blocks.
    fn draw(&self, drawing: &mut Drawing) -> Result<(), AllocError> {
        for block in 0..self.grid.blocks() {
            self.draw_block(drawing, block, self.grid.block(block))?;
        }
        Ok(())
    }
}

/// Draws a grid, with these notes beneath it. The only error is want of memory.
pub fn draw_grid(canvas: &mut Canvas, grid: &Grid<'_>, notes: &Text) -> Result<(), AllocError>
    ensures drawn { OnOk result (AddsMarkup canvas.old.drawing.markup canvas.new.drawing.markup) }
    ensures wide { canvas.old.width.0 ≤ℤ canvas.new.width.0 }
{
    let blocks = Blocks::new(canvas.alloc(), grid, canvas.top())?;
    let mut part = Drawing::new(canvas.alloc());
    blocks.draw(&mut part)?;
    let longest = grid.order.len().min(grid.block_size());
    canvas.add_part(
        &part,
        blocks.wide() * Units::of(grid.blocks()),
        blocks.bottom(longest) + 18,
        notes,
    )
}
