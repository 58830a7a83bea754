//! Tables of cells, with the rows and columns in which all cells stand.

ghost use Rattle.std.specs.Prelude.{◌<◌, ◌^◌, ◌≤ℤ◌, length, OnOk};
ghost use Rattle.mat_drawing.specs.Markup.{AddsMarkup};

use crate::canvas::{Canvas, MARGIN};
use crate::measures::weight_at;
use mat_drawing::{Anchor, Area, Colour, Drawing, Look, Point, Shape, Units};
use mat_reasons::{columns_inside, rows_outside};
use mat_sets::{ElemSet, Pairs, Weight};
use mat_text::{Called, Spelled, Text};
use std::alloc::{AllocError, Global};

// The most rows or columns of a table whose fields have room for words.
const FEW: usize = 24;

/// The cells of a table with their weights, the best set of them, and a set that tells which rows and columns bound all sets.
#[derive(Clone, Copy)]
pub struct Table<'a> {
    /// What the cells are called.
    pub called: Called<'a>,
    /// The row and the column of each cell.
    pub cells: &'a Pairs,
    /// The weight of each cell.
    pub weights: &'a [Weight],
    /// The best set of cells.
    pub best: &'a ElemSet,
    /// The cells that stand in shaded columns; all others stand in shaded rows.
    pub cut: &'a ElemSet,
}

// The rows and columns of a table, and which of them are shaded.
#[derive(Drop)]
struct Lines {
    rows: ElemSet,
    columns: ElemSet,
    shaded_rows: ElemSet,
    shaded_columns: ElemSet,
}

impl Lines {
    // The rows and columns of cells.
    fn of(alloc: Global, table: &Table<'_>) -> Result<Lines, AllocError>
        requires { length table.now.cells.now < 2 ^ 32 }
    {
        let all = ElemSet::all_below(alloc, table.cells.len() as u32)?;
        Ok(Lines {
            rows: rows_outside(alloc, table.cells, &ElemSet::new(alloc))?,
            columns: columns_inside(alloc, table.cells, &all)?,
            shaded_rows: rows_outside(alloc, table.cells, table.cut)?,
            shaded_columns: columns_inside(alloc, table.cells, table.cut)?,
        })
    }

    // Whether there are more rows or columns than fields with words have room.
    fn are_many(&self) -> bool {
        self.rows.len() > FEW || self.columns.len() > FEW
    }
}

// How many of these cells stand in this field.
fn count_in(cells: &[(u32, u32)], field: (u32, u32)) -> usize {
    let mut count: usize = 0;
    for cell in cells {
        if *cell == field {
            count = count.saturating_add(1);
        }
    }
    count
}

// How many cells before each one stand in the same field.
fn depths(alloc: Global, cells: &[(u32, u32)]) -> Result<Vec<usize>, AllocError> {
    let mut depths = Vec::new(alloc);
    for e in 0..cells.len() {
        depths.push(count_in(&cells[..e], cells[e]))?;
    }
    Ok(depths)
}

// The most cells of one field of a row.
fn deepest(cells: &[(u32, u32)], depths: &[usize], row: u32) -> usize {
    let mut deepest: usize = 0;
    for (cell, depth) in cells.iter().zip(depths) {
        if cell.0 == row {
            deepest = deepest.max(depth.saturating_add(1));
        }
    }
    deepest
}

// Where a table is drawn.
#[derive(Drop)]
struct Fields<'a> {
    table: &'a Table<'a>,
    lines: Lines,
    depths: Vec<usize>,
    // Where each row begins, and where the last ends.
    tops: Vec<Units>,
    from: Units,
    width: Units,
    height: Units,
}

// Where the columns begin.
const LEFT: Units = Units(90);

// The name of a cell and its weight.
fn label(alloc: Global, table: &Table<'_>, e: u32) -> Result<String, AllocError> {
    let name = table.called.element(e as usize);
    let weight = Spelled(weight_at(table.weights, e));
    format!(in alloc; "{name} {weight}")
}

// The most bytes of a label.
fn longest_label(alloc: Global, table: &Table<'_>) -> Result<usize, AllocError>
    requires { length table.now.cells.now < 2 ^ 32 }
{
    let mut longest = 0;
    for e in 0..table.cells.len() as u32 {
        longest = longest.max(label(alloc, table, e)?.len());
    }
    Ok(longest)
}

// Where each row begins, from this height on, and where the last ends.
fn tops(
    alloc: Global,
    table: &Table<'_>,
    rows: &ElemSet,
    depths: &[usize],
    from: Units,
    height: Units,
) -> Result<Vec<Units>, AllocError> {
    let mut tops = Vec::new(alloc);
    let mut y = from;
    for row in rows.as_slice() {
        tops.push(y)?;
        y = y + height * Units::of(deepest(table.cells.as_slice(), depths, *row));
    }
    tops.push(y)?;
    Ok(tops)
}

impl<'a> Fields<'a> {
    // The fields of a table that is drawn from this height on.
    fn new(alloc: Global, table: &'a Table<'a>, from: Units) -> Result<Fields<'a>, AllocError>
        requires { length table.now.cells.now < 2 ^ 32 }
    {
        let lines = Lines::of(alloc, table)?;
        let depths = depths(alloc, table.cells.as_slice())?;
        let (width, height) = if lines.are_many() {
            (Units(14), Units(14))
        } else {
            (Units::of(longest_label(alloc, table)?) * 8 + 12, Units(20))
        };
        let tops = tops(alloc, table, &lines.rows, &depths, from + 40, height)?;
        Ok(Fields {
            table,
            lines,
            depths,
            tops,
            from,
            width,
            height,
        })
    }

    // Where the rows begin.
    fn top(&self) -> Units {
        self.from + 40
    }

    // Where the row at place i begins.
    fn row_at(&self, i: usize) -> Units {
        self.tops.get(i).copied().unwrap_or(Units::ZERO)
    }

    // How high the row at place i is.
    fn row_height(&self, i: usize) -> Units {
        self.row_at(i.saturating_add(1)) - self.row_at(i)
    }

    // Where the last row ends.
    fn bottom(&self) -> Units {
        self.row_at(self.lines.rows.len())
    }

    // Where the column at place i begins.
    fn column_at(&self, i: usize) -> Units {
        LEFT + self.width * Units::of(i)
    }

    // Where the last column ends.
    fn right(&self) -> Units {
        self.column_at(self.lines.columns.len())
    }

    // Shades the rows that are needed to hold all cells.
    fn shade_rows(&self, drawing: &mut Drawing) -> Result<(), AllocError> {
        for (i, row) in self.lines.rows.as_slice().iter().enumerate() {
            if self.lines.shaded_rows.contains(*row) {
                let strip = Area {
                    x: MARGIN,
                    y: self.row_at(i) + 1,
                    width: self.right() - MARGIN,
                    height: self.row_height(i) - 2,
                };
                drawing.rectangle(strip, Colour::pale(0))?;
            }
        }
        Ok(())
    }

    // Shades the columns that are needed to hold all cells.
    fn shade_columns(&self, drawing: &mut Drawing) -> Result<(), AllocError> {
        for (i, column) in self.lines.columns.as_slice().iter().enumerate() {
            if self.lines.shaded_columns.contains(*column) {
                let strip = Area {
                    x: self.column_at(i) + 1,
                    y: self.from + 10,
                    width: self.width - 2,
                    height: self.bottom() - self.from - 10,
                };
                drawing.rectangle(strip, Colour::pale(0))?;
            }
        }
        Ok(())
    }

    // Draws the number of each row.
    fn draw_rows(&self, drawing: &mut Drawing) -> Result<(), AllocError> {
        let word = if self.lines.are_many() { "" } else { "row " };
        for (i, row) in self.lines.rows.as_slice().iter().enumerate() {
            let at = Point {
                x: LEFT - 6,
                y: self.row_at(i) + self.row_height(i).half() + 4,
            };
            drawing.text(
                at,
                format_args!("{word}{row}"),
                &Look::PLAIN.anchor(Anchor::End),
            )?;
        }
        Ok(())
    }

    // Draws the number of each column, where there are many: they stand upright.
    fn draw_many_columns(&self, drawing: &mut Drawing) -> Result<(), AllocError> {
        for (i, column) in self.lines.columns.as_slice().iter().enumerate() {
            let at = Point {
                x: self.column_at(i) + 11,
                y: self.top() - 6,
            };
            drawing.text(at, column, &Look::PLAIN.turned(Units(-90), at))?;
        }
        Ok(())
    }

    // Draws the number of each column, where there are few.
    fn draw_few_columns(&self, drawing: &mut Drawing) -> Result<(), AllocError> {
        let y = self.top() - 6;
        let x = LEFT - 6;
        drawing.text(Point { x, y }, "column", &Look::PLAIN.anchor(Anchor::End))?;
        for (i, column) in self.lines.columns.as_slice().iter().enumerate() {
            let x = self.column_at(i) + self.width.half();
            drawing.text(Point { x, y }, column, &Look::PLAIN.anchor(Anchor::Middle))?;
        }
        Ok(())
    }

    // Where cell e stands.
    fn cell_at(&self, e: usize, row: u32, column: u32) -> Point {
        let depth = self.depths.get(e).copied().unwrap_or(0);
        Point {
            x: self.column_at(place(&self.lines.columns, column)),
            y: self.row_at(place(&self.lines.rows, row)) + self.height * Units::of(depth),
        }
    }

    // Writes the label of cell e, which stands at a point.
    fn draw_label(&self, drawing: &mut Drawing, e: u32, at: Point) -> Result<(), AllocError> {
        let label = label(drawing.alloc(), self.table, e)?;
        let middle = Point {
            x: at.x + self.width.half(),
            y: at.y + 14,
        };
        let look = Look::PLAIN.anchor(Anchor::Middle);
        if self.table.best.contains(e) {
            drawing.text(middle, label, &look.fill(Colour::WHITE).bold())
        } else {
            drawing.text(middle, label, &look)
        }
    }

    // Draws cell e of the table.
    fn draw_cell(
        &self,
        drawing: &mut Drawing,
        e: u32,
        row: u32,
        column: u32,
    ) -> Result<(), AllocError> {
        let table = self.table;
        let is_best = table.best.contains(e);
        let at = self.cell_at(e as usize, row, column);
        let area = Area {
            x: at.x + 2,
            y: at.y + 2,
            width: self.width - 4,
            height: self.height - 4,
        };
        let fill = if is_best { Colour::RED } else { Colour::WHITE };
        let name = table.called.element(e as usize);
        let weight = Spelled(weight_at(table.weights, e));
        drawing.titled(
            Shape::Rectangle(area),
            &Look::PLAIN.fill(fill).stroke(Colour::DIM),
            format_args!("row {row}, column {column}: {name}, weight {weight}"),
        )?;
        if self.lines.are_many() {
            Ok(())
        } else {
            self.draw_label(drawing, e, at)
        }
    }

    // Draws the table.
    fn draw(&self, drawing: &mut Drawing) -> Result<(), AllocError> {
        self.shade_rows(drawing)?;
        self.shade_columns(drawing)?;
        self.draw_rows(drawing)?;
        if self.lines.are_many() {
            self.draw_many_columns(drawing)?;
        } else {
            self.draw_few_columns(drawing)?;
        }
        self.draw_cells(drawing)
    }

    // Draws all cells.
    fn draw_cells(&self, drawing: &mut Drawing) -> Result<(), AllocError> {
        let cells = self.table.cells.as_slice();
        for ((row, column), e) in cells.iter().zip(0..u32::MAX) {
            self.draw_cell(drawing, e, *row, *column)?;
        }
        Ok(())
    }
}

// The place of a number in a set.
fn place(set: &ElemSet, x: u32) -> usize {
    match set.as_slice().binary_search(&x) {
        Ok(place) | Err(place) => place,
    }
}

// The notes on a table: what red and shaded fields are.
fn notes(alloc: Global, lines: &Lines) -> Result<Text, AllocError> {
    let rows = lines.shaded_rows.len();
    let shaded = rows.saturating_add(lines.shaded_columns.len());
    let mut notes = Text::new(alloc);
    notes.say(format_args!(
        "Red: the best set. Shaded: rows and columns in which all cells stand, {shaded} in all; a set has at most one cell in each."
    ))?;
    Ok(notes)
}

/// Draws a table: its cells, the best set of them, and the rows and columns in which all cells stand. The only error is want of memory.
pub fn draw_table(canvas: &mut Canvas, table: &Table<'_>) -> Result<(), AllocError>
    requires { length table.now.cells.now < 2 ^ 32 }
    ensures drawn { OnOk result (AddsMarkup canvas.old.drawing.markup canvas.new.drawing.markup) }
    ensures wide { canvas.old.width.0 ≤ℤ canvas.new.width.0 }
{
    let alloc = canvas.alloc();
    let fields = Fields::new(alloc, table, canvas.top())?;
    let mut part = Drawing::new(alloc);
    fields.draw(&mut part)?;
    let notes = notes(alloc, &fields.lines)?;
    canvas.add_part(&part, fields.right() - 20, fields.bottom() + 18, &notes)
}
