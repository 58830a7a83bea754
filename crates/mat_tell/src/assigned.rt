//! Cells of a table, no two of them in one row or in one column.

ghost use Rattle.std.specs.Prelude.{◌<◌, ◌^◌, length};
ghost use Rattle.mat_cert.specs.Certificates.{IsRangedLadder};

use mat_cert::PricedRung;
use mat_reasons::{Things, columns_inside, rows_outside, tell_ladder};
use mat_sets::{ElemSet, Pairs, Weight};
use mat_text::{Called, Noun, Spelled, Text, many, numbers_of};
use std::alloc::AllocError;

/// A table, some of whose cells have a weight.
#[derive(Clone, Copy)]
pub(crate) struct Table<'a> {
    pub(crate) called: Called<'a>,
    pub(crate) rows: u32,
    pub(crate) columns: u32,
    pub(crate) cells: &'a Pairs,
    pub(crate) weights: &'a [Weight],
}

/// Cells of a table. Each cell of a set is shown with its row, its column and its weight.
impl Things for Table<'_> {
    fn noun(&self) -> Noun {
        Noun::Cell
    }

    fn show(&self, text: &mut Text, set: &ElemSet) -> Result<(), AllocError> {
        for e in set.as_slice() {
            let at = *e as usize;
            let (Some((row, column)), Some(weight)) = (
                self.cells.as_slice().get(at),
                self.weights.get(at),
            ) else {
                return Ok(());
            };
            text.detail(format_args!(
                "row {row}, column {column}: {}, weight {}",
                self.called.element(at),
                Spelled(*weight)
            ))?;
        }
        Ok(())
    }
}

// Tells which rows and columns hold all cells.
fn tell_lines(
    text: &mut Text,
    table: &Table<'_>,
    size: usize,
    cut: &ElemSet,
) -> Result<(), AllocError>
    requires { length table.now.cells.now < 2 ^ 32 }
{
    let alloc = text.alloc();
    let rows = rows_outside(alloc, table.cells, cut)?;
    let columns = columns_inside(alloc, table.cells, cut)?;
    text.detail(
        "Each cell stands in one of the rows or in one of the columns that are listed here.",
    )?;
    text.item_list(many(rows.len(), Noun::Row), &numbers_of(alloc, &rows)?)?;
    text.item_list(
        many(columns.len(), Noun::Column),
        &numbers_of(alloc, &columns)?,
    )?;
    text.detail(format_args!(
        "A set has at most one cell in each: at most {} + {} = {size}.",
        rows.len(),
        columns.len()
    ))
}

// Tells why no set has more cells than this.
fn tell_largest(
    text: &mut Text,
    table: &Table<'_>,
    size: usize,
    cut: &ElemSet,
) -> Result<(), AllocError>
    requires { length table.now.cells.now < 2 ^ 32 }
{
    text.say(format_args!("Why no set has more than {}:", many(size, Noun::Cell)))?;
    if size == table.cells.len() {
        text.detail("There are no more.")
    } else {
        tell_lines(text, table, size, cut)
    }
}

/// Tells for each size a heaviest set of cells of which no two share a row or a column. Where the largest set leaves cells out, rows and columns
/// show that none is larger: they hold all cells, and are as many as that set has cells (König; Schrijver, chapter 16). The only error is want of
/// memory.
pub(crate) fn tell_assignment(
    text: &mut Text,
    table: &Table<'_>,
    rungs: &[PricedRung],
    cut: &ElemSet,
) -> Result<(), AllocError>
    requires few { length table.now.cells.now < 2 ^ 32 }
    requires ranged { IsRangedLadder (length table.now.weights.now) rungs.now cut.now }
{
    text.say(format_args!(
        "Wanted: of {} in {} and {} a set that keeps two rules.",
        many(table.cells.len(), Noun::Cell),
        many(table.rows as usize, Noun::Row),
        many(table.columns as usize, Noun::Column)
    ))?;
    text.detail("rule 1: no two share a row")?;
    text.detail("rule 2: no two share a column")?;
    tell_ladder(text, &table.called, table, table.weights, rungs)?;
    tell_largest(text, table, rungs.len() - 1, cut)
}
