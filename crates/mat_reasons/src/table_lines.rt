//! The rows and the columns of cells of a table.

ghost use Rattle.std.specs.Prelude.{◌≡◌, ℕ, ◌<◌, ◌^◌, not, ◌&&◌, ◌==◌, length, IfOk};
ghost use Rattle.mat_sets.specs.{Graphs.{ends_of}, Search.{some_below}, Sets.{is_member}};

use mat_sets::{ElemSet, Pairs};
use std::alloc::{AllocError, Global};

/// The rows of the cells outside a set. The only error is want of memory.
pub fn rows_outside(alloc: Global, cells: &Pairs, set: &ElemSet) -> Result<ElemSet, AllocError>
    requires { length cells.now < 2 ^ 32 }
    ensures { IfOk result (λ rows. (row : ℕ) → is_member row rows
        ≡ some_below (length cells.now) (λ e. not (is_member e set.now) && row == (ends_of cells.now e).0)) }
{
    let mut rows = ElemSet::new(alloc);
    for e in 0..cells.len() {
        if !set.contains(e as u32) {
            rows.add(cells.get(e).0)?;
        }
    }
    Ok(rows)
}

/// The columns of the cells in a set. The only error is want of memory.
pub fn columns_inside(alloc: Global, cells: &Pairs, set: &ElemSet) -> Result<ElemSet, AllocError>
    requires { length cells.now < 2 ^ 32 }
    ensures { IfOk result (λ columns. (column : ℕ) → is_member column columns
        ≡ some_below (length cells.now) (λ e. is_member e set.now && column == (ends_of cells.now e).1)) }
{
    let mut columns = ElemSet::new(alloc);
    for e in 0..cells.len() {
        if set.contains(e as u32) {
            columns.add(cells.get(e).1)?;
        }
    }
    Ok(columns)
}
