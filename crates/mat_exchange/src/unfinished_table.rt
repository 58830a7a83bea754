//! Tables of exchanges in which some rows are missing.
ghost use Rattle.std.specs.Prelude.{◌≡◌, ℕ, ◌≤◌, ◌||◌, true, length, IfOk};
ghost use Rattle.mat_sets.specs.{Limits.{most_elements}, Sets.{AllBelow, is_member}};
ghost use Rattle.mat_laws.specs.{Exchanges.{rows_of}, TightPaths.{exchanges_in}};
ghost use Rattle.mat_exchange.specs.RowTables.{AreLost, IsFilledTable, entered_to};

use crate::at_set::ExchangesAt;
use crate::partial_table::PartialTable;
use crate::row_table::RowTable;
use mat_laws::Matroid;
use mat_sets::{BitSet, ElemSet};
use std::alloc::{AllocError, Global};

/// What a matroid keeps of an independent set, and a table of the exchanges at it in which the rows of some elements are missing.
#[derive(Drop)]
pub(crate) struct UnfinishedTable<K: Drop> {
    pub(crate) kept: K,
    pub(crate) missing: BitSet,
    pub(crate) table: PartialTable,
}

/// A table at an independent set in which all rows are missing. The only error is want of memory.
pub(crate) fn begun<M: Matroid>(
    alloc: Global,
    m: &M,
    set: &ElemSet,
) -> Result<UnfinishedTable<M::Kept>, AllocError>
    requires sound { M.sound m.now }
    requires independent { M.indep m.now set.now ≡ true }
    ensures kept { IfOk result (λ begun. M.keeps m.now set.now begun.kept) }
    ensures filled { IfOk result (λ begun. IsFilledTable (rows_of (M.ground_size m.now) (M.indep m.now) set.now) (entered_to begun.missing 0)
        begun.table.addable begun.table.rows begun.table.columns) }
{
    let kept = m.keep(alloc, set)?;
    let n = m.size();
    let missing = BitSet::all_below(alloc, n)?;
    let table = PartialTable::new(alloc, n)?;
    Ok(UnfinishedTable {
        kept,
        missing,
        table,
    })
}

/// The elements whose written rows may change from one set to the next: of those that could not be added the ones that come, and those that
/// could be exchanged for a member that leaves. The only error is want of memory.
fn lost_rows(
    alloc: Global,
    table: &RowTable,
    came: &ElemSet,
    left: &ElemSet,
) -> Result<BitSet, AllocError>
    requires came { AllBelow (length table.now) came.now }
    requires left { AllBelow (length table.now) left.now }
    ensures { IfOk result (AreLost (exchanges_in table.now) came.now left.now) }
{
    let mut lost = BitSet::new(alloc);
    table.unite_unaddable(came.as_slice(), &mut lost)?;
    table.unite_columns(left.as_slice(), &mut lost)?;
    Ok(lost)
}

/// The elements whose rows are missing at the next set: beside those whose written rows may change the ones that come or leave, and all that
/// could be added. The only error is want of memory.
fn missing_rows(
    alloc: Global,
    table: &RowTable,
    came: &ElemSet,
    left: &ElemSet,
    lost: &BitSet,
) -> Result<BitSet, AllocError>
    ensures { IfOk result (λ missing. (x : ℕ) → is_member x missing
        ≡ (is_member x came.now || is_member x left.now || is_member x lost.now || (exchanges_in table.now).adds x)) }
{
    let moved = came.union(alloc, left)?;
    let mut missing = moved.to_bits(alloc)?;
    missing.unite(lost)?;
    missing.unite(table.addable_elements())?;
    Ok(missing)
}

/// What the matroid keeps of the next independent set, and the table at it with rows that are the same at both. The row of an element that could
/// not be added stays as it is where no member of its circuit leaves (Oxley, Proposition 1.1.6: there is one circuit alone). The only error is
/// want of memory.
pub(crate) fn reopened<M: Matroid>(
    alloc: Global,
    m: &M,
    set: &ElemSet,
    at: ExchangesAt<M::Kept>,
    next: &ElemSet,
) -> Result<UnfinishedTable<M::Kept>, AllocError>
    requires sound { M.sound m.now }
    requires independent { M.indep m.now set.now ≡ true }
    requires few { M.ground_size m.now ≤ most_elements }
    requires kept { M.keeps m.now set.now at.kept }
    requires table { at.table ≡ rows_of (M.ground_size m.now) (M.indep m.now) set.now }
    requires next { M.indep m.now next.now ≡ true }
    ensures kept { IfOk result (λ reopened. M.keeps m.now next.now reopened.kept) }
    ensures filled { IfOk result (λ reopened. IsFilledTable (rows_of (M.ground_size m.now) (M.indep m.now) next.now) (entered_to reopened.missing 0)
        reopened.table.addable reopened.table.rows reopened.table.columns) }
{
    m.lawful();
    let ExchangesAt { kept, table } = at;
    let next_kept = m.keep_next(alloc, set, &kept, next)?;
    let came = next.minus(alloc, set)?;
    let left = set.minus(alloc, next)?;
    let lost = lost_rows(alloc, &table, &came, &left)?;
    let missing = missing_rows(alloc, &table, &came, &left, &lost)?;
    let table = PartialTable::reopened(alloc, table, &lost, &missing);
    Ok(UnfinishedTable {
        kept: next_kept,
        missing,
        table,
    })
}
