//! How a table of rows is made: one missing row after the other is entered.
ghost use Rattle.std.specs.Prelude.{◌≡◌, ℕ, ◌<◌, ◌≤◌, ◌+◌, true, false, nat_lt, if◌then◌else◌, List, [], length, IfOk, OnOk};
ghost use Rattle.mat_sets.specs.{Limits.{most_elements}, Rows.{row_at}, Sets.{AllBelow, is_member}};
ghost use Rattle.mat_laws.specs.{TightPaths.{exchanges_in, row_in}, declared.exchange.Exchange.{Exchange}};
ghost use Rattle.mat_exchange.specs.RowTables.{AreWhole, IsFilledTable, entered_to, written};

use crate::row_table::RowTable;
use mat_laws::Exchange;
use mat_sets::{BitRow, BitSet, ElemSet, RowList};
use std::alloc::{AllocError, Global};

/// A table of which the rows of some elements are entered.
#[derive(Debug, Drop)]
pub(crate) struct PartialTable {
    pub(crate) addable: BitSet,
    pub(crate) rows: RowList,
    pub(crate) columns: RowList,
}

/// Whether a set has a member.
fn has_member(set: &BitSet) -> bool
    ensures some { result ≡ true → (x : ℕ) × (is_member x set.now ≡ true) }
    ensures none { result ≡ false → (x : ℕ) → is_member x set.now ≡ false }
{
    set.next_from(0).is_some()
}

/// Empties the rows of these elements.
fn empty_rows(rows: &mut RowList, elements: &BitSet)
    requires { length rows.old ≤ most_elements }
    ensures count { length rows.new ≡ length rows.old }
    ensures rows { (k : ℕ) → row_at rows.new k ≡ (if is_member k elements.now then [] else row_at rows.old k) }
{
    for x in 0..rows.len() as u32 {
        if elements.contains(x) {
            rows.replace(x, BitRow::new());
        }
    }
}

impl PartialTable {
    /// A table of n elements in which all rows are missing.
    pub(crate) fn new(alloc: Global, n: u32) -> Result<PartialTable, AllocError>
        ensures { IfOk result (λ t. (exchanges : List Exchange) (missing : List ℕ) → length exchanges ≡ n
            → ((k : ℕ) → is_member k missing ≡ nat_lt k n) → IsFilledTable exchanges (entered_to missing 0) t.addable t.rows t.columns) }
    {
        Ok(PartialTable {
            addable: BitSet::with_capacity(alloc, n)?,
            rows: RowList::with_rows(alloc, n)?,
            columns: RowList::with_rows(alloc, n)?,
        })
    }

    /// The rows of a table but for the missing ones, among which are those of all that could be added. Of the missing ones only the lost rows
    /// were written down.
    pub(crate) fn reopened(
        alloc: Global,
        table: RowTable,
        lost: &BitSet,
        missing: &BitSet,
    ) -> PartialTable
        requires few { length table ≤ most_elements }
        requires lost { (x : ℕ) → is_member x lost.now ≡ true → is_member x missing.now ≡ true }
        requires bare { (x : ℕ) → is_member x missing.now ≡ true → is_member x lost.now ≡ false → written (row_in table x) ≡ [] }
        requires added { (x : ℕ) → (exchanges_in table).adds x ≡ true → is_member x missing.now ≡ true }
        ensures { (exchanges : List Exchange) → length exchanges ≡ length table
            → ((x : ℕ) → is_member x missing.now ≡ false → row_in exchanges x ≡ row_in table x)
            → IsFilledTable exchanges (entered_to missing.now 0) result.addable result.rows result.columns }
    {
        let (mut rows, mut columns) = table.into_rows();
        if has_member(lost) {
            empty_rows(&mut rows, lost);
            columns.remove_from_each(lost);
        }
        PartialTable {
            addable: BitSet::new(alloc),
            rows,
            columns,
        }
    }

    /// Enters x, whose row is the next missing one, as an element that can be added.
    pub(crate) fn enter_addable(&mut self, x: u32) -> Result<(), AllocError>
        ensures { OnOk result ((exchanges : List Exchange) (missing : List ℕ) → (row_in exchanges x).addable ≡ true
            → IsFilledTable exchanges (entered_to missing x) self.old.addable self.old.rows self.old.columns
            → IsFilledTable exchanges (entered_to missing (x + 1)) self.new.addable self.new.rows self.new.columns) }
    {
        self.addable.insert(x)?;
        Ok(())
    }

    /// Enters the next missing row, of an element x that cannot be added.
    pub(crate) fn enter(&mut self, x: u32, with: &ElemSet)
        requires place { x < length self.old.rows }
        requires few { length self.old.rows ≤ most_elements }
        requires count { length self.old.columns ≡ length self.old.rows }
        requires below { AllBelow (length self.old.rows) with.now }
        ensures { (exchanges : List Exchange) (missing : List ℕ) → row_in exchanges x ≡ record { addable = false; with = with.now }
            → IsFilledTable exchanges (entered_to missing x) self.old.addable self.old.rows self.old.columns
            → IsFilledTable exchanges (entered_to missing (x + 1)) self.new.addable self.new.rows self.new.columns }
    {
        self.columns.insert_each(with.as_slice(), x);
        self.rows.replace(x, with.to_row());
    }

    /// Enters the next missing row, of x.
    pub(crate) fn enter_row(&mut self, x: u32, row: &Exchange) -> Result<(), AllocError>
        requires place { x < length self.old.rows }
        requires few { length self.old.rows ≤ most_elements }
        requires count { length self.old.columns ≡ length self.old.rows }
        requires below { AllBelow (length self.old.rows) row.now.with }
        ensures { OnOk result ((exchanges : List Exchange) (missing : List ℕ) → row_in exchanges x ≡ row.now
            → IsFilledTable exchanges (entered_to missing x) self.old.addable self.old.rows self.old.columns
            → IsFilledTable exchanges (entered_to missing (x + 1)) self.new.addable self.new.rows self.new.columns) }
    {
        if row.addable {
            return self.enter_addable(x);
        }
        self.enter(x, &row.with);
        Ok(())
    }

    /// The table of a base, once all rows are entered.
    pub(crate) fn finish(self, base: BitSet) -> RowTable
        requires filled { (exchanges : List Exchange) × (missing : List ℕ)
            × IsFilledTable exchanges (entered_to missing (length exchanges)) self.addable self.rows self.columns }
        ensures { (exchanges : List Exchange) (missing : List ℕ)
            → IsFilledTable exchanges (entered_to missing (length exchanges)) self.addable self.rows self.columns
            → AreWhole base exchanges → result ≡ exchanges }
    {
        let PartialTable {
            addable,
            rows,
            columns,
        } = self;
        RowTable::new(base, addable, rows, columns)
    }
}
