//! The exchanges of all elements at an independent set, as rows of bits.
ghost use Rattle.std.specs.Prelude.{◌≡◌, ℕ, ◌<◌, ◌&&◌, not, true, false, if◌then◌else◌, length, IfOk, OnOk};
ghost use Rattle.mat_sets.specs.{Bits.{bits_of}, Rows.{row_at}, Sets.{is_member, AllBelow}};
ghost use Rattle.mat_laws.specs.TightPaths.{exchanges_in, row_in};
ghost use Rattle.mat_exchange.specs.RowTables.{AreAlike, AreTransposed, table_of, written};

use mat_sets::{BitSet, RowList};
use std::alloc::{AllocError, Global};
use std::marker::Model;

/// The exchanges of all elements at an independent set, as rows of bits (Schrijver, chapter 41).
#[derive(Debug, Drop)]
pub struct RowTable {
    base: BitSet,
    addable: BitSet,
    // The rows have at x, where it cannot be added, the members that it can be exchanged for, and the columns at y those of these elements
    // that can be exchanged for y. What can be added can be exchanged for each member of the base.
    rows: RowList,
    columns: RowList,
}

impl Model for RowTable {
    ghost use Rattle.std.specs.Prelude.{List};
    ghost use Rattle.mat_laws.specs.declared.exchange.Exchange.{Exchange};
    ghost use Rattle.mat_exchange.specs.RowTables.{table_of, AreTransposed};

    ghost Value = { List Exchange };

    ghost view = { λ t. table_of t.base t.addable t.rows };

    ghost invariant = { λ t. AreTransposed t.addable t.rows t.columns };
}

/// The elements that can be added, where y is in the base; else none.
fn addable_for(alloc: Global, base: &BitSet, addable: &BitSet, y: u32) -> Result<BitSet, AllocError>
    ensures { IfOk result (λ s. (x : ℕ) → is_member x s ≡ (if is_member y base.now then is_member x addable.now else false)) }
{
    if base.contains(y) {
        return addable.copy(alloc);
    }
    Ok(BitSet::new(alloc))
}

impl RowTable {
    /// The table of a base, the elements that can be added, and the rows and columns of the others.
    pub(crate) fn new(base: BitSet, addable: BitSet, rows: RowList, columns: RowList) -> RowTable
        requires { AreTransposed addable rows columns }
        ensures { result ≡ table_of base addable rows }
    {
        RowTable {
            base,
            addable,
            rows,
            columns,
        }
    }

    /// The rows and columns of the elements that cannot be added.
    pub(crate) fn into_rows(self) -> (RowList, RowList)
        ensures count { length result.0 ≡ length self }
        ensures columns { length result.1 ≡ length self }
        ensures rows { (x : ℕ) → row_at result.0 x ≡ written (row_in self x) }
        ensures transposed { (y x : ℕ) → y < length self
            → is_member x (row_at result.1 y) ≡ (not ((exchanges_in self).adds x) && (exchanges_in self).trades y x) }
    {
        let RowTable { rows, columns, .. } = self;
        (rows, columns)
    }

    /// Whether x can be added. It takes constant time and no memory.
    #[tactic(auto, using(crate::proofs::RowTables::addable_tells))]
    pub fn addable(&self, x: u32) -> bool
        requires { x < length self.now }
        ensures { result ≡ (exchanges_in self.now).adds x }
    {
        self.addable.contains(x)
    }

    /// Whether x can be exchanged for y. It takes constant time and no memory.
    pub fn trades(&self, y: u32, x: u32) -> bool
        requires member { y < length self.now }
        requires element { x < length self.now }
        ensures { result ≡ (exchanges_in self.now).trades y x }
    {
        if self.addable.contains(x) {
            self.base.contains(y)
        } else {
            self.rows.row(x).contains(y)
        }
    }

    /// The elements that can be added. All of them can be exchanged for the same members.
    pub(crate) fn addable_elements(&self) -> &BitSet
        ensures elements { (x : ℕ) → is_member x result.now ≡ (exchanges_in self.now).adds x }
        ensures alike { AreAlike (exchanges_in self.now) }
    {
        &self.addable
    }

    /// The members that what can be added can be exchanged for.
    #[tactic(auto, using(crate::proofs::RowTables::addable_tells, crate::proofs::RowTables::base_tells))]
    pub(crate) fn base(&self) -> &BitSet
        ensures { (y x : ℕ) → (exchanges_in self.now).adds x ≡ true → is_member y result.now ≡ (exchanges_in self.now).trades y x }
    {
        &self.base
    }

    /// The members that x can be exchanged for, as bits.
    pub(crate) fn row(&self, x: u32) -> &[u64]
        requires { x < length self.now }
        ensures { (y : ℕ) → is_member y (bits_of result.now) ≡ (exchanges_in self.now).trades y x }
    {
        if self.addable.contains(x) {
            self.base.as_words()
        } else {
            self.rows.row(x).as_words()
        }
    }

    /// The elements that cannot be added and can be exchanged for y, as bits.
    pub(crate) fn rest_of_column(&self, y: u32) -> &[u64]
        requires { y < length self.now }
        ensures { (x : ℕ) → is_member x (bits_of result.now) ≡ (not ((exchanges_in self.now).adds x) && (exchanges_in self.now).trades y x) }
    {
        self.columns.row(y).as_words()
    }

    /// The elements that can be exchanged for y. The only error is want of memory.
    pub(crate) fn column(&self, alloc: Global, y: u32) -> Result<BitSet, AllocError>
        requires { y < length self.now }
        ensures { IfOk result (λ column. (x : ℕ) → is_member x column ≡ (exchanges_in self.now).trades y x) }
    {
        let mut column = addable_for(alloc, &self.base, &self.addable, y)?;
        column.unite_row(self.columns.row(y))?;
        Ok(column)
    }

    /// Puts those of these elements that cannot be added into a set. The only error is want of memory.
    pub(crate) fn unite_unaddable(
        &self,
        elements: &[u32],
        into: &mut BitSet,
    ) -> Result<(), AllocError>
        requires { AllBelow (length self.now) elements.now }
        ensures holds { OnOk result ((x : ℕ) → is_member x into.old ≡ true → is_member x into.new ≡ true) }
        ensures puts { OnOk result ((x : ℕ) → is_member x elements.now ≡ true → (exchanges_in self.now).adds x ≡ false → is_member x into.new ≡ true) }
    {
        for x in elements {
            if !self.addable(*x) {
                into.insert(*x)?;
            }
        }
        Ok(())
    }

    /// Puts the elements that cannot be added and can be exchanged for one of these members into a set. The only error is want of memory.
    pub(crate) fn unite_columns(&self, members: &[u32], into: &mut BitSet) -> Result<(), AllocError>
        requires { AllBelow (length self.now) members.now }
        ensures holds { OnOk result ((x : ℕ) → is_member x into.old ≡ true → is_member x into.new ≡ true) }
        ensures columns { OnOk result ((y x : ℕ) → is_member y members.now ≡ true → (exchanges_in self.now).adds x ≡ false
            → (exchanges_in self.now).trades y x ≡ true → is_member x into.new ≡ true) }
    {
        for y in members {
            into.unite_row(self.columns.row(*y))?;
        }
        Ok(())
    }
}
