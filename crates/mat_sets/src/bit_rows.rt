//! Rows of bits: a set of numbers at each place of a list.
ghost use Rattle.std.specs.Prelude.{◌≡◌, ◌<◌, ◌++◌, ◌∷◌, [], length, replicate, slice_set, IfOk, OnOk, OnErr};
ghost use Rattle.mat_sets.specs.{Rows.{row_at, AreEmptied, AreRemoved, IsEntered}, Sets.{with_one, AllBelow}};

use crate::bit_set::BitSet;
use std::alloc::{AllocError, Global};
use std::marker::Model;

/// A list of sets of numbers, each kept as bits: the rows of a relation.
#[derive(Debug, Drop)]
pub struct BitRows {
    rows: Vec<BitSet>,
}

impl Model for BitRows {
    ghost use Rattle.std.specs.Prelude.{ℕ, List};

    ghost Value = { List (List ℕ) };

    ghost view = { λ r. r.rows.items };
}

impl BitRows {
    /// No rows. It takes no memory; `alloc` is where later rows get theirs.
    pub fn new(alloc: Global) -> BitRows
        ensures { result ≡ [] }
    {
        BitRows {
            rows: Vec::new(alloc),
        }
    }

    /// This many empty rows, each with room for the numbers below `width`. The only error is want of memory.
    pub fn with_rows(alloc: Global, count: u32, width: u32) -> Result<BitRows, AllocError>
        ensures { IfOk result (λ r. r ≡ replicate count []) }
    {
        let mut rows = Vec::with_capacity(alloc, count as usize)?;
        for _ in 0..count {
            rows.push(BitSet::with_capacity(alloc, width)?)?;
        }
        Ok(BitRows { rows })
    }

    /// How many rows there are.
    pub fn len(&self) -> usize
        ensures { result ≡ length self.now }
    {
        self.rows.len()
    }

    /// The row at place i.
    pub fn row(&self, i: u32) -> &BitSet
        requires { i < length self.now }
        ensures { result.now ≡ row_at self.now i }
    {
        &self.rows[i as usize]
    }

    /// Puts a row at the end. After an error the rows are as before.
    pub fn push(&mut self, row: BitSet) -> Result<(), AllocError>
        ensures ok { OnOk result (self.new ≡ self.old ++ row ∷ []) }
        ensures err { OnErr result (self.new ≡ self.old) }
    {
        self.rows.push(row)?;
        Ok(())
    }

    /// Puts another row at place i. It takes no memory.
    pub fn replace(&mut self, i: u32, row: BitSet)
        requires { i < length self.old }
        ensures { self.new ≡ slice_set self.old i row }
    {
        self.rows[i as usize] = row;
    }

    /// Puts k into the row at place i. After an error the rows are as before.
    pub fn insert(&mut self, i: u32, k: u32) -> Result<(), AllocError>
        requires { i < length self.old }
        ensures ok { OnOk result (self.new ≡ slice_set self.old i (with_one (row_at self.old i) k)) }
        ensures err { OnErr result (self.new ≡ self.old) }
    {
        self.rows[i as usize].insert(k)
    }

    /// Puts k into the rows at these places. The only error is want of memory.
    pub fn insert_each(&mut self, places: &[u32], k: u32) -> Result<(), AllocError>
        requires { AllBelow (length self.old) places.now }
        ensures { OnOk result (IsEntered k places.now self.old self.new) }
    {
        for i in places {
            self.insert(*i, k)?;
        }
        Ok(())
    }

    /// Other rows of the same members. The time is that of the words. The only error is want of memory.
    pub fn copy(&self, alloc: Global) -> Result<BitRows, AllocError>
        ensures { IfOk result (λ r. r ≡ self.now) }
    {
        let mut rows = Vec::with_capacity(alloc, self.rows.len())?;
        for at in 0..self.rows.len() {
            rows.push(self.rows[at].copy(alloc)?)?;
        }
        Ok(BitRows { rows })
    }

    /// Takes the members of a set out of each row. It takes no memory.
    pub fn remove_from_each(&mut self, gone: &BitSet)
        ensures { AreRemoved gone.now self.old self.new }
    {
        for at in 0..self.rows.len() {
            self.rows[at].remove_all(gone);
        }
    }

    /// Empties the rows at these places, which then have room for the numbers below `width`. The only error is want of memory.
    pub fn empty_each(
        &mut self,
        alloc: Global,
        places: &[u32],
        width: u32,
    ) -> Result<(), AllocError>
        requires { AllBelow (length self.old) places.now }
        ensures { OnOk result (AreEmptied places.now self.old self.new) }
    {
        for i in places {
            let row = BitSet::with_capacity(alloc, width)?;
            self.replace(*i, row);
        }
        Ok(())
    }
}
