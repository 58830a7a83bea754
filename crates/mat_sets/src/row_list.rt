//! A list of rows: a set of numbers below 512 at each place of a list.
ghost use Rattle.std.specs.Prelude.{◌≡◌, ◌<◌, [], length, replicate, slice_set, IfOk};
ghost use Rattle.mat_sets.specs.{Rows.{row_at, AreRemoved, IsEntered}, Sets.{with_one, AllBelow}};

use crate::bit_row::BitRow;
use crate::bit_set::BitSet;
use std::alloc::{AllocError, Global};
use std::marker::Model;

/// A list of sets of numbers below 512, each kept as bits in the list itself: the rows of a relation.
#[derive(Debug, Drop)]
pub struct RowList {
    rows: Vec<BitRow>,
}

impl Model for RowList {
    ghost use Rattle.std.specs.Prelude.{ℕ, List};

    ghost Value = { List (List ℕ) };

    ghost view = { λ r. r.rows.items };
}

impl RowList {
    /// This many empty rows. The only error is want of memory.
    pub fn with_rows(alloc: Global, count: u32) -> Result<RowList, AllocError>
        ensures { IfOk result (λ r. r ≡ replicate count []) }
    {
        let mut rows = Vec::with_capacity(alloc, count as usize)?;
        for _ in 0..count {
            rows.push(BitRow::new())?;
        }
        Ok(RowList { rows })
    }

    /// How many rows there are.
    pub fn len(&self) -> usize
        ensures { result ≡ length self.now }
    {
        self.rows.len()
    }

    /// The row at place i.
    pub fn row(&self, i: u32) -> &BitRow
        requires { i < length self.now }
        ensures { result.now ≡ row_at self.now i }
    {
        &self.rows[i as usize]
    }

    /// Puts k into the row at place i. It takes no memory.
    pub fn insert(&mut self, i: u32, k: u32)
        requires place { i < length self.old }
        requires number { k < 512 }
        ensures { self.new ≡ slice_set self.old i (with_one (row_at self.old i) k) }
    {
        self.rows[i as usize].insert(k);
    }

    /// Puts k into the rows at these places. It takes no memory.
    pub fn insert_each(&mut self, places: &[u32], k: u32)
        requires places { AllBelow (length self.old) places.now }
        requires number { k < 512 }
        ensures { IsEntered k places.now self.old self.new }
    {
        for i in places {
            self.insert(*i, k);
        }
    }

    /// Takes the members of a set out of each row. It takes no memory.
    pub fn remove_from_each(&mut self, gone: &BitSet)
        ensures { AreRemoved gone.now self.old self.new }
    {
        for at in 0..self.rows.len() {
            self.rows[at].remove_all(gone);
        }
    }

    /// Puts another row at place i. It takes no memory.
    pub fn replace(&mut self, i: u32, row: BitRow)
        requires { i < length self.old }
        ensures { self.new ≡ slice_set self.old i row }
    {
        self.rows[i as usize] = row;
    }
}
