//! Arcs from each element to those whose place it can take in some part of an independent set of a union, and what is reached along them.
ghost use Rattle.std.specs.Prelude.{◌≡◌, ◌<◌, ◌↔◌, ℕ, List, [], Bool, true, length, replicate, ◌^◌, IfOk, IsTrue, OnOk};
ghost use Rattle.mat_sets.specs.{Families.{family_union}, Rows.{row_at}, Sets.{is_member, AllBelow}};
ghost use Rattle.mat_laws.specs.{Columns.{AreColumns}, TightPaths.{Exchanges}};
ghost use Rattle.mat_union.specs.{
  FollowedArcs.{AreAdded, AreArcs, AreColumnsOf, AreFollowed, ArePassed, AreReached, AreRowsUnited, IsRowUnited},
  Moves.{exchanges_with},
  Unions.{union_test, AreMatroids, AreParts},
};

use mat_sets::{BitRows, BitSet, ElemSet};
use std::alloc::{AllocError, Global};

/// Arcs between elements, each at the element to which it leads, and the elements that can be added to a part.
#[derive(Debug, Drop)]
pub struct ExchangeArcs {
    /// For each element, at its number, those that can take its place in some part; once the arcs are followed, those that reach it.
    pub into: Vec<BitSet>,
    /// The elements that can be added to some part.
    pub entering: BitSet,
}

// So many empty rows.
fn empty_rows(alloc: Global, count: u32) -> Result<Vec<BitSet>, AllocError>
    ensures { IfOk result (λ rows. rows.items ≡ replicate count []) }
{
    let mut rows = Vec::with_capacity(alloc, count as usize)?;
    for _ in 0..count {
        rows.push(BitSet::new(alloc))?;
    }
    Ok(rows)
}

// Puts a set into the row at a place.
fn unite_row(rows: &mut Vec<BitSet>, at: u32, more: &BitSet) -> Result<(), AllocError>
    requires { at < length rows.old.items }
    ensures { OnOk result (IsRowUnited at more.now rows.old.items rows.new.items) }
{
    rows[at as usize].unite(more)?;
    Ok(())
}

// Puts each row into the row at its place.
fn unite_rows(rows: &mut Vec<BitSet>, more: &BitRows) -> Result<(), AllocError>
    requires few { length more.now < 2 ^ 32 }
    requires long { length more.now ≡ length rows.old.items }
    ensures { OnOk result (AreRowsUnited more.now rows.old.items rows.new.items) }
{
    for y in 0..rows.len() {
        unite_row(rows, y as u32, more.row(y as u32))?;
    }
    Ok(())
}

// Puts the row of v into each row at these places in which v is.
fn pass_through(
    alloc: Global,
    rows: &mut Vec<BitSet>,
    places: &[u32],
    v: u32,
) -> Result<(), AllocError>
    requires below { AllBelow (length rows.old.items) places.now }
    requires here { v < length rows.old.items }
    ensures { OnOk result (ArePassed v places.now rows.old.items rows.new.items) }
{
    let through = rows[v as usize].copy(alloc)?;
    for y in places {
        if rows[*y as usize].contains(v) {
            unite_row(rows, *y, &through)?;
        }
    }
    Ok(())
}

// Follows the arcs between these places: the row of each is passed through all (Warshall 1962).
fn follow_rows(alloc: Global, rows: &mut Vec<BitSet>, places: &[u32]) -> Result<(), AllocError>
    requires { AllBelow (length rows.old.items) places.now }
    ensures { OnOk result (AreFollowed places.now rows.old.items rows.new.items) }
{
    for v in places {
        pass_through(alloc, rows, places, *v)?;
    }
    Ok(())
}

// At each of these members its row together with what is added, but for what is left out.
fn columns_of(
    alloc: Global,
    rows: &[BitSet],
    members: &[u32],
    added: &BitSet,
    out: &BitSet,
) -> Result<BitRows, AllocError>
    requires few { length rows.now < 2 ^ 32 }
    requires below { AllBelow (length rows.now) members.now }
    ensures { IfOk result (λ columns. AreColumnsOf members.now rows.now added.now out.now columns) }
{
    let mut columns = BitRows::with_rows(alloc, rows.len() as u32, 0)?;
    for y in members {
        let mut column = rows[*y as usize].copy(alloc)?;
        column.unite(added)?;
        column.remove_all(out);
        columns.replace(*y, column);
    }
    Ok(columns)
}

impl ExchangeArcs {
    /// No arcs between so many elements. The only error is want of memory.
    pub fn new(alloc: Global, n: u32) -> Result<ExchangeArcs, AllocError>
        ensures { IfOk result (λ arcs. (exchanges : ℕ → Exchanges) → AreArcs n 0 exchanges arcs) }
    {
        let into = empty_rows(alloc, n)?;
        let entering = BitSet::new(alloc);
        Ok(ExchangeArcs { into, entering })
    }

    /// Adds the arcs at one more part, which are its columns. The only error is want of memory.
    pub fn add(&mut self, columns: &BitRows) -> Result<(), AllocError>
        requires few { length columns.now < 2 ^ 32 }
        requires long { length columns.now ≡ length self.old.into.items }
        ensures into { OnOk result (AreRowsUnited columns.now self.old.into.items self.new.into.items) }
        ensures entering { OnOk result (self.new.entering ≡ self.old.entering) }
    {
        unite_rows(&mut self.into, columns)?;
        Ok(())
    }

    /// Follows the arcs between the members of parts to their ends: then each member has the elements that reach it. The only error is want of
    /// memory.
    pub fn follow(&mut self, alloc: Global, members: &[u32]) -> Result<(), AllocError>
        requires { AllBelow (length self.old.into.items) members.now }
        ensures { OnOk result ((n m : ℕ) (exchanges : ℕ → Exchanges) → AreArcs n m exchanges self.old → AreReached n m exchanges members.now self.new) }
    {
        follow_rows(alloc, &mut self.into, members)?;
        Ok(())
    }

    // The elements that can be added to some part, and those that reach a member of which this is so.
    fn added(&self, alloc: Global, members: &[u32]) -> Result<BitSet, AllocError>
        requires { AllBelow (length self.now.into.items) members.now }
        ensures { IfOk result (λ added. AreAdded self.now.entering members.now self.now.into.items added) }
    {
        let mut added = self.entering.copy(alloc)?;
        for y in members {
            if self.entering.contains(*y) {
                added.unite(&self.into[*y as usize])?;
            }
        }
        Ok(added)
    }

    /// Once the arcs are followed: for each member of the set of the parts, at its number, the elements outside the set that can take its
    /// place in the union (Schrijver, chapter 42). The only error is want of memory.
    pub fn columns(&self, alloc: Global, set: &ElemSet) -> Result<BitRows, AllocError>
        requires few { length self.now.into.items < 2 ^ 32 }
        requires below { AllBelow (length self.now.into.items) set.now }
        ensures { IfOk result (λ columns. (n : ℕ) (tests : List (List ℕ → Bool)) (parts : List (List ℕ)) → AreMatroids n tests → AreParts tests parts
            → family_union parts ≡ set.now → AreReached n (length parts) (exchanges_with tests parts) set.now self.now
            → AreColumns n (union_test n tests) set.now columns) }
    {
        let members = set.to_bits(alloc)?;
        let added = self.added(alloc, set.as_slice())?;
        columns_of(
            alloc,
            self.into.as_slice(),
            set.as_slice(),
            &added,
            &members,
        )
    }
}

/// Whether x can take the place of each member of a part, by the columns at it.
pub fn takes_each_place(columns: &BitRows, part: &ElemSet, x: u32) -> bool
    requires { AllBelow (length columns.now) part.now }
    ensures { IsTrue result ↔ ((y : ℕ) → is_member y part.now ≡ true → is_member x (row_at columns.now y) ≡ true) }
{
    for y in part.as_slice() {
        if !columns.row(*y).contains(x) {
            return false;
        }
    }
    true
}
