//! What a transversal matroid keeps of an independent set.
ghost use Rattle.std.specs.{Prelude.{◌≡◌, ◌<◌, ◌^◌, ℕ, List, Some, true, false, length, IfOk}, List.{All}};
ghost use Rattle.mat_sets.specs.Sets.{is_member, minus, AllBelow, IsRising};
ghost use Rattle.mat_flow.specs.LinkTables.{entry_at};
ghost use Rattle.mat_laws.specs.Exchanges.{row_of};
ghost use Rattle.mat_linked.specs.{
  KeptMatchings.{IsKeptMatching, LeadToFree},
  Matchings.{entry_without, is_matched_among, AreIndices, AreMatchable, IsMatching},
  Transversals.{is_transversal},
};

use crate::alternating::Alternating;
use crate::matching::matched_with_new;
use mat_flow::{SearchRoom, leading_vertices};
use mat_laws::Exchange;
use mat_sets::{BitRows, BitSet, ElemSet};
use std::alloc::{AllocError, Global};

/// A matching of the members of an independent set with different sets of the family, each of which holds its member
/// (Schrijver, chapter 39).
#[derive(Debug, Drop)]
pub struct KeptMatching {
    // At j the element that the set with index j is matched with.
    matched: Vec<Option<u32>>,
    // The indices from which a walk leads to a set that is not matched.
    leading: BitSet,
}

// The elements that the sets with these indices are matched with.
fn matched_among(
    alloc: Global,
    matched: &[Option<u32>],
    indices: &[u32],
) -> Result<BitSet, AllocError>
    requires { AllBelow (length matched.now) indices.now }
    ensures { IfOk result (λ found. (y : ℕ) → is_member y found ≡ is_matched_among matched.now indices.now y) }
{
    let mut found = BitSet::new(alloc);
    for j in indices {
        if let Some(y) = matched[*j as usize] {
            found.insert(y)?;
        }
    }
    Ok(found)
}

// What is left at an index where these elements are taken out of a matching.
fn entry_left(entry: Option<u32>, gone: &ElemSet) -> Option<u32>
    ensures { result ≡ entry_without gone.now entry }
{
    match entry {
        Some(x) => { if gone.contains(x) { None } else { Some(x) } }
        None => None,
    }
}

// A matching without these elements.
fn matched_without(
    alloc: Global,
    matched: &[Option<u32>],
    gone: &ElemSet,
) -> Result<Vec<Option<u32>>, AllocError>
    ensures long { IfOk result (λ left. length left.items ≡ length matched.now) }
    ensures matching { IfOk result (λ left. (rows : List (List ℕ)) (X : List ℕ) → IsMatching rows X matched.now
        → IsMatching rows (minus X gone.now) left.items) }
{
    let mut left = Vec::with_capacity(alloc, matched.len())?;
    for entry in matched {
        left.push(entry_left(*entry, gone))?;
    }
    Ok(left)
}

// What is kept of a matching with an entry for each of so many sets.
fn kept_of(
    alloc: Global,
    rows: &BitRows,
    sets: u32,
    matched: Vec<Option<u32>>,
) -> Result<KeptMatching, AllocError>
    requires long { length matched.items ≡ sets }
    requires below { (j x : ℕ) → entry_at matched.items j ≡ Some x → x < length rows.now }
    ensures { IfOk result (λ kept. (kept.matched.items ≡ matched.items) × LeadToFree rows.now matched.items kept.leading) }
{
    let walks = Alternating {
        rows,
        matched: &matched,
        element: None,
    };
    let leading = leading_vertices(alloc, &walks, sets)?;
    Ok(KeptMatching { matched, leading })
}

impl KeptMatching {
    /// A matching of this independent set, where `rows` has for each element the indices of the sets that hold it. The only
    /// error is want of memory.
    pub(crate) fn new(
        alloc: Global,
        rows: &BitRows,
        sets: u32,
        base: &ElemSet,
    ) -> Result<KeptMatching, AllocError>
        requires below { AllBelow (length rows.now) base.now }
        requires matchable { AreMatchable rows.now sets base.now }
        ensures { IfOk result (λ kept. (family : List (List ℕ)) → length family ≡ sets → AreIndices (length rows.now) family rows.now
            → IsKeptMatching (length rows.now) family base.now kept) }
    {
        let empty = vec![in alloc; None; sets as usize]?;
        let matched = matched_with_new(alloc, rows, sets, empty, &ElemSet::new(alloc), base)?;
        kept_of(alloc, rows, sets, matched)
    }

    /// A matching of another independent set: the members that are gone are taken out of this one, and one search of the bits of the rows
    /// is made for each that is new. The only error is want of memory.
    pub(crate) fn next(
        &self,
        alloc: Global,
        rows: &BitRows,
        sets: u32,
        base: &ElemSet,
        next: &ElemSet,
    ) -> Result<KeptMatching, AllocError>
        requires long { length self.now.matched.items ≡ sets }
        requires matching { IsMatching rows.now base.now self.now.matched.items }
        requires below { AllBelow (length rows.now) next.now }
        requires matchable { AreMatchable rows.now sets next.now }
        ensures { IfOk result (λ kept. (family : List (List ℕ)) → length family ≡ sets → AreIndices (length rows.now) family rows.now
            → IsKeptMatching (length rows.now) family next.now kept) }
    {
        let gone = base.minus(alloc, next)?;
        let common = matched_without(alloc, &self.matched, &gone)?;
        let matched = matched_with_new(alloc, rows, sets, common, base, next)?;
        kept_of(alloc, rows, sets, matched)
    }

    /// Whether an element x outside the set can be added: whether from a set that holds it a walk leads to one that is not matched
    /// (Schrijver, chapter 16). It takes no memory.
    pub(crate) fn adds(&self, rows: &BitRows, x: u32) -> bool
        requires { x < length rows.now }
        ensures { (family : List (List ℕ)) (base : List ℕ) → is_member x base ≡ false → IsMatching rows.now base self.now.matched.items
            → LeadToFree rows.now self.now.matched.items self.now.leading → length family ≡ length self.now.matched.items
            → All (AllBelow (length rows.now)) family → AreIndices (length rows.now) family rows.now
            → is_transversal (length rows.now) family base ≡ true
            → result ≡ (row_of (is_transversal (length rows.now) family) base x).addable }
    {
        rows.row(x).next_common(&self.leading, 0).is_some()
    }

    /// The exchanges of an element x outside the set, by one search of the bits of the rows from the sets that hold x. Where it
    /// comes to a set that is not matched, x can be added; else x can take the place of the members whose sets it reaches, since
    /// these and x lie in no other sets (Schrijver, chapter 16). The only error is want of memory.
    pub(crate) fn row(
        &self,
        alloc: Global,
        rows: &BitRows,
        base: &ElemSet,
        x: u32,
    ) -> Result<Exchange, AllocError>
        requires matching { IsMatching rows.now base.now self.now.matched.items }
        requires few { length self.now.matched.items < 2 ^ 32 }
        requires below { x < length rows.now }
        requires outside { is_member x base.now ≡ false }
        ensures row { IfOk result (λ e. (family : List (List ℕ)) → length family ≡ length self.now.matched.items
            → All (AllBelow (length rows.now)) family → AreIndices (length rows.now) family rows.now
            → is_transversal (length rows.now) family base.now ≡ true
            → e ≡ row_of (is_transversal (length rows.now) family) base.now x) }
        ensures rises { IfOk result (λ e. IsRising e.with) }
    {
        let search = Alternating {
            rows,
            matched: &self.matched,
            element: Some(x),
        };
        let mut room = SearchRoom::new(alloc, self.matched.len() as u32)?;
        match room.seek(alloc, &search)? {
            Some(_) => {
                let with = base.copy(alloc)?;
                Ok(Exchange {
                    addable: true,
                    with,
                })
            }
            None => {
                let found = matched_among(alloc, &self.matched, room.found())?;
                let with = base.among(alloc, &found)?;
                Ok(Exchange {
                    addable: false,
                    with,
                })
            }
        }
    }
}
