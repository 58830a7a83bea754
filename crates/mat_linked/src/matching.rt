//! Matchings of elements with sets that hold them, made larger along augmenting walks.
ghost use Rattle.std.specs.Prelude.{◌≡◌, ◌<◌, ℕ, List, [], Some, false, length, IfOk, OnOk};
ghost use Rattle.mat_sets.specs.Sets.{intersection, is_member, with_one, AllBelow, AreDistinct, IsRising};
ghost use Rattle.mat_flow.specs.LinkTables.{entry_at};
ghost use Rattle.mat_laws.specs.GreedyRuns.{grown_along};
ghost use Rattle.mat_linked.specs.{
  Matchings.{AreIndices, AreMatchable, IsMatchedOrNone, IsMatching},
  Searches.{IsReady},
  Transversals.{is_transversal},
};

use crate::alternating::Alternating;
use mat_flow::{SearchRoom, shift_along};
use mat_sets::{BitRows, ElemSet};
use std::alloc::{AllocError, Global};

// Matches one element more, where that can be done, and tells whether it was: each element on the walk that is found moves on.
// Where it cannot be done the matching stays as it was, and no later search comes again to what this one reached.
fn match_one(
    alloc: Global,
    rows: &BitRows,
    matched: &mut Vec<Option<u32>>,
    room: &mut SearchRoom,
    element: u32,
) -> Result<bool, AllocError>
    requires element { element < length rows.now }
    requires below { (j x : ℕ) → entry_at matched.old.items j ≡ Some x → x < length rows.now }
    requires ready { IsReady rows.now matched.old.items room.old }
    ensures ready { OnOk result (IsReady rows.now matched.new.items room.new) }
    ensures long { OnOk result (length matched.new.items ≡ length matched.old.items) }
    ensures matched { IfOk result (λ found. (X : List ℕ) → is_member element X ≡ false → IsMatching rows.now X matched.old.items
        → IsMatchedOrNone rows.now (with_one X element) matched.new.items found) }
    ensures stays { IfOk result (λ found. found ≡ false → matched.new.items ≡ matched.old.items) }
{
    let search = Alternating {
        rows,
        matched,
        element: Some(element),
    };
    match room.seek(alloc, &search)? {
        Some(walk) => {
            shift_along(matched, &walk, Some(element));
            Ok(true)
        }
        None => Ok(false),
    }
}

/// Whether the elements of a set can be matched with different sets that hold them, where `rows` has for each element the
/// indices of the sets that hold it: one search of the bits of the rows for each element. The only error is want of memory.
pub(crate) fn are_matchable(
    alloc: Global,
    rows: &BitRows,
    sets: u32,
    elements: &[u32],
) -> Result<bool, AllocError>
    requires below { AllBelow (length rows.now) elements.now }
    requires rises { IsRising elements.now }
    ensures { IfOk result (λ b. (family : List (List ℕ)) → length family ≡ sets → AreIndices (length rows.now) family rows.now
        → b ≡ is_transversal (length rows.now) family elements.now) }
{
    let mut matched = vec![in alloc; None; sets as usize]?;
    let mut room = SearchRoom::new(alloc, sets)?;
    for x in elements {
        if !match_one(alloc, rows, &mut matched, &mut room, *x)? {
            return Ok(false);
        }
    }
    Ok(true)
}

/// A matching of the members of `next`, made from `common`, which matches those that are in `base` too: one search of the bits of the rows
/// for each other member. The only error is want of memory.
pub(crate) fn matched_with_new(
    alloc: Global,
    rows: &BitRows,
    sets: u32,
    common: Vec<Option<u32>>,
    base: &ElemSet,
    next: &ElemSet,
) -> Result<Vec<Option<u32>>, AllocError>
    requires long { length common.items ≡ sets }
    requires below { AllBelow (length rows.now) next.now }
    requires matching { IsMatching rows.now (intersection base.now next.now) common.items }
    requires matchable { AreMatchable rows.now sets next.now }
    ensures long { IfOk result (λ matched. length matched.items ≡ sets) }
    ensures matching { IfOk result (λ matched. IsMatching rows.now next.now matched.items) }
{
    let mut matched = common;
    let mut room = SearchRoom::new(alloc, sets)?;
    let more = next.minus(alloc, base)?;
    for x in more.as_slice() {
        let _ = match_one(alloc, rows, &mut matched, &mut room, *x)?;
    }
    Ok(matched)
}

/// The greedy run along an order: one matching that grows by one search of the bits of the rows for each element, and stays as
/// it is where the element cannot be matched beside the others. The only error is want of memory.
pub(crate) fn matched_along(
    alloc: Global,
    rows: &BitRows,
    sets: u32,
    order: &[u32],
) -> Result<ElemSet, AllocError>
    requires below { AllBelow (length rows.now) order.now }
    requires distinct { AreDistinct order.now }
    ensures { IfOk result (λ set. (family : List (List ℕ)) → length family ≡ sets → AreIndices (length rows.now) family rows.now
        → set ≡ grown_along (is_transversal (length rows.now) family) [] order.now) }
{
    let mut matched = vec![in alloc; None; sets as usize]?;
    let mut room = SearchRoom::new(alloc, sets)?;
    let mut set = ElemSet::new(alloc);
    for x in order {
        if match_one(alloc, rows, &mut matched, &mut room, *x)? {
            let _ = set.add(*x)?;
        }
    }
    Ok(set)
}
