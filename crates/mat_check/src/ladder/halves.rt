//! The halves of the splits of rungs, of which many are the same as that of the rung before.

ghost use Rattle.std.specs.Prelude.{◌≡◌, ◌+◌, ◌-◌, ◌<◌, ◌≤◌, ◌++◌, ◌∷◌, [], ℕ, List, true, length, slice_index_or, IfOk, OnOk};
ghost use Rattle.mat_sets.specs.Limits.{most_elements};
ghost use Rattle.mat_check.specs.Halves.{half_of, halves_of, half_at, AreListed};

use mat_cert::PricedRung;
use mat_sets::Weight;
use std::alloc::{AllocError, Global};

/// One of two matroids.
#[derive(Clone, Copy, Debug)]
pub(crate) enum Side {
    First,
    Second,
}

/// The half of a rung's split that is given to this matroid.
pub(crate) fn half(rung: &PricedRung, side: Side) -> &[Weight]
    ensures { result.now ≡ half_of side rung.now }
{
    match side {
        Side::First => rung.first.as_slice(),
        Side::Second => rung.second.as_slice(),
    }
}

/// The halves of some rungs, listed by the numbers of rungs that have them, and for each rung the number of its half in the list.
#[derive(Drop)]
pub(crate) struct ListedHalves {
    pub(crate) listed: Vec<u32>,
    pub(crate) own: Vec<u32>,
}

// Whether rung k has the half that was listed last.
fn goes_on(rungs: &[PricedRung], side: Side, listed: &[u32], k: u32) -> bool
    requires below { k < length rungs.now }
    requires listed { (j : ℕ) → j < length listed.now → slice_index_or listed.now j 0 < length rungs.now }
    ensures some { result ≡ true → 0 < length listed.now }
    ensures same { result ≡ true → half_at (halves_of side rungs.now) (slice_index_or listed.now (length listed.now - 1) 0)
        ≡ half_at (halves_of side rungs.now) k }
{
    if listed.is_empty() {
        return false;
    }
    let last = listed[listed.len() - 1];
    half(&rungs[last as usize], side) == half(&rungs[k as usize], side)
}

// Lists the half of rung k, the next, where it isn't the one that was listed last, and gives its number in the list.
fn enter_half(
    rungs: &[PricedRung],
    side: Side,
    listed: &mut Vec<u32>,
    k: u32,
) -> Result<u32, AllocError>
    requires below { k < length rungs.now }
    requires few { length listed.old.items ≤ most_elements + 1 }
    requires listed { (j : ℕ) → j < length listed.old.items → slice_index_or listed.old.items j 0 < length rungs.now }
    ensures few { OnOk result (length listed.new.items ≤ length listed.old.items + 1) }
    ensures entered { IfOk result (λ j. (own : List ℕ) → length own ≡ k → AreListed (halves_of side rungs.now) listed.old.items own
        → AreListed (halves_of side rungs.now) listed.new.items (own ++ j ∷ [])) }
{
    if goes_on(rungs, side, listed, k) {
        return Ok(listed.len() as u32 - 1);
    }
    listed.push(k)?;
    Ok(listed.len() as u32 - 1)
}

/// The halves of all rungs: one is listed wherever it isn't that of the rung before. The only error is want of memory.
pub(crate) fn list_halves(
    alloc: Global,
    rungs: &[PricedRung],
    side: Side,
) -> Result<ListedHalves, AllocError>
    requires few { length rungs.now ≤ most_elements + 1 }
    ensures count { IfOk result (λ halves. length halves.own.items ≡ length rungs.now) }
    ensures few { IfOk result (λ halves. length halves.listed.items ≤ most_elements + 1) }
    ensures listed { IfOk result (λ halves. AreListed (halves_of side rungs.now) halves.listed.items halves.own.items) }
{
    let count = rungs.len() as u32;
    let mut listed: Vec<u32> = Vec::new(alloc);
    let mut own = Vec::with_capacity(alloc, rungs.len())?;
    for k in 0..count {
        own.push(enter_half(rungs, side, &mut listed, k)?)?;
    }
    Ok(ListedHalves { listed, own })
}
