//! The listed sets that an independent set fills.
ghost use Rattle.std.specs.Prelude.{⊤, ◌≡◌, ◌<◌, ℕ, List, length, slice_index_or, IfOk, MatchOption, None};
ghost use Rattle.mat_sets.specs.Sets.{AllBelow, IsRising};
ghost use Rattle.mat_count.specs.{
  FullSets.{AreFullSets, IsSmallest, kept_at, has_fewer, row_at_place, where_full},
  Partitions.{CountsMembers},
};

use mat_laws::Exchange;
use mat_sets::{BitSet, ElemSet, SetList};
use std::alloc::{AllocError, Global};

/// An independent set as bits, and for each listed set (or class) the number of its members in the independent set if they are as many as its
/// cap, None otherwise (Schrijver, chapter 39).
#[derive(Debug, Drop)]
pub struct FullSets {
    base: BitSet,
    sizes: Vec<Option<usize>>,
}

// The number of members, where they are as many as the cap.
fn if_full(number: usize, cap: u32) -> Option<usize>
    ensures { result ≡ where_full cap number }
{
    if number >= cap as usize {
        Some(number)
    } else {
        None
    }
}

impl FullSets {
    /// What is kept of a set that has these numbers of members in the listed sets. The time is that of reading the set and the numbers. The
    /// only error is want of memory.
    pub(crate) fn of(
        alloc: Global,
        numbers: &[usize],
        caps: &[u32],
        base: &ElemSet,
    ) -> Result<FullSets, AllocError>
        requires { length caps.now ≡ length numbers.now }
        ensures { IfOk result (λ kept. (sets : List (List ℕ)) → CountsMembers sets base.now numbers.now
            → AreFullSets sets caps.now base.now kept) }
    {
        let bits = base.to_bits(alloc)?;
        let mut sizes = Vec::with_capacity(alloc, numbers.len())?;
        for i in 0..numbers.len() {
            sizes.push(if_full(numbers[i], caps[i]))?;
        }
        Ok(FullSets { base: bits, sizes })
    }

    // Whether the set at this place is full, and the other one is not or has more members.
    fn has_fewer(&self, place: usize, other: Option<usize>) -> bool
        requires place { place < length self.now.sizes.items }
        requires other { MatchOption other ⊤ (λ i. i < length self.now.sizes.items) }
        ensures { result ≡ has_fewer (slice_index_or self.now.sizes.items place None) (kept_at self.now.sizes.items other) }
    {
        let Some(size) = self.sizes[place] else {
            return false;
        };
        let Some(other) = other else {
            return true;
        };
        match self.sizes[other] {
            Some(most) => size < most,
            None => true,
        }
    }

    /// One of these places whose set is full and has the fewest members, if one of the sets is full.
    pub(crate) fn smallest(&self, places: &ElemSet) -> Option<usize>
        requires { AllBelow (length self.now.sizes.items) places.now }
        ensures smallest { IsSmallest self.now.sizes.items places.now result }
        ensures known { MatchOption result ⊤ (λ i. i < length self.now.sizes.items) }
    {
        let mut smallest = None;
        for place in places.as_slice() {
            if self.has_fewer(*place as usize, smallest) {
                smallest = Some(*place as usize);
            }
        }
        smallest
    }

    /// Whether an element outside the base can be added: the set at the place is the smallest full one that holds it, if one is full.
    pub(crate) fn has_room_at(&self, place: Option<usize>) -> bool
        requires { MatchOption place ⊤ (λ i. i < length self.now.sizes.items) }
        ensures { (base : List ℕ) (sets : List (List ℕ)) → result ≡ (row_at_place base sets self.now.sizes.items place).addable }
    {
        match place {
            Some(place) => self.sizes[place].is_none(),
            None => true,
        }
    }

    /// The exchanges at the base of an element outside: the set at the place is the smallest full one that holds it, if one is full. The time
    /// is that of reading the base or that set. The only error is want of memory.
    pub(crate) fn row_at(
        &self,
        alloc: Global,
        base: &ElemSet,
        sets: &SetList,
        place: Option<usize>,
    ) -> Result<Exchange, AllocError>
        requires place { MatchOption place ⊤ (λ i. i < length self.now.sizes.items) }
        requires sets { length self.now.sizes.items ≡ length sets.now }
        requires base { self.now.base ≡ base.now }
        ensures row { IfOk result (λ e. e ≡ row_at_place base.now sets.now self.now.sizes.items place) }
        ensures rises { IfOk result (λ e. IsRising e.with) }
    {
        base.rises();
        if let Some(place) = place {
            if self.sizes[place].is_some() {
                let with = sets.get(place).among(alloc, &self.base)?;
                return Ok(Exchange {
                    addable: false,
                    with,
                });
            }
        }
        let with = base.copy(alloc)?;
        Ok(Exchange {
            addable: true,
            with,
        })
    }
}
