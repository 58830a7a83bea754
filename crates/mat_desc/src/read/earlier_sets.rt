//! The sets of a laminar family that were read before the next one.

ghost use Rattle.std.specs.Prelude.{◌≡◌, ◌<◌, ◌++◌, ◌∷◌, [], length, IfOk};
ghost use Rattle.mat_sets.specs.Sets.{AllBelow};
ghost use Rattle.mat_count.specs.Laminar.{is_crossed};
ghost use Rattle.mat_desc.specs.EarlierSets.{AreMeeting};

use mat_count::crossing_bits;
use mat_sets::{BitSet, ElemSet, RowList};
use std::alloc::{AllocError, Global};
use std::marker::Model;

/// The sets of a laminar family that were read so far: each as bits, and for each element the places of those that hold it.
#[derive(Debug, Drop)]
pub(crate) struct EarlierSets {
    sets: Vec<BitSet>,
    holders: RowList,
}

impl Model for EarlierSets {
    ghost use Rattle.std.specs.Prelude.{length};
    ghost use Rattle.mat_count.specs.LaminarMatroids.{IsPlaceTable};
    ghost use Rattle.mat_desc.specs.EarlierSets.{EarlierFamily};

    ghost Value = { EarlierFamily };

    ghost view = { λ s. record { count = length s.holders; sets = s.sets.items } };

    ghost invariant = { λ s. IsPlaceTable (length s.holders) s.sets.items s.holders };
}

impl EarlierSets {
    /// No sets, on this many elements. The only error is want of memory.
    pub(crate) fn new(alloc: Global, count: u32) -> Result<EarlierSets, AllocError>
        ensures { IfOk result (λ s. s ≡ record { count = count; sets = [] }) }
    {
        let holders = RowList::with_rows(alloc, count)?;
        Ok(EarlierSets {
            sets: Vec::new(alloc),
            holders,
        })
    }

    /// The places of the sets that share a member with the next. The call goes over the members of the next
    /// once, and not over the sets. The only error is want of memory.
    fn meeting(&self, alloc: Global, next: &ElemSet) -> Result<BitSet, AllocError>
        requires { AllBelow self.now.count next.now }
        ensures { IfOk result (λ places. AreMeeting self.now.sets next.now places) }
    {
        let mut places = BitSet::new(alloc);
        for x in next.as_slice() {
            places.unite_row(self.holders.row(*x))?;
        }
        Ok(places)
    }

    /// Whether one of the sets crosses the next: it is compared with those that share a member with it. The only error is want of memory.
    fn crosses_meeting(
        &self,
        alloc: Global,
        next: &ElemSet,
        bits: &BitSet,
    ) -> Result<bool, AllocError>
        requires few { length self.now.sets < 512 }
        requires below { AllBelow self.now.count next.now }
        requires same { bits.now ≡ next.now }
        ensures { IfOk result (λ crossed. crossed ≡ is_crossed self.now.sets next.now) }
    {
        let places = self.meeting(alloc, next)?;
        let mut from = 0;
        while let Some(place) = places.next_from(from) {
            let at = place as usize;
            if crossing_bits(&self.sets.as_slice()[at..at + 1], bits).is_some() {
                return Ok(true);
            }
            from = place + 1;
        }
        Ok(false)
    }

    /// Whether one of the sets crosses the next: it is compared with all where it has at least as many members as there are sets, and else
    /// with those that share a member with it. The only error is want of memory.
    pub(crate) fn crosses(
        &self,
        alloc: Global,
        next: &ElemSet,
        bits: &BitSet,
    ) -> Result<bool, AllocError>
        requires few { length self.now.sets < 512 }
        requires below { AllBelow self.now.count next.now }
        requires same { bits.now ≡ next.now }
        ensures { IfOk result (λ crossed. crossed ≡ is_crossed self.now.sets next.now) }
    {
        if next.len() < self.sets.len() {
            return self.crosses_meeting(alloc, next, bits);
        }
        Ok(crossing_bits(self.sets.as_slice(), bits).is_some())
    }

    /// Puts the next set behind the others. The only error is want of memory.
    pub(crate) fn push(&mut self, next: &ElemSet, bits: BitSet) -> Result<(), AllocError>
        requires few { length self.old.sets < 512 }
        requires below { AllBelow self.old.count next.now }
        requires same { bits ≡ next.now }
        ensures { IfOk result (λ _. self.new ≡ record { count = self.old.count; sets = self.old.sets ++ next.now ∷ [] }) }
    {
        let place = self.sets.len() as u32;
        self.sets.push(bits)?;
        self.holders.insert_each(next.as_slice(), place);
        Ok(())
    }
}
