//! A set of numbers, seen as a strictly rising list.
ghost use Rattle.std.specs.{
  Prelude.{◌≡◌, ◌==◌, ◌↔◌, ◌<◌, ◌≤◌, [], if◌then◌else◌, insert, is_ok, length, slice_index, not, IfOk, IsTrue, OnErr, OnOk, MatchResult},
  Cmp.Lexicographic.{pointwise},
  Cmp.Rules.{comparing},
};
ghost use Rattle.std.proofs.Common.{rules};
ghost use Rattle.mat_sets.specs.{
  Places.{IsFirstFall},
  Sets.{AllBelow, all_below, intersection, is_member, minus, union, with_one, without_one, IsRising, IsSet, IsSubset},
};

use crate::bit_row::BitRow;
use crate::bit_set::BitSet;
use crate::merging::{difference, is_disjoint, is_subset, merged};
use crate::place::{place, place_to_add};
use std::alloc::{AllocError, Global};
use std::marker::Model;

/// A set of elements, vertices or colours: its numbers, each above the one before it.
#[derive(Debug, Drop)]
pub struct ElemSet {
    items: Vec<u32>,
}

impl Model for ElemSet {
    ghost use Rattle.std.specs.Prelude.{ℕ, List};
    ghost use Rattle.mat_sets.specs.Sets.{IsRising};

    ghost Value = { List ℕ };

    ghost view = { λ a. a.items.items };

    ghost invariant = { λ a. IsRising a.items.items };
}

impl PartialEq for ElemSet {
    ghost eq = { pointwise ◌==◌ };

    ghost laws = { Prim.search (comparing, rules) };

    fn eq(&self, other: &ElemSet) -> bool {
        self.items.as_slice() == other.items.as_slice()
    }
}

impl Eq for ElemSet {
    ghost laws = { Prim.search (comparing, rules) };
}

/// The first place whose item is not above the one before it.
#[derive(Clone, Copy, Debug, PartialEq, Eq, Drop)]
pub struct NotRising {
    /// The place, counted from 0.
    pub at: usize,
}

// Puts x at a place of a list: behind the last item by a push, which moves nothing.
fn put_at(items: &mut Vec<u32>, at: usize, x: u32) -> Result<(), AllocError>
    requires { at ≤ length items.old.items }
    ensures { items.new.items ≡ (if is_ok result then insert items.old.items at x else items.old.items) }
{
    if at == items.len() {
        items.push(x)?;
    } else {
        items.insert(at, x)?;
    }
    Ok(())
}

impl ElemSet {
    /// The empty set. It takes no memory; `alloc` is where later members get theirs.
    #[tactic(auto, using(crate::proofs::Members::set_rises))]
    pub fn new(alloc: Global) -> ElemSet
        ensures members { result ≡ [] }
        ensures rises { IsRising result }
    {
        ElemSet {
            items: Vec::new(alloc),
        }
    }

    /// The set of these numbers, which have to rise strictly: else the first place where they do not. It takes no memory.
    #[tactic(auto, using(crate::proofs::Places::rising_steps))]
    pub fn from_sorted(items: Vec<u32>) -> Result<ElemSet, NotRising>
        ensures { MatchResult result (λ s. (s ≡ items.items) × IsRising s) (λ e. IsFirstFall items.items e.at) }
    {
        let mut at = 1;
        while at < items.len() {
            if items[at] <= items[at - 1] {
                return Err(NotRising { at });
            }
            at += 1;
        }
        Ok(ElemSet { items })
    }

    /// The set of the items of a list, which may stand in any order and more than once. It is fastest where they rise.
    /// The only error is want of memory.
    pub fn from_members(alloc: Global, items: &[u32]) -> Result<ElemSet, AllocError>
        ensures members { IfOk result (λ s. s ≡ union items.now []) }
        ensures set { IfOk result (λ s. IsRising s) }
    {
        let mut set = ElemSet::new(alloc);
        for x in items {
            set.add(*x)?;
        }
        Ok(set)
    }

    /// The set of the members of a set of bits. The time is that of the members and of the words. The only error is want of memory.
    pub fn from_bits(alloc: Global, bits: &BitSet) -> Result<ElemSet, AllocError>
        ensures members { IfOk result (λ s. s ≡ bits.now) }
        ensures set { IfOk result (λ s. IsRising s) }
    {
        let items = bits.members(alloc)?;
        Ok(ElemSet { items })
    }

    /// Nothing but what the type keeps, for proofs: the items rise.
    pub fn rises(&self)
        ensures { IsRising self.now }
    {
        // (reading the items tells the proof what the type keeps of them)
        let _ = &self.items;
    }

    /// Whether x is a member, by binary search. It takes no memory.
    pub fn contains(&self, x: u32) -> bool
        ensures found { result ≡ is_member x self.now }
        ensures rises { IsRising self.now }
    {
        place(&self.items, x).is_ok()
    }

    /// How many members there are.
    pub fn len(&self) -> usize
        ensures count { result ≡ length self.now }
        ensures rises { IsRising self.now }
    {
        self.items.len()
    }

    /// Whether there is no member.
    pub fn is_empty(&self) -> bool
        ensures empty { result ≡ (length self.now == 0) }
        ensures rises { IsRising self.now }
    {
        self.items.is_empty()
    }

    /// The member at place i of the rising order.
    pub fn get(&self, i: usize) -> u32
        requires { i < length self.now }
        ensures item { result ≡ slice_index self.now i }
        ensures rises { IsRising self.now }
    {
        self.items[i]
    }

    /// The members in rising order.
    pub fn as_slice(&self) -> &[u32]
        ensures items { result.now ≡ self.now }
        ensures rises { IsRising self.now }
    {
        self.items.as_slice()
    }

    /// Puts x in. True where it was new. A number above all members is pushed at the end. After an error the set is as before.
    pub fn add(&mut self, x: u32) -> Result<bool, AllocError>
        ensures ok { IfOk result (λ new. (new ≡ not (is_member x self.old)) × (self.new ≡ with_one self.old x)) }
        ensures err { OnErr result (self.new ≡ self.old) }
        ensures rose { IsRising self.old }
        ensures rises { IsRising self.new }
    {
        match place_to_add(&self.items, x) {
            Ok(_) => Ok(false),
            Err(gap) => {
                put_at(&mut self.items, gap, x)?;
                Ok(true)
            }
        }
    }

    /// Puts x in, where it belongs here. After an error the set is as before.
    pub fn add_if(&mut self, x: u32, here: bool) -> Result<(), AllocError>
        ensures ok { OnOk result (self.new ≡ (if here then with_one self.old x else self.old)) }
        ensures err { OnErr result (self.new ≡ self.old) }
        ensures rose { IsRising self.old }
        ensures rises { IsRising self.new }
    {
        self.rises();
        if here {
            self.add(x)?;
        }
        Ok(())
    }

    /// Takes x out. True where it was a member. It takes no memory.
    pub fn take_out(&mut self, x: u32) -> bool
        ensures was { result ≡ is_member x self.old }
        ensures items { self.new ≡ without_one self.old x }
        ensures rose { IsRising self.old }
        ensures rises { IsRising self.new }
    {
        match place(&self.items, x) {
            Ok(at) => {
                let _ = self.items.remove(at);
                true
            }
            Err(_) => false,
        }
    }

    /// An equal set. The only error is want of memory.
    pub fn copy(&self, alloc: Global) -> Result<ElemSet, AllocError>
        ensures equal { IfOk result (λ s. s ≡ self.now) }
        ensures set { IfOk result (λ s. IsRising s) }
        ensures rises { IsRising self.now }
    {
        let items = Vec::from_slice(alloc, self.items.as_slice())?;
        Ok(ElemSet { items })
    }

    /// The set without x. The only error is want of memory.
    #[tactic(auto, using(crate::proofs::Members::set_rises), unfolding(crate::specs::Sets::without_one))]
    pub fn without(&self, alloc: Global, x: u32) -> Result<ElemSet, AllocError>
        ensures members { IfOk result (λ s. s ≡ without_one self.now x) }
        ensures set { IfOk result (λ s. IsRising s) }
        ensures rises { IsRising self.now }
    {
        let items = self
            .items
            .iter()
            .copied()
            .filter(|y| *y != x)
            .collect(alloc)?;
        Ok(ElemSet { items })
    }

    /// The members that are not in the other set. The time is linear in both sizes. The only error is want of memory.
    #[tactic(auto, using(crate::proofs::Members::set_rises))]
    pub fn minus(&self, alloc: Global, other: &ElemSet) -> Result<ElemSet, AllocError>
        ensures members { IfOk result (λ s. s ≡ minus self.now other.now) }
        ensures set { IfOk result (λ s. IsRising s) }
        ensures rises { IsRising self.now }
        ensures other_rises { IsRising other.now }
    {
        let items = difference(alloc, &self.items, &other.items)?;
        Ok(ElemSet { items })
    }

    /// The members of either set. The time is linear in both sizes. The only error is want of memory.
    #[tactic(auto, using(crate::proofs::Members::set_rises))]
    pub fn union(&self, alloc: Global, other: &ElemSet) -> Result<ElemSet, AllocError>
        ensures members { IfOk result (λ s. s ≡ union self.now other.now) }
        ensures set { IfOk result (λ s. IsRising s) }
        ensures rises { IsRising self.now }
        ensures other_rises { IsRising other.now }
    {
        let items = merged(alloc, &self.items, &other.items)?;
        Ok(ElemSet { items })
    }

    /// The members that are in a set of bits. The time is linear in the size. The only error is want of memory.
    #[tactic(auto, using(crate::proofs::Members::set_rises), unfolding(crate::specs::Sets::intersection))]
    pub fn among(&self, alloc: Global, bits: &BitSet) -> Result<ElemSet, AllocError>
        ensures members { IfOk result (λ s. s ≡ intersection self.now bits.now) }
        ensures set { IfOk result (λ s. IsRising s) }
        ensures rises { IsRising self.now }
    {
        let items = self
            .items
            .iter()
            .copied()
            .filter(|y| bits.contains(*y))
            .collect(alloc)?;
        Ok(ElemSet { items })
    }

    /// The same set, one bit for each number up to the last member. The only error is want of memory.
    pub fn to_bits(&self, alloc: Global) -> Result<BitSet, AllocError>
        ensures members { IfOk result (λ bits. bits ≡ self.now) }
        ensures rises { IsRising self.now }
    {
        let room = self.items.last().map_or(0, |last| last.saturating_add(1));
        let mut bits = BitSet::with_capacity(alloc, room)?;
        for x in self.as_slice() {
            bits.insert(*x)?;
        }
        Ok(bits)
    }

    /// The same set, of numbers below 512, as bits in place.
    pub fn to_row(&self) -> BitRow
        requires { AllBelow 512 self.now }
        ensures members { result ≡ self.now }
        ensures rises { IsRising self.now }
    {
        let mut bits = BitRow::new();
        for x in self.as_slice() {
            bits.insert(*x);
        }
        bits
    }

    /// Whether each member is one of the other set. The time is linear in both sizes; it takes no memory.
    pub fn is_subset(&self, other: &ElemSet) -> bool
        ensures inside { IsTrue result ↔ IsSubset self.now other.now }
        ensures rises { IsRising self.now }
        ensures other_rises { IsRising other.now }
    {
        is_subset(&self.items, &other.items)
    }

    /// Whether no member is one of the other set. The time is linear in both sizes; it takes no memory.
    pub fn is_disjoint(&self, other: &ElemSet) -> bool
        ensures apart { IsTrue result ↔ (intersection self.now other.now ≡ []) }
        ensures rises { IsRising self.now }
        ensures other_rises { IsRising other.now }
    {
        is_disjoint(&self.items, &other.items)
    }

    /// The set of all numbers below n. The only error is want of memory.
    #[tactic(auto, using(crate::proofs::Ground::counting))]
    pub fn all_below(alloc: Global, n: u32) -> Result<ElemSet, AllocError>
        ensures members { IfOk result (λ s. s ≡ all_below n) }
        ensures set { IfOk result (λ s. IsSet n s) }
    {
        let mut items = Vec::with_capacity(alloc, n as usize)?;
        for x in 0..n {
            items.push(x)?;
        }
        Ok(ElemSet { items })
    }
}
