//! Laminar matroids.
ghost use Rattle.std.specs.{
  Prelude.{◌≡◌, ◌↔◌, ◌+◌, ℕ, ◌<◌, ◌^◌, length, replicate, slice_index, [], IfOk, IfErr, IsTrue, IsFalse, MatchOption, ◌-◌},
  List.{All},
};
ghost use Rattle.mat_sets.specs.{Sets.{is_member, AllBelow, IsRising}, Families.{indicator}};
ghost use Rattle.mat_laws.specs.GreedyRuns.{grown_along};
ghost use Rattle.mat_count.specs.{
  Counters.{is_some_full},
  Counts.{is_counted},
  FullSets.{AreFullSets},
  Partitions.{CountsMembers},
  Laminar.{IsLaminarFamily},
  LaminarMatroids.{IsLaminar, IsPlaceTable, IsPlaced},
  LaminarFaults.{IsFirstPair, SomeOutside, IsFaultOf},
  LaminarLaws.{counted_laws},
};

use crate::caps::are_within;
use crate::crossings::crossing;
use crate::full_sets::FullSets;
use crate::laminar_fault::LaminarFault;
use mat_laws::{Exchange, Matroid};
use mat_sets::{ElemSet, SetList};
use std::alloc::{AllocError, Global};
use std::marker::Model;

/// The matroid in which a set is independent where it has at most its cap of members in each listed set; of any two listed
/// sets either they share no member, or one contains the other; an element that stands in none is free (Schrijver, chapter 39).
#[derive(Debug, Drop)]
pub struct Laminar {
    count: u32,
    sets: SetList,
    caps: Vec<u32>,
    places: SetList,
}

impl Model for Laminar {
    ghost use Rattle.mat_count.specs.LaminarMatroids.{CappedSets, IsPlaceTable};

    ghost Value = { CappedSets };

    ghost view = { λ l. record { count = l.count; sets = l.sets; caps = l.caps.items } };

    ghost invariant = { λ l. IsPlaceTable l.count l.sets l.places };
}

// Whether the members are below the number: the last is the largest.
#[tactic(auto, using(crate::proofs::PlaceTables::bounds))]
fn lies_below(set: &ElemSet, count: u32) -> bool
    ensures { IsTrue result ↔ AllBelow count set.now }
{
    set.is_empty() || set.get(set.len() - 1) < count
}

// Whether each set has its members below the number.
#[tactic(auto, using(crate::proofs::PlaceTables::ranges))]
fn lie_below(sets: &SetList, count: u32) -> bool
    ensures within { IsTrue result → All (AllBelow count) sets.now }
    ensures outside { IsFalse result → SomeOutside count sets.now }
{
    for i in 0..sets.len() {
        if !lies_below(sets.get(i), count) {
            return false;
        }
    }
    true
}

// The first set that an earlier one crosses, after the first that crosses it.
#[tactic(auto, using(crate::proofs::CrossingWalks::pairs))]
fn first_pair(sets: &SetList) -> Option<(u32, u32)>
    requires { length sets.now < 2 ^ 32 }
    ensures { MatchOption result (IsLaminarFamily sets.now) (λ p. IsFirstPair sets.now p.0 p.1) }
{
    for b in 0..sets.len() {
        if let Some(a) = crossing(&sets.as_slice()[..b], sets.get(b)) {
            return Some((a, b as u32));
        }
    }
    None
}

// As many empty sets.
fn empty_sets(alloc: Global, count: u32) -> Result<Vec<ElemSet>, AllocError>
    ensures { IfOk result (λ v. v.items ≡ replicate count []) }
{
    let mut sets = Vec::with_capacity(alloc, count as usize)?;
    for _ in 0..count {
        sets.push(ElemSet::new(alloc))?;
    }
    Ok(sets)
}

// Enters the place of the set at each of its members.
#[tactic(auto, using(crate::proofs::PlaceTables::entering))]
fn enter(table: &mut [ElemSet], set: &ElemSet, place: u32) -> Result<(), AllocError>
    requires { AllBelow (length table.old) set.now }
    ensures { IfOk result (λ _. IsPlaced table.old set.now place table.new) }
{
    for i in 0..set.len() {
        let _ = table[set.get(i) as usize].add(place)?;
    }
    Ok(())
}

// For each element the places of the sets that hold it.
#[tactic(auto, using(crate::proofs::PlaceTables::tables))]
fn place_table(alloc: Global, count: u32, sets: &SetList) -> Result<SetList, AllocError>
    requires few { length sets.now < 2 ^ 32 }
    requires inside { All (AllBelow count) sets.now }
    ensures { IfOk result (λ t. IsPlaceTable count sets.now t) }
{
    let mut table = empty_sets(alloc, count)?;
    for place in 0..sets.len() {
        enter(&mut table, sets.get(place), place as u32)?;
    }
    Ok(SetList::new(table))
}

// One more at each of these places.
#[tactic(auto, using(crate::proofs::PlaceTables::counting))]
fn count_at(numbers: &mut [usize], places: &ElemSet)
    requires inside { AllBelow (length numbers.old) places.now }
    requires room { (i : ℕ) → i < length numbers.old → slice_index numbers.old i < 2 ^ 64 - 1 }
    ensures { (i : ℕ) → i < length numbers.old → slice_index numbers.new i ≡ slice_index numbers.old i + indicator (is_member i places.now) }
{
    for k in 0..places.len() {
        numbers[places.get(k) as usize] += 1;
    }
}

// How many members the set has in each listed set: each member counts where it stands.
#[tactic(auto, using(crate::proofs::PlaceTables::counting))]
fn members_by_set(
    alloc: Global,
    sets: &SetList,
    places: &SetList,
    set: &ElemSet,
) -> Result<Vec<usize>, AllocError>
    requires table { IsPlaceTable (length places.now) sets.now places.now }
    requires below { AllBelow (length places.now) set.now }
    ensures numbers { IfOk result (λ v. CountsMembers sets.now set.now v.items) }
    ensures rises { IfOk result (λ _. IsRising set.now) }
{
    let mut numbers: Vec<usize> = vec![in alloc; 0; sets.len()]?;
    for i in 0..set.len() {
        count_at(&mut numbers, places.get(set.get(i) as usize));
    }
    Ok(numbers)
}

// Whether the set at one of these places is full: its number of members is at least its cap.
fn some_full(places: &ElemSet, caps: &[u32], numbers: &[usize]) -> bool
    requires capped { length caps.now ≡ length numbers.now }
    requires inside { AllBelow (length numbers.now) places.now }
    ensures { result ≡ is_some_full caps.now numbers.now places.now }
{
    for i in places.as_slice() {
        if numbers[*i as usize] >= caps[*i as usize] as usize {
            return true;
        }
    }
    false
}

// The greedy run along an order, by a counter for each listed set: an element enters where no set that holds it is full.
fn run_by_places(
    alloc: Global,
    count: u32,
    sets: &SetList,
    caps: &[u32],
    places: &SetList,
    order: &[u32],
) -> Result<ElemSet, AllocError>
    requires sound { IsLaminar count sets.now caps.now }
    requires table { IsPlaceTable count sets.now places.now }
    requires below { AllBelow count order.now }
    ensures { IfOk result (λ set. set ≡ grown_along (is_counted count sets.now caps.now) [] order.now) }
{
    let mut numbers: Vec<usize> = vec![in alloc; 0; sets.len()]?;
    let mut set = ElemSet::new(alloc);
    for x in order {
        let holders = places.get(*x as usize);
        if !some_full(holders, caps, &numbers) && set.add(*x)? {
            count_at(&mut numbers, holders);
        }
    }
    Ok(set)
}

impl Laminar {
    /// The laminar matroid of this many elements, these sets and their caps. A member that is no element is told first; then
    /// the first set that an earlier one crosses, with the first that crosses it; then want of memory.
    pub fn new(
        alloc: Global,
        count: u32,
        sets: SetList,
        caps: Vec<u32>,
    ) -> Result<Laminar, LaminarFault>
        requires capped { length caps.items ≡ length sets }
        requires few { length sets < 2 ^ 32 }
        ensures value { IfOk result (λ l. l ≡ record { count = count; sets = sets; caps = caps.items }) }
        ensures sound { IfOk result (λ l. IsLaminar l.count l.sets l.caps) }
        ensures fault { IfErr result (IsFaultOf count sets) }
    {
        if !lie_below(&sets, count) {
            return Err(LaminarFault::OutOfRange);
        }
        if let Some((a, b)) = first_pair(&sets) {
            return Err(LaminarFault::Crossing { a, b });
        }
        let matroid = Laminar::from_family(alloc, count, sets, caps)?;
        Ok(matroid)
    }

    /// The laminar matroid of this many elements, these sets and their caps, where it is known that the members are elements
    /// and that no two sets cross. The only error is want of memory.
    pub fn from_family(
        alloc: Global,
        count: u32,
        sets: SetList,
        caps: Vec<u32>,
    ) -> Result<Laminar, AllocError>
        requires laminar { IsLaminar count sets caps.items }
        requires few { length sets < 2 ^ 32 }
        ensures value { IfOk result (λ l. l ≡ record { count = count; sets = sets; caps = caps.items }) }
        ensures sound { IfOk result (λ l. IsLaminar l.count l.sets l.caps) }
    {
        let places = place_table(alloc, count, &sets)?;
        Ok(Laminar {
            count,
            sets,
            caps,
            places,
        })
    }

    /// The number of elements.
    pub fn count(&self) -> u32
        ensures { result ≡ self.now.count }
    {
        self.count
    }

    /// The sets, as they were handed in.
    pub fn sets(&self) -> &SetList
        ensures { result.now ≡ self.now.sets }
    {
        &self.sets
    }

    /// The cap of each set, as they were handed in.
    pub fn caps(&self) -> &[u32]
        ensures { result.now ≡ self.now.caps }
    {
        self.caps.as_slice()
    }
}

impl Matroid for Laminar {
    ghost ground_size = { λ m. m.count };

    ghost sound = { λ m. IsLaminar m.count m.sets m.caps };

    ghost indep = { λ m. is_counted m.count m.sets m.caps };

    type Kept = FullSets;

    ghost keeps = { λ m base kept. AreFullSets m.sets m.caps base kept };

    ghost laws = { λ m h. counted_laws m.count m.sets m.caps h.family };

    fn size(&self) -> u32 {
        self.count
    }

    fn independent(&self, alloc: Global, set: &ElemSet) -> Result<bool, AllocError> {
        let numbers = members_by_set(alloc, &self.sets, &self.places, set)?;
        Ok(are_within(&numbers, &self.caps))
    }

    /// The greedy run, by a counter for each listed set. No question of independence is asked: the time is linear in the
    /// number of listed sets and, for each element of the order, in how many sets hold it, but for a shift of the set's later
    /// members where one is put in before them. The only error is want of memory.
    fn run(&self, alloc: Global, order: &[u32]) -> Result<ElemSet, AllocError> {
        run_by_places(
            alloc,
            self.count,
            &self.sets,
            &self.caps,
            &self.places,
            order,
        )
    }

    /// The set as bits, and the sizes of the full sets. The time is that of the listed sets that hold each member, and of reading the caps.
    /// The only error is want of memory.
    fn keep(&self, alloc: Global, base: &ElemSet) -> Result<FullSets, AllocError> {
        let numbers = members_by_set(alloc, &self.sets, &self.places, base)?;
        FullSets::of(alloc, &numbers, &self.caps, base)
    }

    /// Whether no listed set that holds x is full. The time is the number of those sets.
    fn adds(
        &self,
        _alloc: Global,
        _base: &ElemSet,
        kept: &FullSets,
        x: u32,
    ) -> Result<bool, AllocError> {
        let place = kept.smallest(self.places.get(x as usize));
        Ok(kept.has_room_at(place))
    }

    /// The members of the smallest full set that holds x, which stand in each full one that does, since two of them are
    /// nested; where none is full, every member. The time is the number of sets that hold x, and that of reading the smallest full
    /// one or the set. The only error is want of memory.
    fn row(
        &self,
        alloc: Global,
        base: &ElemSet,
        kept: &FullSets,
        x: u32,
    ) -> Result<Exchange, AllocError> {
        let place = kept.smallest(self.places.get(x as usize));
        kept.row_at(alloc, base, &self.sets, place)
    }
}
