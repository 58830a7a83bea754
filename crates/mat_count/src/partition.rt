//! Partition matroids.
ghost use Rattle.std.specs.{Prelude.{⊤, ◌≡◌, ◌+◌, ◌-◌, ◌<◌, ◌^◌, ℕ, [], length, slice_index, IfOk, MatchOption}, List.{All}};
ghost use Rattle.mat_sets.specs.{Sets.{AllBelow, IsRising}, Families.{AreDisjoint, indicator}};
ghost use Rattle.mat_laws.specs.GreedyRuns.{grown_along};
ghost use Rattle.mat_count.specs.{
  Counts.{is_counted},
  FullSets.{AreFullSets},
  Labels.{caps_by, classes_by, one_each},
  Counters.{is_named_full},
  Partitions.{names, IsPartition, IsClassTable, IsClassEntered, CountsMembers},
  PartitionLaws.{partition_laws},
};

use crate::caps::are_within;
use crate::full_sets::FullSets;
use crate::labels::classes_by;
use mat_laws::{Exchange, Matroid};
use mat_sets::{BitSet, ElemSet, SetList};
use std::alloc::{AllocError, Global};
use std::marker::Model;

/// The matroid in which a set is independent where it has at most its cap of members in each class; classes share no
/// member, and an element that stands in no class is free (Schrijver, chapter 39).
#[derive(Debug, Drop)]
pub struct Partition {
    count: u32,
    classes: SetList,
    caps: Vec<u32>,
    class_of: Vec<Option<usize>>,
}

impl Model for Partition {
    ghost use Rattle.mat_count.specs.Partitions.{CappedClasses, IsClassTable};

    ghost Value = { CappedClasses };

    ghost view = { λ p. record { count = p.count; classes = p.classes; caps = p.caps.items } };

    ghost invariant = { λ p. IsClassTable p.count p.classes p.class_of.items };
}

// Enters the class at this place for each of its members.
#[tactic(auto, using(crate::proofs::ClassTables::entering))]
fn enter(class_of: &mut [Option<usize>], class: &ElemSet, place: usize)
    requires { AllBelow (length class_of.old) class.now }
    ensures { IsClassEntered class_of.old class.now place class_of.new }
{
    for i in 0..class.len() {
        class_of[class.get(i) as usize] = Some(place);
    }
}

// The class of each element, if it stands in one.
#[tactic(auto, using(crate::proofs::ClassTables::tables))]
fn class_table(
    alloc: Global,
    count: u32,
    classes: &SetList,
) -> Result<Vec<Option<usize>>, AllocError>
    requires inside { All (AllBelow count) classes.now }
    requires disjoint { AreDisjoint classes.now }
    ensures { IfOk result (λ t. IsClassTable count classes.now t.items) }
{
    let mut class_of = vec![in alloc; None; count as usize]?;
    for place in 0..classes.len() {
        enter(&mut class_of, classes.get(place), place);
    }
    Ok(class_of)
}

// How many members the set has in each class.
#[tactic(auto, using(crate::proofs::ClassTables::counting))]
fn members_by_class(
    alloc: Global,
    classes: &SetList,
    class_of: &[Option<usize>],
    set: &ElemSet,
) -> Result<Vec<usize>, AllocError>
    requires table { IsClassTable (length class_of.now) classes.now class_of.now }
    requires below { AllBelow (length class_of.now) set.now }
    ensures numbers { IfOk result (λ v. CountsMembers classes.now set.now v.items) }
    ensures rises { IfOk result (λ _. IsRising set.now) }
{
    let mut numbers: Vec<usize> = vec![in alloc; 0; classes.len()]?;
    for i in 0..set.len() {
        if let Some(place) = class_of[set.get(i) as usize] {
            numbers[place] += 1;
        }
    }
    Ok(numbers)
}

// Whether the class that the entry names is full, if it names one: its number of members is at least its cap.
fn names_full(entry: Option<usize>, caps: &[u32], numbers: &[usize]) -> bool
    requires capped { length caps.now ≡ length numbers.now }
    requires inside { MatchOption entry ⊤ (λ place. place < length numbers.now) }
    ensures { result ≡ is_named_full caps.now numbers.now entry }
{
    match entry {
        Some(place) => numbers[place] >= caps[place] as usize,
        None => false,
    }
}

// One more member in the class that the entry names, if it names one.
fn count(numbers: &mut [usize], entry: Option<usize>)
    requires inside { MatchOption entry ⊤ (λ place. place < length numbers.old) }
    requires room { (i : ℕ) → i < length numbers.old → slice_index numbers.old i < 2 ^ 64 - 1 }
    ensures { (i : ℕ) → i < length numbers.old → slice_index numbers.new i ≡ slice_index numbers.old i + indicator (names entry i) }
{
    if let Some(place) = entry {
        numbers[place] += 1;
    }
}

// The greedy run along an order, by a counter for each class: an element enters where its class is not full.
fn run_by_classes(
    alloc: Global,
    classes: &SetList,
    caps: &[u32],
    class_of: &[Option<usize>],
    order: &[u32],
) -> Result<ElemSet, AllocError>
    requires sound { IsPartition (length class_of.now) classes.now caps.now }
    requires table { IsClassTable (length class_of.now) classes.now class_of.now }
    requires below { AllBelow (length class_of.now) order.now }
    ensures { IfOk result (λ set. set ≡ grown_along (is_counted (length class_of.now) classes.now caps.now) [] order.now) }
{
    let mut numbers: Vec<usize> = vec![in alloc; 0; classes.len()]?;
    let mut set = BitSet::new(alloc);
    for x in order {
        let entry = class_of[*x as usize];
        if !names_full(entry, caps, &numbers) && !set.contains(*x) {
            set.insert(*x)?;
            count(&mut numbers, entry);
        }
    }
    ElemSet::from_bits(alloc, &set)
}

impl Partition {
    /// The partition matroid of this many elements, these classes and their caps. The only error is want of memory.
    pub fn new(
        alloc: Global,
        count: u32,
        classes: SetList,
        caps: Vec<u32>,
    ) -> Result<Partition, AllocError>
        requires { IsPartition count classes caps.items }
        ensures value { IfOk result (λ p. p ≡ record { count = count; classes = classes; caps = caps.items }) }
        ensures sound { IfOk result (λ p. IsPartition p.count p.classes p.caps) }
    {
        let class_of = class_table(alloc, count, &classes)?;
        Ok(Partition {
            count,
            classes,
            caps,
            class_of,
        })
    }

    /// The partition matroid with one class for each label below the number of caps: element e has the label `labels[e]`, and the class of
    /// a label has the cap at the label's place. An element with any other label is free. The only error is want of memory.
    pub fn by_labels(alloc: Global, labels: &[u32], caps: Vec<u32>) -> Result<Partition, AllocError>
        requires few { length labels.now < 2 ^ 32 }
        requires capped { length caps.items < 2 ^ 32 }
        ensures value { IfOk result (λ p. p ≡ record {
          count = length labels.now;
          classes = classes_by (length labels.now) (length caps.items) (slice_index labels.now);
          caps = caps.items;
        }) }
        ensures sound { IfOk result (λ p. IsPartition p.count p.classes p.caps) }
    {
        let classes = classes_by(alloc, labels, caps.len() as u32)?;
        Partition::new(alloc, labels.len() as u32, classes, caps)
    }

    /// The partition matroid with one class for each label below `count`, and the cap 1 for each: element e has the label `labels[e]`. An
    /// element with any other label is free. The only error is want of memory.
    pub fn one_for_each_label(
        alloc: Global,
        labels: &[u32],
        count: u32,
    ) -> Result<Partition, AllocError>
        requires few { length labels.now < 2 ^ 32 }
        ensures value { IfOk result (λ p. p ≡ record {
          count = length labels.now;
          classes = classes_by (length labels.now) count (slice_index labels.now);
          caps = caps_by count one_each;
        }) }
        ensures sound { IfOk result (λ p. IsPartition p.count p.classes p.caps) }
    {
        let caps = vec![in alloc; 1; count as usize]?;
        Partition::by_labels(alloc, labels, caps)
    }

    /// The number of elements.
    pub fn count(&self) -> u32
        ensures { result ≡ self.now.count }
    {
        self.count
    }

    /// The classes, as they were handed in.
    pub fn classes(&self) -> &SetList
        ensures { result.now ≡ self.now.classes }
    {
        &self.classes
    }

    /// The cap of each class, as they were handed in.
    pub fn caps(&self) -> &[u32]
        ensures { result.now ≡ self.now.caps }
    {
        self.caps.as_slice()
    }
}

impl Matroid for Partition {
    ghost ground_size = { λ m. m.count };

    ghost sound = { λ m. IsPartition m.count m.classes m.caps };

    ghost indep = { λ m. is_counted m.count m.classes m.caps };

    type Kept = FullSets;

    ghost keeps = { λ m base kept. AreFullSets m.classes m.caps base kept };

    ghost laws = { λ m h. partition_laws m.count m.classes m.caps h };

    fn size(&self) -> u32 {
        self.count
    }

    fn independent(&self, alloc: Global, set: &ElemSet) -> Result<bool, AllocError> {
        let numbers = members_by_class(alloc, &self.classes, &self.class_of, set)?;
        Ok(are_within(&numbers, &self.caps))
    }

    /// The greedy run, by a counter for each class. No question of independence is asked: the time is linear in the order and
    /// the number of classes, but for a shift of the set's later members where one is put in before them. The only error is
    /// want of memory.
    fn run(&self, alloc: Global, order: &[u32]) -> Result<ElemSet, AllocError> {
        run_by_classes(alloc, &self.classes, &self.caps, &self.class_of, order)
    }

    /// The set as bits, and the sizes of the full classes. The time is that of reading the set and the caps. The only error is want of
    /// memory.
    fn keep(&self, alloc: Global, base: &ElemSet) -> Result<FullSets, AllocError> {
        let numbers = members_by_class(alloc, &self.classes, &self.class_of, base)?;
        FullSets::of(alloc, &numbers, &self.caps, base)
    }

    /// Whether the class of x, if it has one, is not full. The time is constant.
    fn adds(
        &self,
        _alloc: Global,
        _base: &ElemSet,
        kept: &FullSets,
        x: u32,
    ) -> Result<bool, AllocError> {
        Ok(kept.has_room_at(self.class_of[x as usize]))
    }

    /// The members of the class of x, where it is full; else every member. The time is that of reading the class or the set. The only
    /// error is want of memory.
    fn row(
        &self,
        alloc: Global,
        base: &ElemSet,
        kept: &FullSets,
        x: u32,
    ) -> Result<Exchange, AllocError> {
        kept.row_at(alloc, base, &self.classes, self.class_of[x as usize])
    }
}
