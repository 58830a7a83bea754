//! Bounds in uniform, partition and laminar matroids: elements that count themselves, and listed sets that hold all others.

ghost use Rattle.std.specs.{
  Prelude.{◌≡◌, ◌<◌, ◌≤◌, ◌+◌, ◌||◌, ◌*◌, ℕ, nat_lt, if◌then◌else◌, true, List, [], ◌∷◌, length, filter, slice_index_or, All, IfOk, IfSome, OnOk, Some, None},
  List.{list_all},
};
ghost use Rattle.mat_sets.specs.{Limits.{most_elements}, Sets.{AllBelow, IsRising, IsSet, all_below, intersection, is_member}};
ghost use Rattle.mat_laws.specs.Matroids.{IsMaximal};
ghost use Rattle.mat_count.specs.{Counts.{is_counted, is_uniform}, LaminarMatroids.{IsLaminar}};
ghost use Rattle.mat_any.specs.Trees.{laminar, uniform};
ghost use Rattle.mat_problem.specs.Limits.{most_sets};
ghost use Rattle.mat_witness.specs.{
  BoundParts.{are_covered, bound_of, caps_sum, is_in_chosen, shows_bound},
  FilledSets.{AreLargerNamed, AreLargestNamed, AreListed, AreNamed, is_unnamed, size_named},
  Parts.{IsBoundFor},
  Views.{bound_part},
};

use crate::witness::Most;
use mat_count::Uniform;
use mat_sets::{BitSet, ElemSet, SetList};
use std::alloc::{AllocError, Global};

// Marks the members of a set. The only error is want of memory.
fn mark(marks: &mut BitSet, set: &ElemSet) -> Result<(), AllocError>
    ensures { OnOk result ((x : ℕ) → is_member x marks.new ≡ (is_member x marks.old || is_member x set.now)) }
{
    for x in set.as_slice() {
        marks.insert(*x)?;
    }
    Ok(())
}

// Marks the members of the chosen sets. The only error is want of memory.
fn mark_chosen(marks: &mut BitSet, sets: &SetList, chosen: &ElemSet) -> Result<(), AllocError>
    requires { AllBelow (length sets.now) chosen.now }
    ensures { OnOk result ((x : ℕ) → is_member x marks.new ≡ (is_member x marks.old || is_in_chosen sets.now chosen.now x)) }
{
    for i in chosen.as_slice() {
        mark(marks, sets.get(*i as usize))?;
    }
    Ok(())
}

// Whether each member of the set is marked.
fn are_marked(marks: &BitSet, set: &ElemSet) -> bool
    ensures { result ≡ list_all (λ x. is_member x marks.now) set.now }
{
    for x in set.as_slice() {
        if !marks.contains(*x) {
            return false;
        }
    }
    true
}

// The sum of the caps of the chosen sets.
fn sum_caps(caps: &[u32], chosen: &ElemSet) -> u32
    requires small { All (λ cap. cap ≤ most_elements) caps.now }
    requires few { length caps.now ≤ most_sets }
    requires chosen { IsSet (length caps.now) chosen.now }
    ensures sum { result ≡ caps_sum caps.now chosen.now }
    ensures small { result ≤ most_elements * most_sets }
{
    let mut sum = 0;
    for i in chosen.as_slice() {
        sum += caps[*i as usize];
    }
    sum
}

/// The number of the elements that count themselves plus the caps of the chosen sets, and None where a member of the set is neither such an
/// element nor in a chosen set. The only error is want of memory.
pub(crate) fn listed_bound(
    alloc: Global,
    sets: &SetList,
    caps: &[u32],
    spent: &ElemSet,
    chosen: &ElemSet,
    set: &ElemSet,
) -> Result<Option<u32>, AllocError>
    requires as_many { length caps.now ≡ length sets.now }
    requires small { All (λ cap. cap ≤ most_elements) caps.now }
    requires few { length sets.now ≤ most_sets }
    requires spent { length spent.now ≤ most_elements }
    requires chosen { IsSet (length sets.now) chosen.now }
    ensures { IfOk result (λ found. found ≡ (if are_covered sets.now spent.now chosen.now set.now
        then Some (length spent.now + caps_sum caps.now chosen.now) else None)) }
{
    let mut marks = spent.to_bits(alloc)?;
    mark_chosen(&mut marks, sets, chosen)?;
    if !are_marked(&marks, set) {
        return Ok(None);
    }
    Ok(Some(spent.len() as u32 + sum_caps(caps, chosen)))
}

/// The same in a uniform matroid, whose one listed set has all elements.
pub(crate) fn uniform_bound(
    matroid: &Uniform,
    spent: &ElemSet,
    chosen: &ElemSet,
    set: &ElemSet,
) -> Option<u32>
    requires small { matroid.now.cap ≤ most_elements }
    requires spent { length spent.now ≤ most_elements }
    requires chosen { IsSet 1 chosen.now }
    requires set { IsSet matroid.now.count set.now }
    ensures { result ≡ (if are_covered (all_below matroid.now.count ∷ []) spent.now chosen.now set.now
        then Some (length spent.now + caps_sum (matroid.now.cap ∷ []) chosen.now) else None) }
{
    if !chosen.is_empty() {
        return Some(spent.len() as u32 + matroid.cap());
    }
    if set.is_subset(spent) {
        return Some(spent.len() as u32);
    }
    None
}

// How many members of the set are marked.
fn count_marked(set: &ElemSet, marks: &BitSet) -> usize
    ensures { result ≡ length (intersection set.now marks.now) }
{
    let mut number = 0;
    for x in set.as_slice() {
        if marks.contains(*x) {
            number += 1;
        }
    }
    number
}

// Whether the set has more members than the one that is named, if one is.
fn outgrows(set: &ElemSet, sets: &SetList, named: Option<u32>) -> bool
    requires { IfSome named (λ i. i < length sets.now) }
    ensures { result ≡ nat_lt (size_named sets.now named) (length set.now) }
{
    match named {
        Some(i) => sets.get(i as usize).len() < set.len(),
        None => !set.is_empty(),
    }
}

// Names the set at this place for each of its members for which no set of as many members is named.
fn name_larger(named: &mut [Option<u32>], sets: &SetList, place: u32)
    requires place { place < length sets.now }
    requires inside { AllBelow (length named.old) (slice_index_or sets.now place []) }
    requires listed { AreListed sets.now named.old }
    ensures long { length named.new ≡ length named.old }
    ensures listed { AreListed sets.now named.new }
    ensures entries { AreLargerNamed sets.now place (slice_index_or sets.now place []) named.old named.new }
{
    let set = sets.get(place as usize);
    for x in set.as_slice() {
        if outgrows(set, sets, named[*x as usize]) {
            named[*x as usize] = Some(place);
        }
    }
}

// For each element the largest of the listed sets that hold it and that the marked elements fill. The only error is want of memory.
fn largest_sets(
    alloc: Global,
    count: u32,
    sets: &SetList,
    caps: &[u32],
    marks: &BitSet,
) -> Result<Vec<Option<u32>>, AllocError>
    requires as_many { length caps.now ≡ length sets.now }
    requires few { length sets.now ≤ most_sets }
    requires sets { All (AllBelow count) sets.now }
    requires marks { IsRising marks.now }
    ensures long { IfOk result (λ named. length named.items ≡ count) }
    ensures named { IfOk result (λ named. AreLargestNamed sets.now caps.now marks.now (length sets.now) count named.items) }
{
    let mut named = vec![in alloc; None; count as usize]?;
    for place in 0..sets.len() {
        if count_marked(sets.get(place), marks) >= caps[place] as usize {
            name_larger(&mut named, sets, place as u32);
        }
    }
    Ok(named)
}

// The sets that are named for members of a set. The only error is want of memory.
fn named_sets(alloc: Global, named: &[Option<u32>], set: &ElemSet) -> Result<ElemSet, AllocError>
    requires { AllBelow (length named.now) set.now }
    ensures { IfOk result (AreNamed (λ x. slice_index_or named.now x None) set.now) }
{
    let mut chosen = ElemSet::new(alloc);
    for x in set.as_slice() {
        if let Some(place) = named[*x as usize] {
            chosen.add(place)?;
        }
    }
    Ok(chosen)
}

// The members of a set for which no set is named. The only error is want of memory.
fn unnamed_members(
    alloc: Global,
    named: &[Option<u32>],
    set: &ElemSet,
) -> Result<ElemSet, AllocError>
    requires { AllBelow (length named.now) set.now }
    ensures members { IfOk result (λ s. s ≡ filter (λ x. is_unnamed (slice_index_or named.now x None)) set.now) }
    ensures rises { IfOk result (λ s. IsRising s) }
{
    let mut members = ElemSet::new(alloc);
    for x in set.as_slice() {
        if named[*x as usize].is_none() {
            members.add(*x)?;
        }
    }
    Ok(members)
}

/// A bound of the rank of a set by the size of `inside`, a maximal independent subset, which fills a listed set where it has as many members
/// in it as the cap. For each member of the set that is in a filled set, the largest such set is chosen; the elements that count themselves
/// are the members of `inside` that are in no filled set. The only error is want of memory.
pub(crate) fn filled_bound(
    alloc: Global,
    count: u32,
    sets: &SetList,
    caps: &[u32],
    set: &ElemSet,
    inside: &ElemSet,
) -> Result<Most, AllocError>
    requires sound { IsLaminar count sets.now caps.now }
    requires sets { All (IsSet count) sets.now }
    requires few { length sets.now ≤ most_sets }
    requires set { IsSet count set.now }
    requires maximal { IsMaximal (is_counted count sets.now caps.now) set.now inside.now }
    ensures part { IfOk result (λ part. IsBoundFor count (laminar count sets.now caps.now) (bound_part part)) }
    ensures shows { IfOk result (λ part. shows_bound (laminar count sets.now caps.now) (bound_part part) set.now ≡ true) }
    ensures number { IfOk result (λ part. bound_of (laminar count sets.now caps.now) (bound_part part) ≤ length inside.now) }
{
    let marks = inside.to_bits(alloc)?;
    let named = largest_sets(alloc, count, sets, caps, &marks)?;
    let chosen = named_sets(alloc, &named, set)?;
    let spent = unnamed_members(alloc, &named, inside)?;
    Ok(Most::Spent {
        spent,
        sets: chosen,
    })
}

/// In a uniform matroid, a bound for each set in which an independent set is maximal: the one listed set, of all elements, where the
/// independent set fills it, and else its own members, since it is maximal in no other set then. The number is that of its members. The
/// only error is want of memory.
pub(crate) fn filled_uniform(
    alloc: Global,
    matroid: &Uniform,
    inside: &ElemSet,
) -> Result<Most, AllocError>
    requires inside { is_uniform matroid.now.count matroid.now.cap inside.now ≡ true }
    ensures part { IfOk result (λ part. IsBoundFor matroid.now.count (uniform matroid.now.count matroid.now.cap) (bound_part part)) }
    ensures shows { IfOk result (λ part. (set : List ℕ) → IsSet matroid.now.count set
        → IsMaximal (is_uniform matroid.now.count matroid.now.cap) set inside.now
        → shows_bound (uniform matroid.now.count matroid.now.cap) (bound_part part) set ≡ true) }
    ensures number { IfOk result (λ part. bound_of (uniform matroid.now.count matroid.now.cap) (bound_part part) ≤ length inside.now) }
{
    if inside.len() < matroid.cap() as usize {
        let spent = inside.copy(alloc)?;
        let sets = ElemSet::new(alloc);
        return Ok(Most::Spent { spent, sets });
    }
    let mut sets = ElemSet::new(alloc);
    sets.add(0)?;
    let spent = ElemSet::new(alloc);
    Ok(Most::Spent { spent, sets })
}
