//! Parts of an independent set of a union, with what each matroid keeps of its part.
ghost use Rattle.std.specs.Prelude.{◌≡◌, ◌<◌, ◌^◌, false, length, map, IfOk, OnOk, MatchOption};
ghost use Rattle.mat_sets.specs.{Families.{family_union}, Sets.{all_below, is_member, AllBelow, IsRising, IsSubset}};
ghost use Rattle.mat_laws.specs.Exchanges.{row_of};
ghost use Rattle.mat_union.specs.{GrownParts.{AreKept, AreKeptParts, AreSound}, Placings.{IsBrought}, Unions.{union_test, AreParts}};

use crate::asked::Asked;
use crate::ended::row_by_search;
use crate::growth::{all_lawful, keep_all, place, search_from};
use crate::move_graph::stands;
use mat_laws::Exchange;
use mat_sets::{BitSet, ElemSet, SetList};
use std::alloc::{AllocError, Global};

/// What a union keeps of an independent set: disjoint parts of it, one for each matroid and independent in it, and what each matroid keeps
/// of its part.
#[derive(Drop)]
pub struct KeptParts<K: Drop> {
    pub(crate) parts: SetList,
    pub(crate) kept: Vec<K>,
}

/// Disjoint parts of a set: each matroid takes by one greedy run what it can of what the ones before it left.
fn greedy_parts<M: Asked>(
    alloc: Global,
    matroids: &[M],
    _n: u32,
    set: &ElemSet,
) -> Result<SetList, AllocError>
    requires sound { AreSound M.ground_size M.sound _n matroids.now }
    requires below { AllBelow _n set.now }
    ensures are { IfOk result (λ parts. AreParts (map M.indep matroids.now) parts) }
    ensures inside { IfOk result (λ parts. IsSubset (family_union parts) set.now) }
{
    let mut parts = Vec::new(alloc);
    let mut rest = set.copy(alloc)?;
    for i in 0..matroids.len() {
        let part = matroids[i].base_within(alloc, &rest)?;
        rest = rest.minus(alloc, &part)?;
        parts.push(part)?;
    }
    Ok(SetList::new(parts))
}

/// Brings x into the parts where it is in none, and tells whether it is in one then.
fn bring<M: Asked>(
    alloc: Global,
    matroids: &[M],
    held: &mut KeptParts<M::Kept>,
    all: &BitSet,
    n: u32,
    x: u32,
) -> Result<bool, AllocError>
    requires some { 0 < length matroids.now }
    requires few { length matroids.now < 2 ^ 32 }
    requires sound { AreSound M.ground_size M.sound n matroids.now }
    requires parts { AreParts (map M.indep matroids.now) held.old.parts }
    requires kept { AreKept M.keeps matroids.now held.old.parts held.old.kept.items }
    requires all { all.now ≡ all_below n }
    requires below { x < n }
    ensures parts { OnOk result (AreParts (map M.indep matroids.now) held.new.parts) }
    ensures kept { OnOk result (AreKept M.keeps matroids.now held.new.parts held.new.kept.items) }
    ensures brought { IfOk result (IsBrought n (map M.indep matroids.now) held.old.parts x held.new.parts) }
{
    all_lawful(matroids, n);
    if stands(&held.parts, x) {
        return Ok(true);
    }
    let parts = &mut held.parts;
    match place(alloc, matroids, parts, &mut held.kept, all, n, x)? {
        None => Ok(true),
        Some(_) => Ok(false),
    }
}

/// Parts of a set with what is kept of them, or None where it has none: greedy parts, into which the other members come one after the other,
/// each by a search for moves (Schrijver, chapter 42).
pub(crate) fn parts_of<M: Asked>(
    alloc: Global,
    matroids: &[M],
    n: u32,
    set: &ElemSet,
) -> Result<Option<KeptParts<M::Kept>>, AllocError>
    requires some { 0 < length matroids.now }
    requires few { length matroids.now < 2 ^ 32 }
    requires sound { AreSound M.ground_size M.sound n matroids.now }
    requires below { AllBelow n set.now }
    ensures { IfOk result (λ found. MatchOption found (union_test n (map M.indep matroids.now) set.now ≡ false)
        (λ held. AreKeptParts M.indep M.keeps matroids.now set.now held.parts held.kept.items)) }
{
    all_lawful(matroids, n);
    let all = BitSet::all_below(alloc, n)?;
    let parts = greedy_parts(alloc, matroids, n, set)?;
    let kept = keep_all(alloc, matroids, &parts, n)?;
    let mut held = KeptParts { parts, kept };
    for x in set.as_slice() {
        if !bring(alloc, matroids, &mut held, &all, n, *x)? {
            return Ok(None);
        }
    }
    Ok(Some(held))
}

/// The exchanges of an element outside a set, by one search for moves from parts of the set: where it can come into them, it can be added
/// and takes any place; else it takes the places that are reached (Schrijver, chapter 42).
pub(crate) fn row_of_parts<M: Asked>(
    alloc: Global,
    matroids: &[M],
    n: u32,
    base: &ElemSet,
    held: &KeptParts<M::Kept>,
    x: u32,
) -> Result<Exchange, AllocError>
    requires some { 0 < length matroids.now }
    requires few { length matroids.now < 2 ^ 32 }
    requires sound { AreSound M.ground_size M.sound n matroids.now }
    requires kept { AreKeptParts M.indep M.keeps matroids.now base.now held.now.parts held.now.kept.items }
    requires below { x < n }
    requires outside { is_member x base.now ≡ false }
    ensures row { IfOk result (λ e. e ≡ row_of (union_test n (map M.indep matroids.now)) base.now x) }
    ensures rises { IfOk result (λ e. IsRising e.with) }
{
    all_lawful(matroids, n);
    let all = BitSet::all_below(alloc, n)?;
    let kept = held.kept.as_slice();
    let search = search_from(alloc, matroids, &held.parts, kept, &all, n, x)?;
    row_by_search(alloc, base, &search)
}
