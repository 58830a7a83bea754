//! Greedy runs of a matroid of any kind, and what it keeps of an independent set, by recursion on the matroids within it: a union grows
//! parts by what its matroids keep of them, and a dual or a contraction keeps something of a run.
ghost use Rattle.std.specs.Prelude.{◌≡◌, ◌<◌, ℕ, true, List, [], map, IfOk, OnOk};
ghost use Rattle.mat_sets.specs.{Families.{family_union}, Sets.{AllBelow, AreDistinct, IsSet, IsSubset, union}};
ghost use Rattle.mat_laws.specs.{GreedyRuns.{grown_along, grown_by}, Matroids.{IsMaximal}};
ghost use Rattle.mat_minors.specs.{DualRows.{IsDualKept}, Minors.{is_contracted, is_dual, is_restricted, is_truncated}};
ghost use Rattle.mat_union.specs.{GrownParts.{AreGrowing, AreKept}, Moves.{all_moved}, Unions.{test_at, AreParts}, UnionsOf.{AreJoined}};
ghost use Rattle.mat_any.specs.{
  AnyKeeps.{KeepsAny, KeepsDual},
  Joined.{elements_in, size_in, test_in, union_in, IsSoundOne, KeepsOne, KeepsUnion},
  declared.any.AnyMatroid.{AnyMatroid},
  Trees.{Tree, contract, dual, element_count, is_independent, IsSound},
  Views.{tree_of},
};

use crate::any::AnyMatroid;
use crate::any_kept::{AnyKept, KeptSet};
use crate::columns_at::columns;
use crate::rows::place_for;
use crate::sizes::{common_size_of, size_of};
use mat_laws::Matroid;
use mat_minors::{DualKept, first_taken, items_in, members_first, others_first, same_base};
use mat_sets::{BitSet, ElemSet, SetList};
use mat_union::{
    Growth, Move, PlaceSearch, first_parts, is_entered_or_left, mark_spanned, members_of,
    moved_part, put_kept, stands,
};
use std::alloc::{AllocError, Global};

/// The greedy run along an order in which no element stands twice. A dual, a truncation, a restriction or a contraction is one
/// run of the matroid within it; a union searches for moves at most once for each element. The only error is want of memory.
#[cycle(running)]
pub(crate) fn run(alloc: Global, matroid: &AnyMatroid, order: &[u32]) -> Result<ElemSet, AllocError>
    requires sound { IsSound (tree_of matroid.now) }
    requires below { AllBelow (element_count (tree_of matroid.now)) order.now }
    requires distinct { AreDistinct order.now }
    ensures { IfOk result (λ s. s ≡ grown_along (is_independent (tree_of matroid.now)) [] order.now) }
{
    match matroid {
        AnyMatroid::Uniform(uniform) => uniform.run(alloc, order),
        AnyMatroid::Partition(partition) => partition.run(alloc, order),
        AnyMatroid::Laminar(laminar) => laminar.run(alloc, order),
        AnyMatroid::Graphic(graphic) => graphic.run(alloc, order),
        AnyMatroid::Transversal(transversal) => transversal.run(alloc, order),
        AnyMatroid::Gammoid(gammoid) => gammoid.run(alloc, order),
        AnyMatroid::Gf2(gf2) => gf2.run(alloc, order),
        AnyMatroid::Dual(inner) => dual_run(alloc, inner, order),
        AnyMatroid::Truncate { cap, inner } => truncation_run(alloc, inner, *cap, order),
        AnyMatroid::Restrict { kept, inner } => restriction_run(alloc, inner, kept, order),
        AnyMatroid::Contract { away, inner } => contraction_run(alloc, inner, away, order),
        AnyMatroid::Union { parts } => union_run(alloc, parts, order),
    }
}

/// What a run of the dual takes: of the dual of a dual, what a run of the matroid within both takes. The only error is want of memory.
#[cycle(running)]
pub(crate) fn dual_run(
    alloc: Global,
    inner: &AnyMatroid,
    order: &[u32],
) -> Result<ElemSet, AllocError>
    requires sound { IsSound (tree_of inner.now) }
    requires below { AllBelow (element_count (tree_of inner.now)) order.now }
    requires distinct { AreDistinct order.now }
    ensures { IfOk result (λ s. s ≡ grown_along (is_dual (element_count (tree_of inner.now)) (is_independent (tree_of inner.now))) [] order.now) }
{
    match inner {
        AnyMatroid::Dual(within) => run(alloc, within, order),
        _ => reversed_run(alloc, inner, order),
    }
}

// The elements of the order that a run of the matroid within the dual leaves: it goes through all other elements first, and then through the
// order from its end.
#[cycle(running)]
fn reversed_run(alloc: Global, inner: &AnyMatroid, order: &[u32]) -> Result<ElemSet, AllocError>
    requires sound { IsSound (tree_of inner.now) }
    requires below { AllBelow (element_count (tree_of inner.now)) order.now }
    requires distinct { AreDistinct order.now }
    ensures { IfOk result (λ s. s ≡ grown_along (is_dual (element_count (tree_of inner.now)) (is_independent (tree_of inner.now))) [] order.now) }
{
    let all = ElemSet::from_members(alloc, order)?;
    let items = others_first(alloc, size_of(inner), &all, order)?;
    let base = run(alloc, inner, &items)?;
    all.minus(alloc, &base)
}

// The first elements that a run takes, up to the cap.
#[cycle(running)]
fn truncation_run(
    alloc: Global,
    inner: &AnyMatroid,
    cap: u32,
    order: &[u32],
) -> Result<ElemSet, AllocError>
    requires sound { IsSound (tree_of inner.now) }
    requires below { AllBelow (element_count (tree_of inner.now)) order.now }
    requires distinct { AreDistinct order.now }
    ensures { IfOk result (λ s. s ≡ grown_along (is_truncated cap (is_independent (tree_of inner.now))) [] order.now) }
{
    let all = run(alloc, inner, order)?;
    first_taken(alloc, order, &all, cap)
}

// A run along the elements of the order that are kept.
#[cycle(running)]
fn restriction_run(
    alloc: Global,
    inner: &AnyMatroid,
    kept: &ElemSet,
    order: &[u32],
) -> Result<ElemSet, AllocError>
    requires sound { IsSound (tree_of inner.now) }
    requires below { AllBelow (element_count (tree_of inner.now)) order.now }
    requires distinct { AreDistinct order.now }
    ensures { IfOk result (λ s. s ≡ grown_along (is_restricted kept.now (is_independent (tree_of inner.now))) [] order.now) }
{
    let items = items_in(alloc, order, kept)?;
    run(alloc, inner, &items)
}

// A run through the contracted elements, and then through the others of the order.
#[cycle(running)]
fn contraction_run(
    alloc: Global,
    inner: &AnyMatroid,
    away: &ElemSet,
    order: &[u32],
) -> Result<ElemSet, AllocError>
    requires sound { IsSound (tree_of inner.now) }
    requires away { IsSet (element_count (tree_of inner.now)) away.now }
    requires below { AllBelow (element_count (tree_of inner.now)) order.now }
    requires distinct { AreDistinct order.now }
    ensures { IfOk result (λ s.
        s ≡ grown_along (is_contracted (element_count (tree_of inner.now)) away.now (is_independent (tree_of inner.now))) [] order.now) }
{
    let items = members_first(alloc, away, order)?;
    let all = run(alloc, inner, &items)?;
    all.minus(alloc, away)
}

/// What a run of the union of matroids takes. The only error is want of memory.
#[cycle(running)]
pub(crate) fn union_run(
    alloc: Global,
    matroids: &[AnyMatroid],
    order: &[u32],
) -> Result<ElemSet, AllocError>
    requires joined { AreJoined elements_in IsSoundOne matroids.now }
    requires below { AllBelow (size_in matroids.now) order.now }
    requires distinct { AreDistinct order.now }
    ensures { IfOk result (λ s. s ≡ grown_along (union_in matroids.now) [] order.now) }
{
    let growth = grown_parts(alloc, matroids, order)?;
    members_of(alloc, growth.parts.as_slice())
}

// What a run of the union takes, in parts: the first matroid takes by its own run what it can, and the others of the order come one
// after the other.
#[cycle(running)]
fn grown_parts(
    alloc: Global,
    matroids: &[AnyMatroid],
    order: &[u32],
) -> Result<Growth<AnyKept>, AllocError>
    requires joined { AreJoined elements_in IsSoundOne matroids.now }
    requires below { AllBelow (size_in matroids.now) order.now }
    requires distinct { AreDistinct order.now }
    ensures are { IfOk result (λ g. AreParts (map test_in matroids.now) g.parts) }
    ensures kept { IfOk result (λ g. AreKept KeepsOne matroids.now g.parts g.kept.items) }
    ensures taken { IfOk result (λ g. family_union g.parts ≡ grown_along (union_in matroids.now) [] order.now) }
{
    let mut growth = first_growth(alloc, matroids, order)?;
    for x in order {
        take_turn(alloc, matroids, &mut growth, *x)?;
    }
    Ok(growth)
}

// The first part holds what the first matroid takes, the others are empty, and no element is found to be spanned yet.
#[cycle(running)]
fn first_growth(
    alloc: Global,
    matroids: &[AnyMatroid],
    order: &[u32],
) -> Result<Growth<AnyKept>, AllocError>
    requires joined { AreJoined elements_in IsSoundOne matroids.now }
    requires below { AllBelow (size_in matroids.now) order.now }
    requires distinct { AreDistinct order.now }
    ensures growing { IfOk result (λ g. AreGrowing (size_in matroids.now) (map test_in matroids.now) g.parts g.spanned g.unspanned) }
    ensures kept { IfOk result (λ g. AreKept KeepsOne matroids.now g.parts g.kept.items) }
    ensures first { IfOk result (λ g. family_union g.parts ≡ grown_along (test_at (map test_in matroids.now) 0) [] order.now) }
{
    let first = run(alloc, &matroids[0], order)?;
    let parts = first_parts(alloc, first, matroids.len())?;
    growth_from(alloc, matroids, parts)
}

// These parts with what each matroid keeps of its part, and no element is found to be spanned yet.
#[cycle(running)]
fn growth_from(
    alloc: Global,
    matroids: &[AnyMatroid],
    parts: SetList,
) -> Result<Growth<AnyKept>, AllocError>
    requires joined { AreJoined elements_in IsSoundOne matroids.now }
    requires parts { AreParts (map test_in matroids.now) parts }
    ensures growing { IfOk result (λ g. AreGrowing (size_in matroids.now) (map test_in matroids.now) g.parts g.spanned g.unspanned) }
    ensures kept { IfOk result (λ g. AreKept KeepsOne matroids.now g.parts g.kept.items) }
    ensures same { IfOk result (λ g. g.parts ≡ parts) }
{
    let kept = keep_each(alloc, matroids, &parts)?;
    let unspanned = BitSet::all_below(alloc, common_size_of(matroids))?;
    Ok(Growth {
        parts,
        kept,
        spanned: ElemSet::new(alloc),
        unspanned,
    })
}

// One turn of the run: an element that is in no part and not found to be spanned comes into the parts where it can, and what changed is kept
// anew; else all that it reaches is marked as spanned.
#[cycle(running)]
fn take_turn(
    alloc: Global,
    matroids: &[AnyMatroid],
    growth: &mut Growth<AnyKept>,
    x: u32,
) -> Result<(), AllocError>
    requires joined { AreJoined elements_in IsSoundOne matroids.now }
    requires growing { AreGrowing (size_in matroids.now) (map test_in matroids.now) growth.old.parts growth.old.spanned growth.old.unspanned }
    requires kept { AreKept KeepsOne matroids.now growth.old.parts growth.old.kept.items }
    requires below { x < size_in matroids.now }
    ensures growing { OnOk result (AreGrowing (size_in matroids.now) (map test_in matroids.now) growth.new.parts growth.new.spanned growth.new.unspanned) }
    ensures kept { OnOk result (AreKept KeepsOne matroids.now growth.new.parts growth.new.kept.items) }
    ensures step { OnOk result (family_union growth.new.parts ≡ grown_by (union_in matroids.now) (family_union growth.old.parts) x) }
{
    if stands(&growth.parts, x) || !growth.unspanned.contains(x) {
        return Ok(());
    }
    let kept = growth.kept.as_slice();
    match place_for(alloc, matroids, &growth.parts, kept, &growth.unspanned, x)? {
        PlaceSearch::Placed(moves) => {
            make_moves(alloc, matroids, &mut growth.parts, &mut growth.kept, &moves)?;
            Ok(())
        }
        PlaceSearch::Stuck(search) => {
            mark_spanned(
                alloc,
                &mut growth.spanned,
                &mut growth.unspanned,
                search.reached(),
            )?;
            Ok(())
        }
    }
}

// Makes moves. A part that one of them enters or leaves becomes the one after all of them, and what its matroid keeps of it is made from
// what it kept before. The only error is want of memory: then each part is the old or the new one, with what is kept of that.
#[cycle(running)]
fn make_moves(
    alloc: Global,
    matroids: &[AnyMatroid],
    parts: &mut SetList,
    kept: &mut Vec<AnyKept>,
    moves: &[Move],
) -> Result<(), AllocError>
    requires joined { AreJoined elements_in IsSoundOne matroids.now }
    requires before { AreParts (map test_in matroids.now) parts.old }
    requires after { AreParts (map test_in matroids.now) (all_moved parts.old moves.now) }
    requires kept { AreKept KeepsOne matroids.now parts.old kept.old.items }
    ensures parts { OnOk result (parts.new ≡ all_moved parts.old moves.now) }
    ensures kept { OnOk result (AreKept KeepsOne matroids.now parts.new kept.new.items) }
{
    for i in 0..matroids.len() {
        let part = parts.get(i);
        if is_entered_or_left(part, moves, i as u32) {
            let next = moved_part(alloc, part, moves, i as u32)?;
            let one = keep_next(alloc, &matroids[i], part, &kept[i], &next)?;
            put_kept(kept, i, one);
            parts.replace(i, next);
        }
    }
    Ok(())
}

// What each matroid keeps of its part.
#[cycle(running)]
fn keep_each(
    alloc: Global,
    matroids: &[AnyMatroid],
    parts: &SetList,
) -> Result<Vec<AnyKept>, AllocError>
    requires joined { AreJoined elements_in IsSoundOne matroids.now }
    requires parts { AreParts (map test_in matroids.now) parts.now }
    ensures { IfOk result (λ kept. AreKept KeepsOne matroids.now parts.now kept.items) }
{
    let mut kept = Vec::new(alloc);
    for i in 0..matroids.len() {
        kept.push(keep(alloc, &matroids[i], parts.get(i))?)?;
    }
    Ok(kept)
}

/// What is kept of an independent set. A truncation or a restriction keeps what the matroid within it keeps; the dual of a dual what the
/// matroid within both keeps, and another dual asks its matroid for a base and for the columns at it; a contraction makes one run; a union makes
/// parts of the set. The only error is want of memory.
#[cycle(running)]
pub(crate) fn keep(
    alloc: Global,
    matroid: &AnyMatroid,
    base: &ElemSet,
) -> Result<AnyKept, AllocError>
    requires sound { IsSound (tree_of matroid.now) }
    requires base { is_independent (tree_of matroid.now) base.now ≡ true }
    ensures { IfOk result (λ kept. KeepsAny (tree_of matroid.now) base.now kept) }
{
    match matroid {
        AnyMatroid::Uniform(_) => Ok(AnyKept::Nothing),
        AnyMatroid::Partition(partition) => Ok(AnyKept::Partition(partition.keep(alloc, base)?)),
        AnyMatroid::Laminar(laminar) => Ok(AnyKept::Laminar(laminar.keep(alloc, base)?)),
        AnyMatroid::Graphic(graphic) => Ok(AnyKept::Graphic(graphic.keep(alloc, base)?)),
        AnyMatroid::Transversal(transversal) => {
            Ok(AnyKept::Transversal(transversal.keep(alloc, base)?))
        }
        AnyMatroid::Gammoid(gammoid) => Ok(AnyKept::Gammoid(gammoid.keep(alloc, base)?)),
        AnyMatroid::Gf2(gf2) => Ok(AnyKept::Gf2(gf2.keep(alloc, base)?)),
        AnyMatroid::Dual(inner) => dual_keep(alloc, inner, base),
        AnyMatroid::Truncate { inner, .. } => keep(alloc, inner, base),
        AnyMatroid::Restrict { inner, .. } => keep(alloc, inner, base),
        AnyMatroid::Contract { away, inner } => contraction_keep(alloc, inner, away, base),
        AnyMatroid::Union { parts } => union_keep(alloc, parts, base),
    }
}

/// What is kept of another independent set, where something is kept of this one. A graphic or transversal matroid, a gammoid and a dual make it from
/// that, and a truncation, a restriction or the dual of a dual asks the matroid within it; each other kind makes it anew. The only error is want of
/// memory.
#[cycle(running)]
pub(crate) fn keep_next(
    alloc: Global,
    matroid: &AnyMatroid,
    base: &ElemSet,
    kept: &AnyKept,
    next: &ElemSet,
) -> Result<AnyKept, AllocError>
    requires sound { IsSound (tree_of matroid.now) }
    requires base { is_independent (tree_of matroid.now) base.now ≡ true }
    requires kept { KeepsAny (tree_of matroid.now) base.now kept.now }
    requires next { is_independent (tree_of matroid.now) next.now ≡ true }
    ensures { IfOk result (λ k. KeepsAny (tree_of matroid.now) next.now k) }
{
    match (matroid, kept) {
        (AnyMatroid::Transversal(transversal), AnyKept::Transversal(matching)) => Ok(
            AnyKept::Transversal(transversal.keep_next(alloc, base, matching, next)?),
        ),
        (AnyMatroid::Gammoid(gammoid), AnyKept::Gammoid(linking)) => Ok(AnyKept::Gammoid(
            gammoid.keep_next(alloc, base, linking, next)?,
        )),
        (AnyMatroid::Graphic(graphic), AnyKept::Graphic(forest)) => Ok(AnyKept::Graphic(
            graphic.keep_next(alloc, base, forest, next)?,
        )),
        (AnyMatroid::Dual(inner), AnyKept::DualOfDual(within)) => {
            dual_of_dual_next(alloc, inner, base, within, next)
        }
        (AnyMatroid::Dual(inner), AnyKept::Dual(held)) => dual_next(alloc, inner, base, held, next),
        (AnyMatroid::Truncate { inner, .. }, _) => keep_next(alloc, inner, base, kept, next),
        (AnyMatroid::Restrict { inner, .. }, _) => keep_next(alloc, inner, base, kept, next),
        _ => keep(alloc, matroid, next),
    }
}

// What a dual keeps: of a dual, what the matroid within both keeps, and else a base and its columns.
#[cycle(running)]
fn dual_keep(alloc: Global, inner: &AnyMatroid, set: &ElemSet) -> Result<AnyKept, AllocError>
    requires sound { IsSound (tree_of inner.now) }
    requires base { is_dual (element_count (tree_of inner.now)) (is_independent (tree_of inner.now)) set.now ≡ true }
    ensures { IfOk result (λ k. KeepsAny (dual (tree_of inner.now)) set.now k) }
{
    match inner {
        AnyMatroid::Dual(within) => kept_within(alloc, keep(alloc, within, set)?),
        _ => Ok(AnyKept::Dual(columns_keep(alloc, inner, set)?)),
    }
}

// What a dual keeps of another set: the same base with its columns, if it is disjoint from that set, and else what is made anew.
#[cycle(running)]
fn dual_next(
    alloc: Global,
    inner: &AnyMatroid,
    _base: &ElemSet,
    kept: &DualKept,
    next: &ElemSet,
) -> Result<AnyKept, AllocError>
    requires sound { IsSound (tree_of inner.now) }
    requires kept { IsDualKept (element_count (tree_of inner.now)) (is_independent (tree_of inner.now)) _base.now
        kept.now.set kept.now.base kept.now.columns }
    requires next { is_dual (element_count (tree_of inner.now)) (is_independent (tree_of inner.now)) next.now ≡ true }
    ensures { IfOk result (λ k. KeepsAny (dual (tree_of inner.now)) next.now k) }
{
    match same_base(alloc, kept, next)? {
        Some(same) => Ok(AnyKept::Dual(same)),
        None => dual_keep(alloc, inner, next),
    }
}

// What the dual of a dual keeps of another set, from what the matroid within both kept of this one.
#[cycle(running)]
fn dual_of_dual_next(
    alloc: Global,
    inner: &AnyMatroid,
    base: &ElemSet,
    kept: &AnyKept,
    next: &ElemSet,
) -> Result<AnyKept, AllocError>
    requires sound { IsSound (tree_of inner.now) }
    requires base { is_dual (element_count (tree_of inner.now)) (is_independent (tree_of inner.now)) base.now ≡ true }
    requires kept { KeepsDual (tree_of inner.now) base.now kept.now }
    requires next { is_dual (element_count (tree_of inner.now)) (is_independent (tree_of inner.now)) next.now ≡ true }
    ensures { IfOk result (λ k. KeepsAny (dual (tree_of inner.now)) next.now k) }
{
    match inner {
        AnyMatroid::Dual(within) => {
            kept_within(alloc, keep_next(alloc, within, base, kept, next)?)
        }
        _ => dual_keep(alloc, inner, next),
    }
}

// A base that is disjoint from the set, and the exchanges at it, column by column.
#[cycle(running)]
fn columns_keep(alloc: Global, inner: &AnyMatroid, set: &ElemSet) -> Result<DualKept, AllocError>
    requires sound { IsSound (tree_of inner.now) }
    requires base { is_dual (element_count (tree_of inner.now)) (is_independent (tree_of inner.now)) set.now ≡ true }
    ensures { IfOk result (λ k. IsDualKept (element_count (tree_of inner.now)) (is_independent (tree_of inner.now)) set.now k.set k.base k.columns) }
{
    inner.lawful();
    let outside = ElemSet::all_below(alloc, size_of(inner))?.minus(alloc, set)?;
    let base = base_keep(alloc, inner, &outside)?;
    let all = columns(alloc, inner, &base.set, &base.kept)?;
    let marks = set.to_bits(alloc)?;
    let base_marks = base.set.to_bits(alloc)?;
    Ok(DualKept {
        set: marks,
        base: base_marks,
        columns: all,
    })
}

// A maximal independent subset of a set, and what is kept of it: parts of a union tell both, and another matroid makes one run.
#[cycle(running)]
fn base_keep(alloc: Global, matroid: &AnyMatroid, within: &ElemSet) -> Result<KeptSet, AllocError>
    requires sound { IsSound (tree_of matroid.now) }
    requires below { AllBelow (element_count (tree_of matroid.now)) within.now }
    ensures maximal { IfOk result (λ k. IsMaximal (is_independent (tree_of matroid.now)) within.now k.set) }
    ensures kept { IfOk result (λ k. KeepsAny (tree_of matroid.now) k.set k.kept) }
{
    match matroid {
        AnyMatroid::Union { parts } => union_base(alloc, parts, within),
        _ => run_base(alloc, matroid, within),
    }
}

// What a run through a set takes, and what is kept of it.
#[cycle(running)]
fn run_base(alloc: Global, matroid: &AnyMatroid, within: &ElemSet) -> Result<KeptSet, AllocError>
    requires sound { IsSound (tree_of matroid.now) }
    requires below { AllBelow (element_count (tree_of matroid.now)) within.now }
    ensures maximal { IfOk result (λ k. IsMaximal (is_independent (tree_of matroid.now)) within.now k.set) }
    ensures kept { IfOk result (λ k. KeepsAny (tree_of matroid.now) k.set k.kept) }
{
    matroid.lawful();
    let set = run(alloc, matroid, within.as_slice())?;
    let kept = keep(alloc, matroid, &set)?;
    Ok(KeptSet { set, kept })
}

// A maximal independent subset of a set in a union, and what is kept of it.
#[cycle(running)]
fn union_base(
    alloc: Global,
    matroids: &[AnyMatroid],
    within: &ElemSet,
) -> Result<KeptSet, AllocError>
    requires joined { AreJoined elements_in IsSoundOne matroids.now }
    requires below { AllBelow (size_in matroids.now) within.now }
    ensures maximal { IfOk result (λ k. IsMaximal (union_in matroids.now) within.now k.set) }
    ensures kept { IfOk result (λ k. KeepsUnion matroids.now k.set k.kept) }
{
    let growth = filled_parts(alloc, matroids, within)?;
    let set = members_of(alloc, growth.parts.as_slice())?;
    let kept = parts_kept(growth.parts, growth.kept);
    Ok(KeptSet { set, kept })
}

// A maximal independent subset of the contracted elements, the set together with it, and what is kept of their union.
#[cycle(running)]
fn contraction_keep(
    alloc: Global,
    inner: &AnyMatroid,
    away: &ElemSet,
    set: &ElemSet,
) -> Result<AnyKept, AllocError>
    requires sound { IsSound (tree_of inner.now) }
    requires away { IsSet (element_count (tree_of inner.now)) away.now }
    requires base { is_contracted (element_count (tree_of inner.now)) away.now (is_independent (tree_of inner.now)) set.now ≡ true }
    ensures { IfOk result (λ k. KeepsAny (contract away.now (tree_of inner.now)) set.now k) }
{
    inner.lawful();
    away.rises();
    let chosen = run(alloc, inner, away.as_slice())?;
    let joined = set.union(alloc, &chosen)?;
    let kept = keep(alloc, inner, &joined)?;
    joined_kept(alloc, chosen, joined, kept)
}

// Parts of the set, and what each matroid keeps of its part. Any parts of the set will do.
#[cycle(running)]
fn union_keep(alloc: Global, matroids: &[AnyMatroid], set: &ElemSet) -> Result<AnyKept, AllocError>
    requires joined { AreJoined elements_in IsSoundOne matroids.now }
    requires base { union_in matroids.now set.now ≡ true }
    ensures { IfOk result (λ k. KeepsUnion matroids.now set.now k) }
{
    let growth = filled_parts(alloc, matroids, set)?;
    Ok(parts_kept(growth.parts, growth.kept))
}

// Parts of a maximal independent subset of a set, and what each matroid keeps of its part: greedy parts, into which the other elements of the set
// come one after the other, if they can. Of greedy parts few have to change.
#[cycle(running)]
fn filled_parts(
    alloc: Global,
    matroids: &[AnyMatroid],
    set: &ElemSet,
) -> Result<Growth<AnyKept>, AllocError>
    requires joined { AreJoined elements_in IsSoundOne matroids.now }
    requires below { AllBelow (size_in matroids.now) set.now }
    ensures are { IfOk result (λ g. AreParts (map test_in matroids.now) g.parts) }
    ensures kept { IfOk result (λ g. AreKept KeepsOne matroids.now g.parts g.kept.items) }
    ensures maximal { IfOk result (λ g. IsMaximal (union_in matroids.now) set.now (family_union g.parts)) }
{
    let parts = greedy_parts(alloc, matroids, set)?;
    let mut growth = growth_from(alloc, matroids, parts)?;
    for x in set.as_slice() {
        take_turn(alloc, matroids, &mut growth, *x)?;
    }
    Ok(growth)
}

// Disjoint parts of a set: each matroid takes by one run what it can of what the ones before it left, in rising order.
#[cycle(running)]
fn greedy_parts(
    alloc: Global,
    matroids: &[AnyMatroid],
    set: &ElemSet,
) -> Result<SetList, AllocError>
    requires joined { AreJoined elements_in IsSoundOne matroids.now }
    requires below { AllBelow (size_in matroids.now) set.now }
    ensures are { IfOk result (λ parts. AreParts (map test_in matroids.now) parts) }
    ensures inside { IfOk result (λ parts. IsSubset (family_union parts) set.now) }
{
    let mut parts = Vec::new(alloc);
    let mut rest = set.copy(alloc)?;
    for i in 0..matroids.len() {
        let part = run(alloc, &matroids[i], rest.as_slice())?;
        rest = rest.minus(alloc, &part)?;
        parts.push(part)?;
    }
    Ok(SetList::new(parts))
}

// What a union keeps, of its parts.
fn parts_kept(parts: SetList, kept: Vec<AnyKept>) -> AnyKept
    ensures { (matroids : List AnyMatroid) (set : List ℕ) → AreParts (map test_in matroids) parts → family_union parts ≡ set
        → AreKept KeepsOne matroids parts kept.items → KeepsUnion matroids set result }
{
    AnyKept::Union { parts, kept }
}

// What the dual of a dual keeps, of what the matroid within both keeps.
fn kept_within(alloc: Global, kept: AnyKept) -> Result<AnyKept, AllocError>
    ensures { IfOk result (λ k. (t : Tree) (set : List ℕ) → KeepsAny t set kept → KeepsAny (dual (dual t)) set k) }
{
    Ok(AnyKept::DualOfDual(Box::new(alloc, kept)?))
}

// What a contraction keeps, of its parts.
fn joined_kept(
    alloc: Global,
    chosen: ElemSet,
    joined: ElemSet,
    inner: AnyKept,
) -> Result<AnyKept, AllocError>
    ensures { IfOk result (λ k. (t : Tree) (away set : List ℕ) → IsMaximal (is_independent t) away chosen → joined ≡ union set chosen
        → KeepsAny t joined inner → KeepsAny (contract away t) set k) }
{
    Ok(AnyKept::Contract {
        chosen,
        joined,
        inner: Box::new(alloc, inner)?,
    })
}
