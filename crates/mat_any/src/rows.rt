//! The exchanges of an element in a matroid of any kind, by what is kept of the set and by recursion on the matroids within it.
ghost use Rattle.std.specs.Prelude.{◌≡◌, ◌<◌, ℕ, true, false, [], length, map, IfNone, IfOk, IfSome};
ghost use Rattle.mat_sets.specs.{Families.{family_union}, Sets.{IsRising, IsSet, is_member, union}};
ghost use Rattle.mat_laws.specs.{Exchanges.{circuit_members, row_of}, Matroids.{IsMaximal}};
ghost use Rattle.mat_minors.specs.{DualRows.{IsDualKept}, Minors.{is_contracted, is_dual, is_restricted, is_truncated}};
ghost use Rattle.mat_union.specs.{
  EndedSearches.{IsEnded, IsReady},
  GrownParts.{AreKept},
  Moves.{exchanges_with},
  Placings.{IsPlaceSearch},
  Unions.{AreParts},
  UnionsOf.{AreJoined},
};
ghost use Rattle.mat_any.specs.{
  AnyKeeps.{KeepsAny, KeepsDual},
  Joined.{elements_in, size_in, test_in, union_in, IsSoundOne, KeepsOne},
  Trees.{element_count, is_independent, IsSound},
  Views.{tree_of},
};

use crate::any::AnyMatroid;
use crate::any_kept::AnyKept;
use crate::sizes::common_size_of;
use mat_laws::{Exchange, Matroid};
use mat_minors::{DualKept, dual_adds, dual_row};
use mat_sets::{BitSet, ElemSet, SetList};
use mat_union::{MoveSearch, PlaceSearch, found_place, move_into, row_by_search};
use std::alloc::{AllocError, Global};

/// The exchanges of an element x outside an independent set, by what is kept of the set. A truncation, a restriction or a contraction asks the
/// matroid within it at most once, and the dual of a dual asks the matroid within both once; any other dual asks no matroid, and a union makes
/// one search for moves. The only error is want of memory.
#[cycle(rows)]
pub(crate) fn row(
    alloc: Global,
    matroid: &AnyMatroid,
    base: &ElemSet,
    kept: &AnyKept,
    x: u32,
) -> Result<Exchange, AllocError>
    requires sound { IsSound (tree_of matroid.now) }
    requires base { is_independent (tree_of matroid.now) base.now ≡ true }
    requires kept { KeepsAny (tree_of matroid.now) base.now kept.now }
    requires below { x < element_count (tree_of matroid.now) }
    requires outside { is_member x base.now ≡ false }
    ensures row { IfOk result (λ e. e ≡ row_of (is_independent (tree_of matroid.now)) base.now x) }
    ensures rises { IfOk result (λ e. IsRising e.with) }
{
    match (matroid, kept) {
        (AnyMatroid::Uniform(uniform), _) => uniform.row(alloc, base, &(), x),
        (AnyMatroid::Partition(partition), AnyKept::Partition(sets)) => {
            partition.row(alloc, base, sets, x)
        }
        (AnyMatroid::Laminar(laminar), AnyKept::Laminar(sets)) => laminar.row(alloc, base, sets, x),
        (AnyMatroid::Graphic(graphic), AnyKept::Graphic(forest)) => {
            graphic.row(alloc, base, forest, x)
        }
        (AnyMatroid::Transversal(transversal), AnyKept::Transversal(matching)) => {
            transversal.row(alloc, base, matching, x)
        }
        (AnyMatroid::Gammoid(gammoid), AnyKept::Gammoid(linking)) => {
            gammoid.row(alloc, base, linking, x)
        }
        (AnyMatroid::Gf2(gf2), AnyKept::Gf2(basis)) => gf2.row(alloc, base, basis, x),
        (AnyMatroid::Dual(inner), AnyKept::Dual(dual)) => {
            dual_row_within(alloc, inner, base, dual, x)
        }
        (AnyMatroid::Dual(inner), AnyKept::DualOfDual(within)) => {
            dual_of_dual_row(alloc, inner, base, within, x)
        }
        (AnyMatroid::Truncate { cap, inner }, _) => {
            truncation_row(alloc, inner, *cap, base, kept, x)
        }
        (
            AnyMatroid::Restrict {
                kept: elements,
                inner,
            },
            _,
        ) => restriction_row(alloc, inner, elements, base, kept, x),
        (
            AnyMatroid::Contract { away, inner },
            AnyKept::Contract {
                chosen,
                joined,
                inner: within,
            },
        ) => contraction_row(alloc, inner, away, base, chosen, joined, within, x),
        (AnyMatroid::Union { parts: matroids }, AnyKept::Union { parts, kept }) => {
            union_row(alloc, matroids, base, parts, kept, x)
        }
        // What is kept is of the matroid's kind.
        _ => Ok(no_exchange(alloc)),
    }
}

/// Whether an element x outside an independent set can be added, by what is kept of it: a matroid that stands on no other makes no row for it.
/// The only error is want of memory.
pub(crate) fn adds(
    alloc: Global,
    matroid: &AnyMatroid,
    base: &ElemSet,
    kept: &AnyKept,
    x: u32,
) -> Result<bool, AllocError>
    requires sound { IsSound (tree_of matroid.now) }
    requires base { is_independent (tree_of matroid.now) base.now ≡ true }
    requires kept { KeepsAny (tree_of matroid.now) base.now kept.now }
    requires below { x < element_count (tree_of matroid.now) }
    requires outside { is_member x base.now ≡ false }
    ensures { IfOk result (λ added. added ≡ (row_of (is_independent (tree_of matroid.now)) base.now x).addable) }
{
    match (matroid, kept) {
        (AnyMatroid::Uniform(uniform), _) => uniform.adds(alloc, base, &(), x),
        (AnyMatroid::Partition(partition), AnyKept::Partition(sets)) => {
            partition.adds(alloc, base, sets, x)
        }
        (AnyMatroid::Laminar(laminar), AnyKept::Laminar(sets)) => laminar.adds(
            alloc, base, sets, x,
        ),
        (AnyMatroid::Graphic(graphic), AnyKept::Graphic(forest)) => {
            graphic.adds(alloc, base, forest, x)
        }
        (AnyMatroid::Transversal(transversal), AnyKept::Transversal(matching)) => {
            transversal.adds(alloc, base, matching, x)
        }
        (AnyMatroid::Gammoid(gammoid), AnyKept::Gammoid(linking)) => {
            gammoid.adds(alloc, base, linking, x)
        }
        (AnyMatroid::Gf2(gf2), AnyKept::Gf2(basis)) => gf2.adds(alloc, base, basis, x),
        _ => {
            let exchange = row(alloc, matroid, base, kept, x)?;
            Ok(exchange.addable)
        }
    }
}

// Whether a matroid is made of others, so that `adds` makes a row.
fn is_made_of_others(matroid: &AnyMatroid) -> bool {
    matches!(
        matroid,
        AnyMatroid::Dual(_)
            | AnyMatroid::Truncate { .. }
            | AnyMatroid::Restrict { .. }
            | AnyMatroid::Contract { .. }
            | AnyMatroid::Union { .. }
    )
}

// Whether x, outside a set, can be added to one of the parts of the set as they stand, and so to the set in the union.
fn union_takes_at_once(
    alloc: Global,
    matroids: &[AnyMatroid],
    _base: &ElemSet,
    parts: &SetList,
    kept: &[AnyKept],
    x: u32,
) -> Result<bool, AllocError>
    requires joined { AreJoined elements_in IsSoundOne matroids.now }
    requires parts { AreParts (map test_in matroids.now) parts.now }
    requires together { family_union parts.now ≡ _base.now }
    requires kept { AreKept KeepsOne matroids.now parts.now kept.now }
    requires below { x < size_in matroids.now }
    requires outside { is_member x _base.now ≡ false }
    ensures { IfOk result (λ added. added ≡ true → (row_of (union_in matroids.now) _base.now x).addable ≡ true) }
{
    match part_that_takes(alloc, matroids, parts, kept, x)? {
        Some(_) => Ok(true),
        None => Ok(false),
    }
}

// Whether an element x outside an independent set can be added without a row or a search that tells it: true only if it can be added. A matroid
// that is made of one other asks that one, and a union its parts.
#[cycle(taking)]
fn takes_at_once(
    alloc: Global,
    matroid: &AnyMatroid,
    base: &ElemSet,
    kept: &AnyKept,
    x: u32,
) -> Result<bool, AllocError>
    requires sound { IsSound (tree_of matroid.now) }
    requires base { is_independent (tree_of matroid.now) base.now ≡ true }
    requires kept { KeepsAny (tree_of matroid.now) base.now kept.now }
    requires below { x < element_count (tree_of matroid.now) }
    requires outside { is_member x base.now ≡ false }
    ensures { IfOk result (λ added. added ≡ true → (row_of (is_independent (tree_of matroid.now)) base.now x).addable ≡ true) }
{
    match (matroid, kept) {
        (AnyMatroid::Dual(inner), AnyKept::Dual(dual)) => Ok(dual_adds_within(
            inner, base, dual, x,
        )),
        (AnyMatroid::Dual(inner), AnyKept::DualOfDual(within)) => {
            dual_of_dual_takes(alloc, inner, base, within, x)
        }
        (AnyMatroid::Truncate { cap, inner }, _) => {
            truncation_takes(alloc, inner, *cap, base, kept, x)
        }
        (
            AnyMatroid::Restrict {
                kept: elements,
                inner,
            },
            _,
        ) => restriction_takes(alloc, inner, elements, base, kept, x),
        (
            AnyMatroid::Contract { away, inner },
            AnyKept::Contract {
                chosen,
                joined,
                inner: within,
            },
        ) => contraction_takes(alloc, inner, away, base, chosen, joined, within, x),
        (AnyMatroid::Union { parts: matroids }, AnyKept::Union { parts, kept }) => {
            union_takes_at_once(alloc, matroids, base, parts, kept, x)
        }
        _ => adds(alloc, matroid, base, kept, x),
    }
}

// Whether x can be added in a dual, of whose matroid the laws alone are used.
fn dual_adds_within(inner: &AnyMatroid, _base: &ElemSet, kept: &DualKept, x: u32) -> bool
    requires sound { IsSound (tree_of inner.now) }
    requires base { is_dual (element_count (tree_of inner.now)) (is_independent (tree_of inner.now)) _base.now ≡ true }
    requires kept { IsDualKept (element_count (tree_of inner.now)) (is_independent (tree_of inner.now)) _base.now
        kept.now.set kept.now.base kept.now.columns }
    requires below { x < element_count (tree_of inner.now) }
    requires outside { is_member x _base.now ≡ false }
    ensures { result ≡ (row_of (is_dual (element_count (tree_of inner.now)) (is_independent (tree_of inner.now))) _base.now x).addable }
{
    inner.lawful();
    dual_adds(kept, x)
}

// Whether the matroid within the dual of a dual takes x at once.
#[cycle(taking)]
fn dual_of_dual_takes(
    alloc: Global,
    inner: &AnyMatroid,
    base: &ElemSet,
    kept: &AnyKept,
    x: u32,
) -> Result<bool, AllocError>
    requires sound { IsSound (tree_of inner.now) }
    requires base { is_dual (element_count (tree_of inner.now)) (is_independent (tree_of inner.now)) base.now ≡ true }
    requires kept { KeepsDual (tree_of inner.now) base.now kept.now }
    requires below { x < element_count (tree_of inner.now) }
    requires outside { is_member x base.now ≡ false }
    ensures { IfOk result (λ added. added ≡ true
        → (row_of (is_dual (element_count (tree_of inner.now)) (is_independent (tree_of inner.now))) base.now x).addable ≡ true) }
{
    match inner {
        AnyMatroid::Dual(within) => takes_at_once(alloc, within, base, kept, x),
        // What is kept is of the dual of a dual.
        _ => Ok(false),
    }
}

// Whether the set is below the cap of a truncation, and the matroid within it takes x at once.
#[cycle(taking)]
fn truncation_takes(
    alloc: Global,
    inner: &AnyMatroid,
    cap: u32,
    base: &ElemSet,
    kept: &AnyKept,
    x: u32,
) -> Result<bool, AllocError>
    requires sound { IsSound (tree_of inner.now) }
    requires base { is_truncated cap (is_independent (tree_of inner.now)) base.now ≡ true }
    requires kept { KeepsAny (tree_of inner.now) base.now kept.now }
    requires below { x < element_count (tree_of inner.now) }
    requires outside { is_member x base.now ≡ false }
    ensures { IfOk result (λ added. added ≡ true → (row_of (is_truncated cap (is_independent (tree_of inner.now))) base.now x).addable ≡ true) }
{
    if base.len() >= cap as usize {
        return Ok(false);
    }
    takes_at_once(alloc, inner, base, kept, x)
}

// Whether x is an element to which the matroid is restricted, and the matroid within the restriction takes it at once.
#[cycle(taking)]
fn restriction_takes(
    alloc: Global,
    inner: &AnyMatroid,
    elements: &ElemSet,
    base: &ElemSet,
    kept: &AnyKept,
    x: u32,
) -> Result<bool, AllocError>
    requires sound { IsSound (tree_of inner.now) }
    requires base { is_restricted elements.now (is_independent (tree_of inner.now)) base.now ≡ true }
    requires kept { KeepsAny (tree_of inner.now) base.now kept.now }
    requires below { x < element_count (tree_of inner.now) }
    requires outside { is_member x base.now ≡ false }
    ensures { IfOk result (λ added. added ≡ true
        → (row_of (is_restricted elements.now (is_independent (tree_of inner.now))) base.now x).addable ≡ true) }
{
    if !elements.contains(x) {
        return Ok(false);
    }
    takes_at_once(alloc, inner, base, kept, x)
}

// Whether x is not contracted, and the matroid within the contraction takes it at once, at the set together with `_chosen`.
#[cycle(taking)]
fn contraction_takes(
    alloc: Global,
    inner: &AnyMatroid,
    away: &ElemSet,
    _base: &ElemSet,
    _chosen: &ElemSet,
    joined: &ElemSet,
    kept: &AnyKept,
    x: u32,
) -> Result<bool, AllocError>
    requires sound { IsSound (tree_of inner.now) }
    requires away { IsSet (element_count (tree_of inner.now)) away.now }
    requires base { is_contracted (element_count (tree_of inner.now)) away.now (is_independent (tree_of inner.now)) _base.now ≡ true }
    requires chosen { IsMaximal (is_independent (tree_of inner.now)) away.now _chosen.now }
    requires joined { joined.now ≡ union _base.now _chosen.now }
    requires kept { KeepsAny (tree_of inner.now) joined.now kept.now }
    requires below { x < element_count (tree_of inner.now) }
    requires outside { is_member x _base.now ≡ false }
    ensures { IfOk result (λ added. added ≡ true
        → (row_of (is_contracted (element_count (tree_of inner.now)) away.now (is_independent (tree_of inner.now))) _base.now x).addable ≡ true) }
{
    if away.contains(x) {
        return Ok(false);
    }
    takes_at_once(alloc, inner, joined, kept, x)
}

/// The members of an independent set that stand in the fundamental circuit of an element x outside it, by what is kept of the set: all of the
/// circuit but x, none for a loop; None where x can be added. At most one row is made. The only error is want of memory.
pub(crate) fn circuit_members(
    alloc: Global,
    matroid: &AnyMatroid,
    base: &ElemSet,
    kept: &AnyKept,
    x: u32,
) -> Result<Option<ElemSet>, AllocError>
    requires sound { IsSound (tree_of matroid.now) }
    requires base { is_independent (tree_of matroid.now) base.now ≡ true }
    requires kept { KeepsAny (tree_of matroid.now) base.now kept.now }
    requires below { x < element_count (tree_of matroid.now) }
    requires outside { is_member x base.now ≡ false }
    ensures { IfOk result (λ members. members ≡ circuit_members (row_of (is_independent (tree_of matroid.now)) base.now x)) }
{
    if is_made_of_others(matroid) {
        if takes_at_once(alloc, matroid, base, kept, x)? {
            return Ok(None);
        }
    } else if adds(alloc, matroid, base, kept, x)? {
        return Ok(None);
    }
    let exchange = row(alloc, matroid, base, kept, x)?;
    Ok(exchange.circuit_members())
}

// No exchanges.
fn no_exchange(alloc: Global) -> Exchange
    ensures { result ≡ record { addable = false; with = [] } }
{
    Exchange {
        addable: false,
        with: ElemSet::new(alloc),
    }
}

// The exchanges in a dual, of whose matroid the laws alone are used.
fn dual_row_within(
    alloc: Global,
    inner: &AnyMatroid,
    _base: &ElemSet,
    kept: &DualKept,
    x: u32,
) -> Result<Exchange, AllocError>
    requires sound { IsSound (tree_of inner.now) }
    requires base { is_dual (element_count (tree_of inner.now)) (is_independent (tree_of inner.now)) _base.now ≡ true }
    requires kept { IsDualKept (element_count (tree_of inner.now)) (is_independent (tree_of inner.now)) _base.now
        kept.now.set kept.now.base kept.now.columns }
    requires below { x < element_count (tree_of inner.now) }
    requires outside { is_member x _base.now ≡ false }
    ensures row { IfOk result (λ e. e ≡ row_of (is_dual (element_count (tree_of inner.now)) (is_independent (tree_of inner.now))) _base.now x) }
    ensures rises { IfOk result (λ e. IsRising e.with) }
{
    inner.lawful();
    dual_row(alloc, kept, x)
}

// The exchanges in the dual of a dual: those of the matroid within both.
#[cycle(rows)]
fn dual_of_dual_row(
    alloc: Global,
    inner: &AnyMatroid,
    base: &ElemSet,
    kept: &AnyKept,
    x: u32,
) -> Result<Exchange, AllocError>
    requires sound { IsSound (tree_of inner.now) }
    requires base { is_dual (element_count (tree_of inner.now)) (is_independent (tree_of inner.now)) base.now ≡ true }
    requires kept { KeepsDual (tree_of inner.now) base.now kept.now }
    requires below { x < element_count (tree_of inner.now) }
    requires outside { is_member x base.now ≡ false }
    ensures row { IfOk result (λ e. e ≡ row_of (is_dual (element_count (tree_of inner.now)) (is_independent (tree_of inner.now))) base.now x) }
    ensures rises { IfOk result (λ e. IsRising e.with) }
{
    match inner {
        AnyMatroid::Dual(within) => row(alloc, within, base, kept, x),
        // What is kept is of the dual of a dual.
        _ => Ok(no_exchange(alloc)),
    }
}

// The exchanges of the matroid that is truncated; an element can be added only below the cap.
#[cycle(rows)]
fn truncation_row(
    alloc: Global,
    inner: &AnyMatroid,
    cap: u32,
    base: &ElemSet,
    kept: &AnyKept,
    x: u32,
) -> Result<Exchange, AllocError>
    requires sound { IsSound (tree_of inner.now) }
    requires base { is_truncated cap (is_independent (tree_of inner.now)) base.now ≡ true }
    requires kept { KeepsAny (tree_of inner.now) base.now kept.now }
    requires below { x < element_count (tree_of inner.now) }
    requires outside { is_member x base.now ≡ false }
    ensures row { IfOk result (λ e. e ≡ row_of (is_truncated cap (is_independent (tree_of inner.now))) base.now x) }
    ensures rises { IfOk result (λ e. IsRising e.with) }
{
    let exchange = row(alloc, inner, base, kept, x)?;
    Ok(Exchange {
        addable: exchange.addable && base.len() < cap as usize,
        with: exchange.with,
    })
}

// For an element to which the matroid is restricted, its exchanges in the matroid within the restriction; for any other element none.
#[cycle(rows)]
fn restriction_row(
    alloc: Global,
    inner: &AnyMatroid,
    elements: &ElemSet,
    base: &ElemSet,
    kept: &AnyKept,
    x: u32,
) -> Result<Exchange, AllocError>
    requires sound { IsSound (tree_of inner.now) }
    requires base { is_restricted elements.now (is_independent (tree_of inner.now)) base.now ≡ true }
    requires kept { KeepsAny (tree_of inner.now) base.now kept.now }
    requires below { x < element_count (tree_of inner.now) }
    requires outside { is_member x base.now ≡ false }
    ensures row { IfOk result (λ e. e ≡ row_of (is_restricted elements.now (is_independent (tree_of inner.now))) base.now x) }
    ensures rises { IfOk result (λ e. IsRising e.with) }
{
    if !elements.contains(x) {
        return Ok(no_exchange(alloc));
    }
    row(alloc, inner, base, kept, x)
}

// For an element that is not contracted, its exchanges in the matroid within the contraction, at the set together with `chosen`, but without the
// members of `chosen`; for a contracted element none.
#[cycle(rows)]
fn contraction_row(
    alloc: Global,
    inner: &AnyMatroid,
    away: &ElemSet,
    base: &ElemSet,
    chosen: &ElemSet,
    joined: &ElemSet,
    kept: &AnyKept,
    x: u32,
) -> Result<Exchange, AllocError>
    requires sound { IsSound (tree_of inner.now) }
    requires away { IsSet (element_count (tree_of inner.now)) away.now }
    requires base { is_contracted (element_count (tree_of inner.now)) away.now (is_independent (tree_of inner.now)) base.now ≡ true }
    requires chosen { IsMaximal (is_independent (tree_of inner.now)) away.now chosen.now }
    requires joined { joined.now ≡ union base.now chosen.now }
    requires kept { KeepsAny (tree_of inner.now) joined.now kept.now }
    requires below { x < element_count (tree_of inner.now) }
    requires outside { is_member x base.now ≡ false }
    ensures row { IfOk result (λ e.
        e ≡ row_of (is_contracted (element_count (tree_of inner.now)) away.now (is_independent (tree_of inner.now))) base.now x) }
    ensures rises { IfOk result (λ e. IsRising e.with) }
{
    if away.contains(x) {
        return Ok(no_exchange(alloc));
    }
    let exchange = row(alloc, inner, joined, kept, x)?;
    Ok(Exchange {
        addable: exchange.addable,
        with: exchange.with.minus(alloc, chosen)?,
    })
}

// The exchanges in a union, by one search for moves from parts of the set.
#[cycle(rows)]
fn union_row(
    alloc: Global,
    matroids: &[AnyMatroid],
    base: &ElemSet,
    parts: &SetList,
    kept: &[AnyKept],
    x: u32,
) -> Result<Exchange, AllocError>
    requires joined { AreJoined elements_in IsSoundOne matroids.now }
    requires parts { AreParts (map test_in matroids.now) parts.now }
    requires together { family_union parts.now ≡ base.now }
    requires kept { AreKept KeepsOne matroids.now parts.now kept.now }
    requires below { x < size_in matroids.now }
    requires outside { is_member x base.now ≡ false }
    ensures row { IfOk result (λ e. e ≡ row_of (union_in matroids.now) base.now x) }
    ensures rises { IfOk result (λ e. IsRising e.with) }
{
    let all = BitSet::all_below(alloc, common_size_of(matroids))?;
    let search = search_from(alloc, matroids, parts, kept, &all, x)?;
    row_by_search(alloc, base, &search)
}

// A search for moves from x among these elements, to its end, by what is kept of the parts.
#[cycle(rows)]
fn search_from(
    alloc: Global,
    matroids: &[AnyMatroid],
    parts: &SetList,
    kept: &[AnyKept],
    among: &BitSet,
    x: u32,
) -> Result<MoveSearch, AllocError>
    requires joined { AreJoined elements_in IsSoundOne matroids.now }
    requires parts { AreParts (map test_in matroids.now) parts.now }
    requires kept { AreKept KeepsOne matroids.now parts.now kept.now }
    requires among { (v : ℕ) → is_member v among.now ≡ true → v < size_in matroids.now }
    requires below { x < size_in matroids.now }
    requires fresh { is_member x (family_union parts.now) ≡ false }
    ensures ready { IfOk result (λ s. IsReady s) }
    ensures ended { IfOk result (λ s. IsEnded (size_in matroids.now) (map test_in matroids.now) parts.now among.now x s) }
{
    let n = common_size_of(matroids);
    let mut search = MoveSearch::new(alloc, n, matroids.len() as u32, x, among)?;
    while let Some(asked) = search.question() {
        let i = asked.part as usize;
        let row = row_at(alloc, &matroids[i], parts.get(i), &kept[i], asked.element)?;
        search = search.tell(alloc, &row)?;
    }
    Ok(search)
}

// The exchanges of x at a part, by what is kept of it: a member has none.
#[cycle(rows)]
fn row_at(
    alloc: Global,
    matroid: &AnyMatroid,
    part: &ElemSet,
    kept: &AnyKept,
    x: u32,
) -> Result<Exchange, AllocError>
    requires sound { IsSound (tree_of matroid.now) }
    requires base { is_independent (tree_of matroid.now) part.now ≡ true }
    requires kept { KeepsAny (tree_of matroid.now) part.now kept.now }
    requires below { x < element_count (tree_of matroid.now) }
    ensures { IfOk result (λ e. e ≡ row_of (is_independent (tree_of matroid.now)) part.now x) }
{
    if part.contains(x) {
        return Ok(no_exchange(alloc));
    }
    row(alloc, matroid, part, kept, x)
}

/// Whether x can be added to a part, by what is kept of it: a member cannot.
pub(crate) fn adds_at(
    alloc: Global,
    matroid: &AnyMatroid,
    part: &ElemSet,
    kept: &AnyKept,
    x: u32,
) -> Result<bool, AllocError>
    requires sound { IsSound (tree_of matroid.now) }
    requires base { is_independent (tree_of matroid.now) part.now ≡ true }
    requires kept { KeepsAny (tree_of matroid.now) part.now kept.now }
    requires below { x < element_count (tree_of matroid.now) }
    ensures { IfOk result (λ added. added ≡ (row_of (is_independent (tree_of matroid.now)) part.now x).addable) }
{
    if part.contains(x) {
        return Ok(false);
    }
    adds(alloc, matroid, part, kept, x)
}

// The first part to which x can be added, by what is kept of the parts.
fn part_that_takes(
    alloc: Global,
    matroids: &[AnyMatroid],
    parts: &SetList,
    kept: &[AnyKept],
    x: u32,
) -> Result<Option<u32>, AllocError>
    requires joined { AreJoined elements_in IsSoundOne matroids.now }
    requires parts { AreParts (map test_in matroids.now) parts.now }
    requires kept { AreKept KeepsOne matroids.now parts.now kept.now }
    requires below { x < size_in matroids.now }
    ensures below { IfOk result (λ found. IfSome found (λ q. q < length parts.now)) }
    ensures takes { IfOk result (λ found. IfSome found (λ q. (exchanges_with (map test_in matroids.now) parts.now q).adds x ≡ true)) }
    ensures first { IfOk result (λ found. IfSome found (λ q. (i : ℕ) → i < q
        → (exchanges_with (map test_in matroids.now) parts.now i).adds x ≡ false)) }
    ensures none { IfOk result (λ found. IfNone found ((i : ℕ) → i < length parts.now
        → (exchanges_with (map test_in matroids.now) parts.now i).adds x ≡ false)) }
{
    for i in 0..matroids.len() {
        if adds_at(alloc, &matroids[i], parts.get(i), &kept[i], x)? {
            return Ok(Some(i as u32));
        }
    }
    Ok(None)
}

/// Moves that bring x into the parts: one into the first part to which it can be added, else those along a path, of x and of elements among
/// these; where there are none, the search that is stuck. The only error is want of memory.
pub(crate) fn place_for(
    alloc: Global,
    matroids: &[AnyMatroid],
    parts: &SetList,
    kept: &[AnyKept],
    among: &BitSet,
    x: u32,
) -> Result<PlaceSearch, AllocError>
    requires joined { AreJoined elements_in IsSoundOne matroids.now }
    requires parts { AreParts (map test_in matroids.now) parts.now }
    requires kept { AreKept KeepsOne matroids.now parts.now kept.now }
    requires among { (v : ℕ) → is_member v among.now ≡ true → v < size_in matroids.now }
    requires below { x < size_in matroids.now }
    requires fresh { is_member x (family_union parts.now) ≡ false }
    ensures { IfOk result (IsPlaceSearch (size_in matroids.now) (map test_in matroids.now) parts.now among.now x) }
{
    if let Some(q) = part_that_takes(alloc, matroids, parts, kept, x)? {
        return Ok(PlaceSearch::Placed(move_into(alloc, x, q)?));
    }
    let search = search_from(alloc, matroids, parts, kept, among, x)?;
    found_place(alloc, parts, search)
}
