//! The exchanges at an independent set of a matroid of any kind column by column, by recursion on the matroids within it.
ghost use Rattle.std.specs.Prelude.{◌≡◌, ◌<◌, ◌||◌, ◌&&◌, ◌==◌, ℕ, true, not, nat_lt, length, map, IfOk, OnOk};
ghost use Rattle.mat_sets.specs.{Families.{family_union}, Sets.{IsSet, is_member, union}};
ghost use Rattle.mat_laws.specs.{Columns.{AreColumns}, Exchanges.{row_of}, Matroids.{IsMaximal}};
ghost use Rattle.mat_minors.specs.Minors.{is_contracted, is_restricted, is_truncated};
ghost use Rattle.mat_union.specs.{
  FollowedArcs.{AreArcs},
  GrownParts.{AreKept},
  Moves.{exchanges_with},
  Unions.{AreParts},
  UnionsOf.{AreJoined},
};
ghost use Rattle.mat_any.specs.{
  AnyKeeps.{KeepsAny},
  Joined.{elements_in, size_in, test_in, union_in, IsSoundOne, KeepsOne},
  Trees.{element_count, is_independent, IsSound},
  Views.{tree_of},
};

use crate::any::AnyMatroid;
use crate::any_kept::AnyKept;
use crate::part::Part;
use crate::rows::adds_at;
use crate::sizes::{common_size_of, size_of};
use mat_laws::Matroid;
use mat_sets::{BitRows, BitSet, ElemSet, SetList};
use mat_union::{ExchangeArcs, takes_each_place};
use std::alloc::{AllocError, Global};

/// For each member of an independent set, at its number, the elements outside it that can take its place, by what is kept of the set: a graphic
/// matroid makes no rows for them, a truncation, a restriction or a contraction asks the matroid within it once, a union asks each of its matroids
/// once, and each other kind makes a row for each element outside. The only error is want of memory.
#[cycle(turning)]
pub(crate) fn columns(
    alloc: Global,
    matroid: &AnyMatroid,
    base: &ElemSet,
    kept: &AnyKept,
) -> Result<BitRows, AllocError>
    requires sound { IsSound (tree_of matroid.now) }
    requires base { is_independent (tree_of matroid.now) base.now ≡ true }
    requires kept { KeepsAny (tree_of matroid.now) base.now kept.now }
    ensures { IfOk result (λ columns. AreColumns (element_count (tree_of matroid.now)) (is_independent (tree_of matroid.now)) base.now columns) }
{
    match (matroid, kept) {
        (AnyMatroid::Graphic(graphic), AnyKept::Graphic(forest)) => {
            graphic.columns(alloc, base, forest)
        }
        (AnyMatroid::Truncate { cap, inner }, _) => {
            truncation_columns(alloc, inner, *cap, base, kept)
        }
        (
            AnyMatroid::Restrict {
                kept: elements,
                inner,
            },
            _,
        ) => restriction_columns(alloc, inner, elements, base, kept),
        (
            AnyMatroid::Contract { away, inner },
            AnyKept::Contract {
                chosen,
                joined,
                inner: within,
            },
        ) => contraction_columns(alloc, inner, away, base, chosen, joined, within),
        (AnyMatroid::Union { parts: matroids }, AnyKept::Union { parts, kept }) => {
            union_columns(alloc, matroids, base, parts, kept)
        }
        _ => {
            let part = Part { matroid };
            part.columns(alloc, base, kept)
        }
    }
}

// The columns in a truncation: those of the matroid within it, since an exchange keeps the size.
#[cycle(turning)]
fn truncation_columns(
    alloc: Global,
    inner: &AnyMatroid,
    _cap: u32,
    base: &ElemSet,
    kept: &AnyKept,
) -> Result<BitRows, AllocError>
    requires sound { IsSound (tree_of inner.now) }
    requires base { is_truncated _cap (is_independent (tree_of inner.now)) base.now ≡ true }
    requires kept { KeepsAny (tree_of inner.now) base.now kept.now }
    ensures { IfOk result (λ columns. AreColumns (element_count (tree_of inner.now)) (is_truncated _cap (is_independent (tree_of inner.now)))
        base.now columns) }
{
    columns(alloc, inner, base, kept)
}

// The numbers below n that are not in a set, as bits.
fn bits_outside(alloc: Global, n: u32, set: &ElemSet) -> Result<BitSet, AllocError>
    ensures { IfOk result (λ bits. (x : ℕ) → is_member x bits ≡ (nat_lt x n && not (is_member x set.now))) }
{
    let mut outside = BitSet::all_below(alloc, n)?;
    let gone = set.to_bits(alloc)?;
    outside.remove_all(&gone);
    Ok(outside)
}

// The columns in a restriction: those of the matroid within it, but for the elements to which it is not restricted.
#[cycle(turning)]
fn restriction_columns(
    alloc: Global,
    inner: &AnyMatroid,
    elements: &ElemSet,
    base: &ElemSet,
    kept: &AnyKept,
) -> Result<BitRows, AllocError>
    requires sound { IsSound (tree_of inner.now) }
    requires base { is_restricted elements.now (is_independent (tree_of inner.now)) base.now ≡ true }
    requires kept { KeepsAny (tree_of inner.now) base.now kept.now }
    ensures { IfOk result (λ columns. AreColumns (element_count (tree_of inner.now)) (is_restricted elements.now (is_independent (tree_of inner.now)))
        base.now columns) }
{
    let mut all = columns(alloc, inner, base, kept)?;
    let gone = bits_outside(alloc, size_of(inner), elements)?;
    all.remove_from_each(&gone);
    Ok(all)
}

// The columns in a contraction: those of the matroid within it, at the set together with `chosen`, but for the contracted elements, and none of
// the members of `chosen`.
#[cycle(turning)]
fn contraction_columns(
    alloc: Global,
    inner: &AnyMatroid,
    away: &ElemSet,
    _base: &ElemSet,
    chosen: &ElemSet,
    joined: &ElemSet,
    kept: &AnyKept,
) -> Result<BitRows, AllocError>
    requires sound { IsSound (tree_of inner.now) }
    requires away { IsSet (element_count (tree_of inner.now)) away.now }
    requires base { is_contracted (element_count (tree_of inner.now)) away.now (is_independent (tree_of inner.now)) _base.now ≡ true }
    requires chosen { IsMaximal (is_independent (tree_of inner.now)) away.now chosen.now }
    requires joined { joined.now ≡ union _base.now chosen.now }
    requires kept { KeepsAny (tree_of inner.now) joined.now kept.now }
    ensures { IfOk result (λ columns. AreColumns (element_count (tree_of inner.now))
        (is_contracted (element_count (tree_of inner.now)) away.now (is_independent (tree_of inner.now))) _base.now columns) }
{
    let mut all = columns(alloc, inner, joined, kept)?;
    let gone = away.to_bits(alloc)?;
    all.remove_from_each(&gone);
    all.empty_each(alloc, chosen.as_slice(), 0)?;
    Ok(all)
}

// The columns in a union: each matroid is asked for those at its part, and what is reached along the arcs of all parts is told for all elements
// at once.
#[cycle(turning)]
fn union_columns(
    alloc: Global,
    matroids: &[AnyMatroid],
    base: &ElemSet,
    parts: &SetList,
    kept: &[AnyKept],
) -> Result<BitRows, AllocError>
    requires joined { AreJoined elements_in IsSoundOne matroids.now }
    requires parts { AreParts (map test_in matroids.now) parts.now }
    requires together { family_union parts.now ≡ base.now }
    requires kept { AreKept KeepsOne matroids.now parts.now kept.now }
    ensures { IfOk result (λ columns. AreColumns (size_in matroids.now) (union_in matroids.now) base.now columns) }
{
    let n = common_size_of(matroids);
    let mut arcs = arcs_of(alloc, matroids, n, parts, kept)?;
    arcs.follow(alloc, base.as_slice())?;
    arcs.columns(alloc, base)
}

// The arcs of all parts, by their columns, and the elements that can be added to some part.
#[cycle(turning)]
fn arcs_of(
    alloc: Global,
    matroids: &[AnyMatroid],
    n: u32,
    parts: &SetList,
    kept: &[AnyKept],
) -> Result<ExchangeArcs, AllocError>
    requires joined { AreJoined elements_in IsSoundOne matroids.now }
    requires size { n ≡ size_in matroids.now }
    requires parts { AreParts (map test_in matroids.now) parts.now }
    requires kept { AreKept KeepsOne matroids.now parts.now kept.now }
    ensures { IfOk result (λ arcs. AreArcs n (length parts.now) (exchanges_with (map test_in matroids.now) parts.now) arcs) }
{
    let mut arcs = ExchangeArcs::new(alloc, n)?;
    for i in 0..matroids.len() {
        let matroid = &matroids[i];
        let part = parts.get(i);
        let own = part_columns(alloc, matroid, part, &kept[i])?;
        arcs.add(&own)?;
        let entering = &mut arcs.entering;
        enter_each(alloc, matroid, part, &kept[i], &own, entering)?;
    }
    Ok(arcs)
}

// The columns at a part: an empty one has empty columns.
#[cycle(turning)]
fn part_columns(
    alloc: Global,
    matroid: &AnyMatroid,
    part: &ElemSet,
    kept: &AnyKept,
) -> Result<BitRows, AllocError>
    requires sound { IsSound (tree_of matroid.now) }
    requires base { is_independent (tree_of matroid.now) part.now ≡ true }
    requires kept { KeepsAny (tree_of matroid.now) part.now kept.now }
    ensures { IfOk result (λ columns. AreColumns (element_count (tree_of matroid.now)) (is_independent (tree_of matroid.now)) part.now columns) }
{
    if part.len() == 0 {
        return BitRows::with_rows(alloc, size_of(matroid), 0);
    }
    columns(alloc, matroid, part, kept)
}

// Puts x in if it can be added to a part: then it takes the place of each member, and only then is this asked.
fn enter(
    alloc: Global,
    matroid: &AnyMatroid,
    part: &ElemSet,
    kept: &AnyKept,
    columns: &BitRows,
    entering: &mut BitSet,
    x: u32,
) -> Result<(), AllocError>
    requires sound { IsSound (tree_of matroid.now) }
    requires base { is_independent (tree_of matroid.now) part.now ≡ true }
    requires kept { KeepsAny (tree_of matroid.now) part.now kept.now }
    requires columns { AreColumns (element_count (tree_of matroid.now)) (is_independent (tree_of matroid.now)) part.now columns.now }
    requires below { x < element_count (tree_of matroid.now) }
    ensures { OnOk result ((y : ℕ) → is_member y entering.new
        ≡ (is_member y entering.old || (y == x && (row_of (is_independent (tree_of matroid.now)) part.now y).addable))) }
{
    matroid.lawful();
    if entering.contains(x) || !takes_each_place(columns, part, x) {
        return Ok(());
    }
    if adds_at(alloc, matroid, part, kept, x)? {
        entering.insert(x)?;
    }
    Ok(())
}

// Puts in the elements that can be added to a part.
fn enter_each(
    alloc: Global,
    matroid: &AnyMatroid,
    part: &ElemSet,
    kept: &AnyKept,
    columns: &BitRows,
    entering: &mut BitSet,
) -> Result<(), AllocError>
    requires sound { IsSound (tree_of matroid.now) }
    requires base { is_independent (tree_of matroid.now) part.now ≡ true }
    requires kept { KeepsAny (tree_of matroid.now) part.now kept.now }
    requires columns { AreColumns (element_count (tree_of matroid.now)) (is_independent (tree_of matroid.now)) part.now columns.now }
    ensures { OnOk result ((x : ℕ) → is_member x entering.new
        ≡ (is_member x entering.old || (row_of (is_independent (tree_of matroid.now)) part.now x).addable)) }
{
    matroid.lawful();
    for x in 0..size_of(matroid) {
        enter(alloc, matroid, part, kept, columns, entering, x)?;
    }
    Ok(())
}
