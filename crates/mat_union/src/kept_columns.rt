//! The exchanges at an independent set of a union column by column, by what is kept of its parts.
ghost use Rattle.std.specs.Prelude.{◌≡◌, ◌<◌, ◌^◌, ◌||◌, ◌&&◌, ◌==◌, ℕ, true, length, map, IfOk, OnOk};
ghost use Rattle.mat_sets.specs.Sets.{is_member};
ghost use Rattle.mat_laws.specs.{Columns.{AreColumns}, Exchanges.{row_of}};
ghost use Rattle.mat_union.specs.{
  FollowedArcs.{AreArcs},
  GrownParts.{AreKept, AreKeptParts, AreSound},
  Moves.{exchanges_with},
  Unions.{union_test, AreParts},
};

use crate::asked::Asked;
use crate::exchange_arcs::{ExchangeArcs, takes_each_place};
use crate::growth::{adds_at, all_lawful};
use crate::kept_parts::KeptParts;
use mat_sets::{BitRows, BitSet, ElemSet, SetList};
use std::alloc::{AllocError, Global};

/// The columns at a part, by what is kept of it: an empty one has empty columns.
fn part_columns<M: Asked>(
    alloc: Global,
    m: &M,
    part: &ElemSet,
    kept: &M::Kept,
    n: u32,
) -> Result<BitRows, AllocError>
    requires sound { M.sound m.now }
    requires size { M.ground_size m.now ≡ n }
    requires independent { M.indep m.now part.now ≡ true }
    requires kept { M.keeps m.now part.now kept.now }
    ensures { IfOk result (λ columns. AreColumns n (M.indep m.now) part.now columns) }
{
    if part.len() == 0 {
        return BitRows::with_rows(alloc, n, 0);
    }
    m.columns_from(alloc, part, kept)
}

/// Puts x in if it can be added to a part: then it takes the place of each member, and only then is this asked.
fn enter<M: Asked>(
    alloc: Global,
    m: &M,
    part: &ElemSet,
    kept: &M::Kept,
    columns: &BitRows,
    entering: &mut BitSet,
    x: u32,
) -> Result<(), AllocError>
    requires sound { M.sound m.now }
    requires independent { M.indep m.now part.now ≡ true }
    requires kept { M.keeps m.now part.now kept.now }
    requires columns { AreColumns (M.ground_size m.now) (M.indep m.now) part.now columns.now }
    requires below { x < M.ground_size m.now }
    ensures { OnOk result ((y : ℕ) → is_member y entering.new ≡ (is_member y entering.old || (y == x && (row_of (M.indep m.now) part.now y).addable))) }
{
    m.obeys();
    if entering.contains(x) || !takes_each_place(columns, part, x) {
        return Ok(());
    }
    if adds_at(alloc, m, part, kept, x)? {
        entering.insert(x)?;
    }
    Ok(())
}

/// Puts in the elements that can be added to a part.
fn enter_each<M: Asked>(
    alloc: Global,
    m: &M,
    part: &ElemSet,
    kept: &M::Kept,
    columns: &BitRows,
    entering: &mut BitSet,
    n: u32,
) -> Result<(), AllocError>
    requires sound { M.sound m.now }
    requires size { M.ground_size m.now ≡ n }
    requires independent { M.indep m.now part.now ≡ true }
    requires kept { M.keeps m.now part.now kept.now }
    requires columns { AreColumns (M.ground_size m.now) (M.indep m.now) part.now columns.now }
    ensures { OnOk result ((x : ℕ) → is_member x entering.new ≡ (is_member x entering.old || (row_of (M.indep m.now) part.now x).addable)) }
{
    m.obeys();
    for x in 0..n {
        enter(alloc, m, part, kept, columns, entering, x)?;
    }
    Ok(())
}

/// The arcs of all parts, by their columns, and the elements that can be added to some part.
fn arcs_of<M: Asked>(
    alloc: Global,
    matroids: &[M],
    n: u32,
    parts: &SetList,
    kept: &[M::Kept],
) -> Result<ExchangeArcs, AllocError>
    requires sound { AreSound M.ground_size M.sound n matroids.now }
    requires parts { AreParts (map M.indep matroids.now) parts.now }
    requires kept { AreKept M.keeps matroids.now parts.now kept.now }
    ensures { IfOk result (λ arcs. AreArcs n (length parts.now) (exchanges_with (map M.indep matroids.now) parts.now) arcs) }
{
    all_lawful(matroids, n);
    let mut arcs = ExchangeArcs::new(alloc, n)?;
    for i in 0..matroids.len() {
        let m = &matroids[i];
        let part = parts.get(i);
        let columns = part_columns(alloc, m, part, &kept[i], n)?;
        arcs.add(&columns)?;
        let entering = &mut arcs.entering;
        enter_each(alloc, m, part, &kept[i], &columns, entering, n)?;
    }
    Ok(arcs)
}

/// For each member of a set, at its number, the elements outside that can take its place, by what is kept of parts of the set: each matroid is
/// asked once for the columns at its part, and whether elements that take all places of the part can be added to it; then what is reached along
/// the arcs of all parts is told for all elements at once (Schrijver, chapter 42).
pub(crate) fn columns_of_parts<M: Asked>(
    alloc: Global,
    matroids: &[M],
    n: u32,
    base: &ElemSet,
    held: &KeptParts<M::Kept>,
) -> Result<BitRows, AllocError>
    requires some { 0 < length matroids.now }
    requires few { length matroids.now < 2 ^ 32 }
    requires sound { AreSound M.ground_size M.sound n matroids.now }
    requires kept { AreKeptParts M.indep M.keeps matroids.now base.now held.now.parts held.now.kept.items }
    ensures { IfOk result (λ columns. AreColumns n (union_test n (map M.indep matroids.now)) base.now columns) }
{
    all_lawful(matroids, n);
    let mut arcs = arcs_of(alloc, matroids, n, &held.parts, held.kept.as_slice())?;
    arcs.follow(alloc, base.as_slice())?;
    arcs.columns(alloc, base)
}
