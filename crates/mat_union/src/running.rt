//! Greedy runs of a union.
ghost use Rattle.std.specs.Prelude.{◌≡◌, ◌<◌, ◌^◌, [], length, map, IfOk, OnOk};
ghost use Rattle.mat_sets.specs.{Families.{family_union}, Sets.{AllBelow, AreDistinct}};
ghost use Rattle.mat_laws.specs.GreedyRuns.{grown_along, grown_by};
ghost use Rattle.mat_union.specs.{GrownParts.{AreGrowing, AreKept, AreSound}, Unions.{test_at, union_test}};

use crate::asked::Asked;
use crate::empty::first_parts;
use crate::growth::{Growth, all_lawful, grow, growth_from};
use crate::move_graph::stands;
use crate::moved_sets::members_of;
use mat_sets::ElemSet;
use std::alloc::{AllocError, Global};

/// The first part holds what the first matroid takes by its own run along the order, the others are empty, and no element is found to be
/// spanned yet.
fn first_growth<M: Asked>(
    alloc: Global,
    matroids: &[M],
    n: u32,
    order: &[u32],
) -> Result<Growth<M::Kept>, AllocError>
    requires some { 0 < length matroids.now }
    requires sound { AreSound M.ground_size M.sound n matroids.now }
    requires below { AllBelow n order.now }
    requires distinct { AreDistinct order.now }
    ensures growing { IfOk result (λ g. AreGrowing n (map M.indep matroids.now) g.parts g.spanned g.unspanned) }
    ensures kept { IfOk result (λ g. AreKept M.keeps matroids.now g.parts g.kept.items) }
    ensures first { IfOk result (λ g. family_union g.parts ≡ grown_along (test_at (map M.indep matroids.now) 0) [] order.now) }
{
    all_lawful(matroids, n);
    let first = matroids[0].run_along(alloc, order)?;
    let parts = first_parts(alloc, first, matroids.len())?;
    growth_from(alloc, matroids, parts, n)
}

/// One turn of the run: an element that is in no part and not found to be spanned comes into the parts where it can.
fn take_turn<M: Asked>(
    alloc: Global,
    matroids: &[M],
    growth: &mut Growth<M::Kept>,
    n: u32,
    x: u32,
) -> Result<(), AllocError>
    requires some { 0 < length matroids.now }
    requires few { length matroids.now < 2 ^ 32 }
    requires sound { AreSound M.ground_size M.sound n matroids.now }
    requires growing { AreGrowing n (map M.indep matroids.now) growth.old.parts growth.old.spanned growth.old.unspanned }
    requires kept { AreKept M.keeps matroids.now growth.old.parts growth.old.kept.items }
    requires below { x < n }
    ensures growing { OnOk result (AreGrowing n (map M.indep matroids.now) growth.new.parts growth.new.spanned growth.new.unspanned) }
    ensures kept { OnOk result (AreKept M.keeps matroids.now growth.new.parts growth.new.kept.items) }
    ensures step { OnOk result (family_union growth.new.parts
        ≡ grown_by (union_test n (map M.indep matroids.now)) (family_union growth.old.parts) x) }
{
    all_lawful(matroids, n);
    if stands(&growth.parts, x) || !growth.unspanned.contains(x) {
        return Ok(());
    }
    grow(alloc, matroids, growth, n, x)
}

/// The greedy run of the union along an order in which no element stands twice (Schrijver, chapters 40 and 42). The first matroid takes by
/// its own run what it can, all of which the union takes too. Then each other element comes, by what is kept of the parts: it is added to
/// a part that can take it at once, or comes by a search for moves; what a stuck search reached is spanned, and needs no search any more. The
/// only error is want of memory.
pub(crate) fn run_along<M: Asked>(
    alloc: Global,
    matroids: &[M],
    n: u32,
    order: &[u32],
) -> Result<ElemSet, AllocError>
    requires some { 0 < length matroids.now }
    requires few { length matroids.now < 2 ^ 32 }
    requires sound { AreSound M.ground_size M.sound n matroids.now }
    requires below { AllBelow n order.now }
    requires distinct { AreDistinct order.now }
    ensures { IfOk result (λ set. set ≡ grown_along (union_test n (map M.indep matroids.now)) [] order.now) }
{
    all_lawful(matroids, n);
    let mut growth = first_growth(alloc, matroids, n, order)?;
    for x in order {
        take_turn(alloc, matroids, &mut growth, n, *x)?;
    }
    members_of(alloc, growth.parts.as_slice())
}
