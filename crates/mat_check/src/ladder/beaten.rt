//! The rungs whose sets are beaten: some independent set of as many elements is heavier under the rung's half of its split.

ghost use Rattle.std.specs.Prelude.{◌≡◌, ℕ, ◌<◌, ◌≤◌, [], length, slice_index_or, IfOk};
ghost use Rattle.mat_sets.specs.{Limits.{most_elements}, Weights.{weight_at}};
ghost use Rattle.mat_any.specs.{Trees.{element_count, is_independent, IsSound}, Views.{tree_of}};
ghost use Rattle.mat_greedy.specs.Greedy.{AreHeaviestWeights};
ghost use Rattle.mat_work.specs.Workers.{AreWorkers};
ghost use Rattle.mat_cert.specs.Certificates.{AreRangedRungs, IsRangedPricedRung};
ghost use Rattle.mat_check.specs.{BeatenRungs.{AreJudged, IsJudged}, Halves.{half_at, half_of, halves_of}};

use crate::ladder::halves::{ListedHalves, Side, half, list_halves};
use crate::ladder::rung_sums::{RungSums, rung_sums};
use crate::sets::exchanges::{is_beaten_by_exchange, keep_empty, move_to};
use crate::sets::searches::is_lighter;
use crate::workers::CheckWorkers;
use mat_any::{AnyMatroid, has_union};
use mat_cert::PricedRung;
use mat_laws::Matroid;
use mat_sets::PairWeights;
use std::alloc::{AllocError, Global};

// Whether rung k is beaten, by the weights of heaviest sets of each size under its half; a set larger than all of these is dependent.
fn is_beaten_by_sums<M: Matroid>(
    m: &M,
    k: u32,
    rung: &PricedRung,
    side: Side,
    heaviest: &PairWeights,
) -> bool
    requires sound { M.sound m.now }
    requires few { M.ground_size m.now ≤ most_elements }
    requires ranged { IsRangedPricedRung (M.ground_size m.now) k rung.now }
    requires heaviest { AreHeaviestWeights (M.ground_size m.now) (M.indep m.now) (weight_at (half_of side rung.now)) heaviest.now }
    ensures { IsJudged (M.ground_size m.now) (M.indep m.now) side rung.now result }
{
    m.lawful();
    let size = rung.set.len();
    size < heaviest.len() && is_lighter(&rung.set, half(rung, side), heaviest.get(size))
}

// Which rungs are beaten, by the weights of heaviest sets under their halves.
fn beaten_by_sums<M: Matroid>(
    alloc: Global,
    m: &M,
    rungs: &[PricedRung],
    side: Side,
    sums: &RungSums,
) -> Result<Vec<bool>, AllocError>
    requires sound { M.sound m.now }
    requires ranged { AreRangedRungs (IsRangedPricedRung (M.ground_size m.now)) (M.ground_size m.now) rungs.now }
    requires count { length sums.now ≡ length rungs.now }
    requires heaviest { (k : ℕ) → k < length rungs.now
        → AreHeaviestWeights (M.ground_size m.now) (M.indep m.now) (weight_at (half_at (halves_of side rungs.now) k))
        (slice_index_or sums.now k []) }
    ensures count { IfOk result (λ beaten. length beaten.items ≡ length rungs.now) }
    ensures told { IfOk result (λ beaten. AreJudged (M.ground_size m.now) (M.indep m.now) side rungs.now beaten.items) }
{
    let mut beaten = Vec::with_capacity(alloc, rungs.len())?;
    for k in 0..rungs.len() as u32 {
        let rung = &rungs[k as usize];
        beaten.push(is_beaten_by_sums(m, k, rung, side, sums.of_rung(k)))?;
    }
    Ok(beaten)
}

// Which rungs are beaten, by the exchanges at their sets, one after the other: what is kept of a set is made from what is kept of the one before.
fn beaten_by_exchanges<M: Matroid>(
    alloc: Global,
    m: &M,
    rungs: &[PricedRung],
    side: Side,
) -> Result<Vec<bool>, AllocError>
    requires sound { M.sound m.now }
    requires ranged { AreRangedRungs (IsRangedPricedRung (M.ground_size m.now)) (M.ground_size m.now) rungs.now }
    ensures count { IfOk result (λ beaten. length beaten.items ≡ length rungs.now) }
    ensures told { IfOk result (λ beaten. AreJudged (M.ground_size m.now) (M.indep m.now) side rungs.now beaten.items) }
{
    let mut beaten = Vec::with_capacity(alloc, rungs.len())?;
    let mut here = keep_empty(alloc, m)?;
    for k in 0..rungs.len() {
        let rung = &rungs[k];
        here = move_to(alloc, m, here, &rung.set)?;
        let is_beaten = is_beaten_by_exchange(alloc, m, half(rung, side), &here)?;
        beaten.push(is_beaten)?;
    }
    Ok(beaten)
}

// Whether a matroid is a union of two that hold no union, and many halves differ: then a run of the greedy algorithm for each of these takes longer
// than exchanges. A search for moves asks each element that it reaches at each part, so that with many parts a circuit may take longer than a run.
fn exchanges_pay(m: &AnyMatroid, halves: &ListedHalves) -> bool {
    match m {
        AnyMatroid::Union { parts } => {
            parts.len() == 2
                && !has_union(&parts[0])
                && !has_union(&parts[1])
                && halves.listed.len() > halves.own.len() / 8
        }
        _ => false,
    }
}

/// Which rungs are beaten in a matroid under their halves of the splits; of a rung whose set is dependent nothing is told. Of a union of
/// two, where many halves differ, this is told by the exchanges at the sets, one after the other; else by one run of the greedy algorithm for
/// each half that isn't that of the rung before, which the workers share. The only error is want of memory.
pub(crate) fn beaten_rungs<R: CheckWorkers>(
    rt: &R,
    alloc: Global,
    m: &AnyMatroid,
    rungs: &[PricedRung],
    side: Side,
    workers: u32,
) -> Result<Vec<bool>, AllocError>
    requires shared { R.shared rt.now }
    requires sound { IsSound (tree_of m.now) }
    requires ranged { AreRangedRungs (IsRangedPricedRung (element_count (tree_of m.now))) (element_count (tree_of m.now)) rungs.now }
    requires workers { AreWorkers workers }
    ensures count { IfOk result (λ beaten. length beaten.items ≡ length rungs.now) }
    ensures told { IfOk result (λ beaten. AreJudged (element_count (tree_of m.now)) (is_independent (tree_of m.now)) side rungs.now beaten.items) }
{
    let halves = list_halves(alloc, rungs, side)?;
    if exchanges_pay(m, &halves) {
        return beaten_by_exchanges(alloc, m, rungs, side);
    }
    let sums = rung_sums(rt, alloc, m, rungs, side, halves, workers)?;
    beaten_by_sums(alloc, m, rungs, side, &sums)
}
