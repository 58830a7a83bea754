//! The clauses of a ladder of two matroids, and of the heaviest sets of one.

ghost use Rattle.std.specs.Prelude.{◌≡◌, length, IfOk};
ghost use Rattle.mat_sets.specs.{Limits.{largest_weight}, Weights.{AreWeightsWithin}};
ghost use Rattle.mat_any.specs.{Trees.{element_count, is_independent, IsSound}, Views.{tree_of}};
ghost use Rattle.mat_work.specs.Workers.{AreWorkers};
ghost use Rattle.mat_cert.specs.Certificates.{AreRangedRungs, IsRangedLadder, IsRangedPlainRung};
ghost use Rattle.mat_check.specs.Clauses.{best_clauses, first_failure, ladder_clauses};

mod beaten;
mod colours;
pub(crate) mod fronts;
mod halves;
mod last_rung;
pub(crate) mod rung;
pub(crate) mod rung_sums;
pub(crate) mod rungs;

use crate::ladder::last_rung::{cut_holds, last_failure};
use crate::ladder::rung::WeightedPair;
use crate::ladder::rungs::{plain_rungs_failure, priced_rungs_failure};
use crate::reason::{Failure, Reason};
use crate::workers::CheckWorkers;
use mat_any::AnyMatroid;
use mat_cert::{PlainRung, PricedRung};
use mat_sets::{ElemSet, Weight};
use std::alloc::{AllocError, Global};

/// The first clause of a ladder of two matroids that fails: those of the rungs, and then that of the cut, which takes at most as many
/// questions of independence as there are elements (the bound by the cut is Edmonds'). The only error is want of memory.
pub(crate) fn ladder_failure<R: CheckWorkers>(
    rt: &R,
    alloc: Global,
    both: &WeightedPair,
    rungs: &[PricedRung],
    cut: &ElemSet,
    workers: u32,
) -> Result<Option<Failure>, AllocError>
    requires shared { R.shared rt.now }
    requires first_sound { IsSound (tree_of both.now.first.now) }
    requires second_sound { IsSound (tree_of both.now.second.now) }
    requires first_lengths { length both.now.weights.now ≡ element_count (tree_of both.now.first.now) }
    requires second_lengths { length both.now.weights.now ≡ element_count (tree_of both.now.second.now) }
    requires small { AreWeightsWithin largest_weight both.now.weights.now }
    requires ranged { IsRangedLadder (length both.now.weights.now) rungs.now cut.now }
    requires workers { AreWorkers workers }
    ensures { IfOk result (λ found. found ≡ first_failure (ladder_clauses (length both.now.weights.now) (is_independent (tree_of both.now.first.now))
        (is_independent (tree_of both.now.second.now)) both.now.weights.now rungs.now cut.now)) }
{
    if let Some(failure) = priced_rungs_failure(rt, alloc, both, rungs, workers)? {
        return Ok(Some(failure));
    }
    if !cut_holds(alloc, both.first, both.second, rungs.len() - 1, cut)? {
        return Ok(Some(Reason::Cut.at(0, 0)));
    }
    Ok(None)
}

/// The first clause of the heaviest sets of a matroid that fails: those of the rungs, and then that no element can be added to the
/// last set. The only error is want of memory.
pub(crate) fn best_failure<R: CheckWorkers>(
    rt: &R,
    alloc: Global,
    m: &AnyMatroid,
    weights: &[Weight],
    rungs: &[PlainRung],
    workers: u32,
) -> Result<Option<Failure>, AllocError>
    requires shared { R.shared rt.now }
    requires sound { IsSound (tree_of m.now) }
    requires lengths { length weights.now ≡ element_count (tree_of m.now) }
    requires small { AreWeightsWithin largest_weight weights.now }
    requires ranged { AreRangedRungs (IsRangedPlainRung (length weights.now)) (length weights.now) rungs.now }
    requires workers { AreWorkers workers }
    ensures { IfOk result (λ found. found ≡ first_failure (best_clauses (length weights.now) (is_independent (tree_of m.now)) weights.now rungs.now)) }
{
    if let Some(failure) = plain_rungs_failure(rt, alloc, m, weights, rungs, workers)? {
        return Ok(Some(failure));
    }
    last_failure(alloc, m, rungs)
}
