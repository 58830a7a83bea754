//! The clauses of all rungs: each rung is judged from its own data.

ghost use Rattle.std.specs.Prelude.{◌≡◌, length, IfOk};
ghost use Rattle.mat_sets.specs.{Limits.{largest_number}, Weights.{AreWeightsWithin}};
ghost use Rattle.mat_any.specs.{Trees.{element_count, is_independent, IsSound}, Views.{tree_of}};
ghost use Rattle.mat_work.specs.Workers.{AreWorkers};
ghost use Rattle.mat_cert.specs.Certificates.{AreRangedRungs, IsRangedPlainRung, IsRangedPricedRung};
ghost use Rattle.mat_check.specs.{
  Clauses.{first_failure, numbered_clauses, plain_rung_clauses, priced_rung_clauses},
  RungFailures.{first_in_order},
};

use crate::ladder::beaten::beaten_rungs;
use crate::ladder::halves::Side;
use crate::ladder::rung::{WeightedPair, plain_rung_failure, priced_rung_failure};
use crate::reason::Failure;
use crate::workers::CheckWorkers;
use mat_any::AnyMatroid;
use mat_cert::{PlainRung, PricedRung};
use mat_greedy::heaviest_weights;
use mat_sets::{PairWeights, Weight};
use mat_work::RowJob;
use std::alloc::{AllocError, Global};
use std::marker::Model;

/// The first failure of the rungs of a matroid. It is seen as the list of the first failures, rung by rung.
#[derive(Drop)]
pub struct PlainFailures<'a> {
    alloc: Global,
    matroid: &'a AnyMatroid,
    weights: &'a [Weight],
    heaviest: &'a PairWeights,
    rungs: &'a [PlainRung],
}

impl<'a> Model for PlainFailures<'a> {
    ghost use Rattle.std.specs.Prelude.{◌≡◌, List, Option, length};
    ghost use Rattle.mat_sets.specs.{Limits.{largest_number}, Weights.{weight_at, AreWeightsWithin}};
    ghost use Rattle.mat_any.specs.{Trees.{element_count, is_independent, IsSound}, Views.{tree_of}};
    ghost use Rattle.mat_greedy.specs.Greedy.{AreHeaviestWeights};
    ghost use Rattle.mat_cert.specs.Certificates.{AreRangedRungs, IsRangedPlainRung};
    ghost use Rattle.mat_check.specs.{Clauses.{Failure, plain_rung_clauses}, RungFailures.{rungs_failures}};

    ghost Value = { List (Option Failure) };

    ghost view = { λ job. rungs_failures
        (plain_rung_clauses (length job.weights.now) (is_independent (tree_of job.matroid.now)) job.weights.now) 0 job.rungs.now };

    ghost invariant = { λ job. IsSound (tree_of job.matroid.now) × (length job.weights.now ≡ element_count (tree_of job.matroid.now))
        × AreWeightsWithin largest_number job.weights.now
        × AreHeaviestWeights (element_count (tree_of job.matroid.now)) (is_independent (tree_of job.matroid.now)) (weight_at job.weights.now)
        job.heaviest.now
        × AreRangedRungs (IsRangedPlainRung (length job.weights.now)) (length job.weights.now) job.rungs.now };
}

impl RowJob for PlainFailures<'_> {
    type Row = Option<Failure>;

    ghost use Rattle.std.specs.Prelude.{◌≡◌, None, length, slice_index_or};

    ghost jobs = { length };

    ghost stands = { λ failures k found. found ≡ slice_index_or failures k None };

    fn row(&self, k: u32) -> Result<Option<Failure>, AllocError> {
        let rung = &self.rungs[k as usize];
        plain_rung_failure(
            self.alloc,
            self.matroid,
            self.weights,
            self.heaviest,
            k,
            rung,
        )
    }
}

/// The first failure of the rungs of two matroids. It is seen as the list of the first failures, rung by rung.
#[derive(Drop)]
pub struct PricedFailures<'a> {
    alloc: Global,
    pair: &'a WeightedPair<'a>,
    first_beaten: &'a [bool],
    second_beaten: &'a [bool],
    rungs: &'a [PricedRung],
}

impl<'a> Model for PricedFailures<'a> {
    ghost use Rattle.std.specs.Prelude.{◌≡◌, List, Option, length};
    ghost use Rattle.mat_sets.specs.{Limits.{largest_number}, Weights.{AreWeightsWithin}};
    ghost use Rattle.mat_any.specs.{Trees.{element_count, is_independent, IsSound}, Views.{tree_of}};
    ghost use Rattle.mat_cert.specs.Certificates.{AreRangedRungs, IsRangedPricedRung};
    ghost use Rattle.mat_check.specs.{
      BeatenRungs.{AreJudged},
      Clauses.{Failure, priced_rung_clauses},
      RungFailures.{rungs_failures},
      declared.ladder.halves.Side.TheVariants.{First, Second},
    };

    ghost Value = { List (Option Failure) };

    ghost view = { λ job. rungs_failures
        (priced_rung_clauses (length job.pair.now.weights.now) (is_independent (tree_of job.pair.now.first.now))
        (is_independent (tree_of job.pair.now.second.now)) job.pair.now.weights.now) 0 job.rungs.now };

    ghost invariant = { λ job. IsSound (tree_of job.pair.now.first.now) × IsSound (tree_of job.pair.now.second.now)
        × (length job.pair.now.weights.now ≡ element_count (tree_of job.pair.now.first.now))
        × (length job.pair.now.weights.now ≡ element_count (tree_of job.pair.now.second.now))
        × AreWeightsWithin largest_number job.pair.now.weights.now
        × AreRangedRungs (IsRangedPricedRung (length job.pair.now.weights.now)) (length job.pair.now.weights.now) job.rungs.now
        × (length job.first_beaten.now ≡ length job.rungs.now) × (length job.second_beaten.now ≡ length job.rungs.now)
        × AreJudged (element_count (tree_of job.pair.now.first.now)) (is_independent (tree_of job.pair.now.first.now)) First job.rungs.now job.first_beaten.now
        × AreJudged (element_count (tree_of job.pair.now.second.now)) (is_independent (tree_of job.pair.now.second.now)) Second job.rungs.now job.second_beaten.now };
}

impl RowJob for PricedFailures<'_> {
    type Row = Option<Failure>;

    ghost use Rattle.std.specs.Prelude.{◌≡◌, None, length, slice_index_or};

    ghost jobs = { length };

    ghost stands = { λ failures k found. found ≡ slice_index_or failures k None };

    fn row(&self, k: u32) -> Result<Option<Failure>, AllocError> {
        let rung = &self.rungs[k as usize];
        let first_beaten = self.first_beaten[k as usize];
        let second_beaten = self.second_beaten[k as usize];
        priced_rung_failure(self.alloc, self.pair, first_beaten, second_beaten, k, rung)
    }
}

// The first failure in the order of the rungs.
fn first_found(failures: &[Option<Failure>]) -> Option<Failure>
    ensures { result ≡ first_in_order failures.now }
{
    for failure in failures {
        if let Some(first) = failure {
            return Some(*first);
        }
    }
    None
}

/// The first clause of the rungs of a matroid that fails: one run of the greedy algorithm, and one question of independence for
/// each rung. All rungs are judged, each by one worker, and the first failure in their order is told. The only error is want of memory.
pub(crate) fn plain_rungs_failure<R: CheckWorkers>(
    rt: &R,
    alloc: Global,
    m: &AnyMatroid,
    weights: &[Weight],
    rungs: &[PlainRung],
    workers: u32,
) -> Result<Option<Failure>, AllocError>
    requires shared { R.shared rt.now }
    requires sound { IsSound (tree_of m.now) }
    requires lengths { length weights.now ≡ element_count (tree_of m.now) }
    requires small { AreWeightsWithin largest_number weights.now }
    requires ranged { AreRangedRungs (IsRangedPlainRung (length weights.now)) (length weights.now) rungs.now }
    requires workers { AreWorkers workers }
    ensures { IfOk result (λ found. found
        ≡ first_failure (numbered_clauses (plain_rung_clauses (length weights.now) (is_independent (tree_of m.now)) weights.now) 0 rungs.now)) }
{
    let heaviest = heaviest_weights(alloc, m, weights)?;
    let job = PlainFailures {
        alloc,
        matroid: m,
        weights,
        heaviest: &heaviest,
        rungs,
    };
    let failures = rt.plain_failures(alloc, &job, rungs.len() as u32, workers)?;
    Ok(first_found(&failures))
}

/// The first clause of the rungs of a ladder of two matroids that fails: two questions of independence for each rung, and in each matroid
/// whether the set is beaten under its half of the split. First the workers share what tells this, for one matroid and then for the other, and
/// then the rungs: all are judged, and the first failure in their order is told. The only error is want of memory.
pub(crate) fn priced_rungs_failure<R: CheckWorkers>(
    rt: &R,
    alloc: Global,
    pair: &WeightedPair,
    rungs: &[PricedRung],
    workers: u32,
) -> Result<Option<Failure>, AllocError>
    requires shared { R.shared rt.now }
    requires first_sound { IsSound (tree_of pair.now.first.now) }
    requires second_sound { IsSound (tree_of pair.now.second.now) }
    requires first_lengths { length pair.now.weights.now ≡ element_count (tree_of pair.now.first.now) }
    requires second_lengths { length pair.now.weights.now ≡ element_count (tree_of pair.now.second.now) }
    requires small { AreWeightsWithin largest_number pair.now.weights.now }
    requires ranged { AreRangedRungs (IsRangedPricedRung (length pair.now.weights.now)) (length pair.now.weights.now) rungs.now }
    requires workers { AreWorkers workers }
    ensures { IfOk result (λ found. found
        ≡ first_failure (numbered_clauses (priced_rung_clauses (length pair.now.weights.now) (is_independent (tree_of pair.now.first.now))
        (is_independent (tree_of pair.now.second.now)) pair.now.weights.now) 0 rungs.now)) }
{
    let first = beaten_rungs(rt, alloc, pair.first, rungs, Side::First, workers)?;
    let second = beaten_rungs(rt, alloc, pair.second, rungs, Side::Second, workers)?;
    let job = PricedFailures {
        alloc,
        pair,
        first_beaten: &first,
        second_beaten: &second,
        rungs,
    };
    let failures = rt.priced_failures(alloc, &job, rungs.len() as u32, workers)?;
    Ok(first_found(&failures))
}
