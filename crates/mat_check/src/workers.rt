//! Who judges the rungs of a certificate.

ghost use Rattle.std.specs.Prelude.{◌≡◌, ◌≤◌, None, length, slice_index_or, IfOk};
ghost use Rattle.mat_work.specs.{Rows.{StandFrom}, Workers.{AreWorkers}};
ghost use Rattle.mat_check.specs.Halves.{AreSumsUnder};

use crate::ladder::rung_sums::GreedyRuns;
use crate::ladder::rungs::{PlainFailures, PricedFailures};
use crate::reason::Failure;
use mat_sets::PairWeights;
use mat_work::{Workers, all_rows, rows_in_turn};
use std::alloc::{AllocError, Global};
use std::thread::Threads;

/// Who judges the rungs of a certificate: the threads of a runtime, or else one who judges them in turn. Each method gives the rows of the
/// numbers below `count`, and its only error is want of memory.
pub trait CheckWorkers: Workers {
    /// The weights of heaviest sets under the listed halves.
    fn greedy_rows(
        &self,
        alloc: Global,
        runs: &GreedyRuns<'_>,
        count: u32,
        workers: u32,
    ) -> Result<Vec<PairWeights>, AllocError>
        requires shared { Self.shared self.now }
        requires below { count ≤ length runs.now.1 }
        requires workers { AreWorkers workers }
        ensures count { IfOk result (λ rows. length rows.items ≡ count) }
        ensures rows { IfOk result (λ rows. StandFrom (AreSumsUnder runs.now) 0 rows.items) }
    {
        rows_in_turn(alloc, runs, 0, count)
    }

    /// The first failure of each rung of a matroid.
    fn plain_failures(
        &self,
        alloc: Global,
        rungs: &PlainFailures<'_>,
        count: u32,
        workers: u32,
    ) -> Result<Vec<Option<Failure>>, AllocError>
        requires shared { Self.shared self.now }
        requires below { count ≤ length rungs.now }
        requires workers { AreWorkers workers }
        ensures count { IfOk result (λ rows. length rows.items ≡ count) }
        ensures rows { IfOk result (λ rows. StandFrom (λ k found. found ≡ slice_index_or rungs.now k None) 0 rows.items) }
    {
        rows_in_turn(alloc, rungs, 0, count)
    }

    /// The first failure of each rung of two matroids.
    fn priced_failures(
        &self,
        alloc: Global,
        rungs: &PricedFailures<'_>,
        count: u32,
        workers: u32,
    ) -> Result<Vec<Option<Failure>>, AllocError>
        requires shared { Self.shared self.now }
        requires below { count ≤ length rungs.now }
        requires workers { AreWorkers workers }
        ensures count { IfOk result (λ rows. length rows.items ≡ count) }
        ensures rows { IfOk result (λ rows. StandFrom (λ k found. found ≡ slice_index_or rungs.now k None) 0 rows.items) }
    {
        rows_in_turn(alloc, rungs, 0, count)
    }
}

impl<R: Threads + Sync> CheckWorkers for R {
    fn greedy_rows(
        &self,
        alloc: Global,
        runs: &GreedyRuns<'_>,
        count: u32,
        workers: u32,
    ) -> Result<Vec<PairWeights>, AllocError> {
        all_rows(self, alloc, runs, count, workers)
    }

    fn plain_failures(
        &self,
        alloc: Global,
        rungs: &PlainFailures<'_>,
        count: u32,
        workers: u32,
    ) -> Result<Vec<Option<Failure>>, AllocError> {
        all_rows(self, alloc, rungs, count, workers)
    }

    fn priced_failures(
        &self,
        alloc: Global,
        rungs: &PricedFailures<'_>,
        count: u32,
        workers: u32,
    ) -> Result<Vec<Option<Failure>>, AllocError> {
        all_rows(self, alloc, rungs, count, workers)
    }
}
