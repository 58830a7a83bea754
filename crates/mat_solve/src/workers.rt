//! Who finds the ladders of two matroids.

ghost use Rattle.std.specs.Prelude.{◌≡◌, ◌≤◌, length, IfOk};
ghost use Rattle.mat_sets.specs.{Limits.{most_elements, largest_weight}, Weights.{AreWeightsWithin}};
ghost use Rattle.mat_any.specs.{Trees.{element_count, is_independent, IsSound}, Views.{tree_of}};
ghost use Rattle.mat_work.specs.Workers.{AreWorkers};
ghost use Rattle.mat_split.specs.Ladders.{IsLadder};

use mat_any::AnyMatroid;
use mat_sets::Weight;
use mat_split::{Ladder, intersect_all, intersect_in_turn};
use mat_work::Workers;
use std::alloc::{AllocError, Global};
use std::thread::Threads;

/// Who finds the ladders of two matroids: the threads of a runtime, or else one who makes the rows of each matroid in turn.
pub trait SolveWorkers: Workers {
    /// What [`intersect_all`] says of two matroids of the kinds that are known.
    fn ladder_of(
        &self,
        alloc: Global,
        first: &AnyMatroid,
        second: &AnyMatroid,
        weights: &[Weight],
        workers: u32,
    ) -> Result<Ladder, AllocError>
        requires shared { Self.shared self.now }
        requires first_sound { IsSound (tree_of first.now) }
        requires second_sound { IsSound (tree_of second.now) }
        requires ground { element_count (tree_of second.now) ≡ element_count (tree_of first.now) }
        requires few { element_count (tree_of first.now) ≤ most_elements }
        requires workers { AreWorkers workers }
        requires lengths { length weights.now ≡ element_count (tree_of first.now) }
        requires small { AreWeightsWithin largest_weight weights.now }
        ensures { IfOk result (λ l. IsLadder (element_count (tree_of first.now)) (is_independent (tree_of first.now)) (is_independent (tree_of second.now))
            weights.now l.rungs.items l.cut) }
    {
        intersect_in_turn(alloc, first, second, weights)
    }
}

impl<R: Threads + Sync> SolveWorkers for R {
    fn ladder_of(
        &self,
        alloc: Global,
        first: &AnyMatroid,
        second: &AnyMatroid,
        weights: &[Weight],
        workers: u32,
    ) -> Result<Ladder, AllocError> {
        intersect_all(self, alloc, first, second, weights, workers)
    }
}
