//! The weights of heaviest sets under the halves of the splits of rungs.

ghost use Rattle.std.specs.Prelude.{◌≡◌, ℕ, ◌+◌, ◌<◌, ◌≤◌, [], length, slice_index_or, IfOk};
ghost use Rattle.mat_sets.specs.{Limits.{most_elements}, Weights.{weight_at}};
ghost use Rattle.mat_any.specs.{Trees.{element_count, is_independent, IsSound}, Views.{tree_of}};
ghost use Rattle.mat_greedy.specs.Greedy.{AreHeaviestWeights};
ghost use Rattle.mat_work.specs.Workers.{AreWorkers};
ghost use Rattle.mat_cert.specs.Certificates.{IsRangedPart};
ghost use Rattle.mat_check.specs.Halves.{halves_of, half_at, AreListed};

use crate::ladder::halves::{ListedHalves, Side, half};
use crate::workers::CheckWorkers;
use mat_any::AnyMatroid;
use mat_cert::PricedRung;
use mat_greedy::heaviest_weights;
use mat_sets::{PairWeights, Weight};
use mat_work::RowJob;
use std::alloc::{AllocError, Global};
use std::marker::Model;

/// One run of the greedy algorithm for each listed half. It is seen as the matroid and the halves.
#[derive(Drop)]
pub struct GreedyRuns<'a> {
    alloc: Global,
    matroid: &'a AnyMatroid,
    rungs: &'a [PricedRung],
    side: Side,
    listed: &'a [u32],
}

impl<'a> Model for GreedyRuns<'a> {
    ghost use Rattle.std.specs.{Prelude.{ℕ, ◌<◌, ◌≤◌, List, length, map, slice_index_or}, Coded.{codes}};
    ghost use Rattle.mat_sets.specs.{Limits.{most_elements}, declared.weight.Weight.{Weight}};
    ghost use Rattle.mat_any.specs.contracts.any.AnyMatroid as e;
    ghost use Rattle.mat_any.specs.{
      Trees.{element_count, IsSound},
      Views.{tree_of},
      declared.any.AnyMatroid.{AnyMatroid},
    };
    ghost use Rattle.mat_cert.specs.Certificates.{IsRangedPart};
    ghost use Rattle.mat_check.specs.Halves.{halves_of, half_at};

    ghost Value = { AnyMatroid × List (List Weight) };

    ghost coded = { Prim.hlevel (codes, e.the_row.coded) };

    ghost view = { λ runs. (runs.matroid.now, map (half_at (halves_of runs.side runs.rungs.now)) runs.listed.now) };

    ghost invariant = { λ runs. IsSound (tree_of runs.matroid.now) × (element_count (tree_of runs.matroid.now) ≤ most_elements)
        × ((j : ℕ) → j < length runs.listed.now → slice_index_or runs.listed.now j 0 < length runs.rungs.now)
        × ((k : ℕ) → k < length runs.rungs.now
        → IsRangedPart (element_count (tree_of runs.matroid.now)) (half_at (halves_of runs.side runs.rungs.now) k)) };
}

// The weights of heaviest sets under this half, by one run of the greedy algorithm.
fn sums_under(alloc: Global, m: &AnyMatroid, half: &[Weight]) -> Result<PairWeights, AllocError>
    requires sound { IsSound (tree_of m.now) }
    requires few { element_count (tree_of m.now) ≤ most_elements }
    requires ranged { IsRangedPart (element_count (tree_of m.now)) half.now }
    ensures { IfOk result (AreHeaviestWeights (element_count (tree_of m.now)) (is_independent (tree_of m.now)) (weight_at half.now)) }
{
    heaviest_weights(alloc, m, half)
}

impl RowJob for GreedyRuns<'_> {
    type Row = PairWeights;

    ghost use Rattle.std.specs.Prelude.{length};
    ghost use Rattle.mat_check.specs.Halves.{AreSumsUnder};

    ghost jobs = { λ runs. length runs.1 };

    ghost stands = { AreSumsUnder };

    fn row(&self, j: u32) -> Result<PairWeights, AllocError> {
        let k = self.listed[j as usize];
        sums_under(
            self.alloc,
            self.matroid,
            half(&self.rungs[k as usize], self.side),
        )
    }
}

/// For each rung the weight of a heaviest set of each size under a half of its split. It is seen as the list of these weights.
#[derive(Drop)]
pub(crate) struct RungSums {
    own: Vec<u32>,
    sums: Vec<PairWeights>,
}

impl Model for RungSums {
    ghost use Rattle.std.specs.Prelude.{ℕ, ◌<◌, [], List, length, map, slice_index_or};
    ghost use Rattle.mat_sets.specs.declared.weight.Weight.{Weight};

    ghost Value = { List (List Weight) };

    ghost view = { λ s. map (λ j. slice_index_or s.sums.items j []) s.own.items };

    ghost invariant = { λ s. (k : ℕ) → k < length s.own.items → slice_index_or s.own.items k 0 < length s.sums.items };
}

impl RungSums {
    /// The weights for rung k.
    pub(crate) fn of_rung(&self, k: u32) -> &PairWeights
        requires { k < length self.now }
        ensures { result.now ≡ slice_index_or self.now k [] }
    {
        &self.sums[self.own[k as usize] as usize]
    }
}

/// The weights of heaviest sets under the halves of all rungs, by one run of the greedy algorithm for each listed half. The only error is
/// want of memory.
pub(crate) fn rung_sums<R: CheckWorkers>(
    rt: &R,
    alloc: Global,
    m: &AnyMatroid,
    rungs: &[PricedRung],
    side: Side,
    halves: ListedHalves,
    workers: u32,
) -> Result<RungSums, AllocError>
    requires shared { R.shared rt.now }
    requires sound { IsSound (tree_of m.now) }
    requires few { element_count (tree_of m.now) ≤ most_elements }
    requires count { length halves.own.items ≡ length rungs.now }
    requires no_more { length halves.listed.items ≤ most_elements + 1 }
    requires listed { AreListed (halves_of side rungs.now) halves.listed.items halves.own.items }
    requires ranged { (k : ℕ) → k < length rungs.now → IsRangedPart (element_count (tree_of m.now)) (half_at (halves_of side rungs.now) k) }
    requires workers { AreWorkers workers }
    ensures count { IfOk result (λ sums. length sums ≡ length rungs.now) }
    ensures heaviest { IfOk result (λ sums. (k : ℕ) → k < length rungs.now
        → AreHeaviestWeights (element_count (tree_of m.now)) (is_independent (tree_of m.now)) (weight_at (half_at (halves_of side rungs.now) k))
        (slice_index_or sums k [])) }
{
    let runs = GreedyRuns {
        alloc,
        matroid: m,
        rungs,
        side,
        listed: &halves.listed,
    };
    let sums = rt.greedy_rows(alloc, &runs, halves.listed.len() as u32, workers)?;
    Ok(RungSums {
        own: halves.own,
        sums,
    })
}
