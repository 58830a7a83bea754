//! The clauses of rainbow spanning trees and of assignments: ladders of the two matroids that they are common independent sets of.

ghost use Rattle.std.specs.Prelude.{◌≡◌, ◌++◌, length, slice_index, IfOk};
ghost use Rattle.mat_sets.specs.{Limits.{largest_weight}, Graphs.{IsGraph, ends_of}, Weights.{AreWeightsWithin}};
ghost use Rattle.mat_graphic.specs.Forests.{is_graphic};
ghost use Rattle.mat_any.specs.{Trees.{element_count, is_independent, IsSound}, Views.{tree_of}};
ghost use Rattle.mat_work.specs.Workers.{AreWorkers};
ghost use Rattle.mat_fronts.specs.{Assignments.{column_at, row_at}, Once.{is_once}};
ghost use Rattle.mat_cert.specs.Certificates.{IsRangedLadder};
ghost use Rattle.mat_check.specs.{Clauses.{first_failure, ladder_clauses}, TreeClauses.{colours_clauses}};

use crate::ladder::colours::colours_failure;
use crate::ladder::ladder_failure;
use crate::ladder::rung::WeightedPair;
use crate::reason::Failure;
use crate::workers::CheckWorkers;
use mat_any::AnyMatroid;
use mat_cert::PricedRung;
use mat_count::Partition;
use mat_graphic::Graphic;
use mat_sets::{ElemSet, Pairs, Weight};
use std::alloc::{AllocError, Global};

// The first clause of the ladder of two matroids that fails. The matroids are dropped.
fn owned_ladder_failure<R: CheckWorkers>(
    rt: &R,
    alloc: Global,
    weights: &[Weight],
    first: AnyMatroid,
    second: AnyMatroid,
    rungs: &[PricedRung],
    cut: &ElemSet,
    workers: u32,
) -> Result<Option<Failure>, AllocError>
    requires shared { R.shared rt.now }
    requires first_sound { IsSound (tree_of first) }
    requires second_sound { IsSound (tree_of second) }
    requires first_lengths { length weights.now ≡ element_count (tree_of first) }
    requires second_lengths { length weights.now ≡ element_count (tree_of second) }
    requires small { AreWeightsWithin largest_weight weights.now }
    requires ranged { IsRangedLadder (length weights.now) rungs.now cut.now }
    requires workers { AreWorkers workers }
    ensures { IfOk result (λ found. found ≡ first_failure (ladder_clauses (length weights.now) (is_independent (tree_of first))
        (is_independent (tree_of second)) weights.now rungs.now cut.now)) }
{
    let both = WeightedPair {
        weights,
        first: &first,
        second: &second,
    };
    let found = ladder_failure(rt, alloc, &both, rungs, cut, workers);
    drop(first);
    drop(second);
    found
}

/// The first clause of the assignments of each size that fails, as a ladder of the partition matroids of the rows and of the columns
/// (Schrijver, chapter 17). The only error is want of memory.
pub(crate) fn assign_failure<R: CheckWorkers>(
    rt: &R,
    alloc: Global,
    rows: u32,
    columns: u32,
    cells: &Pairs,
    weights: &[Weight],
    rungs: &[PricedRung],
    cut: &ElemSet,
    workers: u32,
) -> Result<Option<Failure>, AllocError>
    requires shared { R.shared rt.now }
    requires lengths { length weights.now ≡ length cells.now }
    requires small { AreWeightsWithin largest_weight weights.now }
    requires ranged { IsRangedLadder (length cells.now) rungs.now cut.now }
    requires workers { AreWorkers workers }
    ensures { IfOk result (λ found. found ≡ first_failure (ladder_clauses (length cells.now) (is_once (length cells.now) rows (row_at cells.now))
        (is_once (length cells.now) columns (column_at cells.now)) weights.now rungs.now cut.now)) }
{
    let row_of = cells.firsts(alloc)?;
    let column_of = cells.seconds(alloc)?;
    let by_row = AnyMatroid::Partition(Partition::one_for_each_label(alloc, &row_of, rows)?);
    let by_column = AnyMatroid::Partition(Partition::one_for_each_label(
        alloc, &column_of, columns,
    )?);
    owned_ladder_failure(rt, alloc, weights, by_row, by_column, rungs, cut, workers)
}

// The first clause of the rainbow forests of each size that fails, as a ladder of the graphic matroid and of the partition matroid of the
// colours (Schrijver, chapter 41).
fn rainbow_ladder_failure<R: CheckWorkers>(
    rt: &R,
    alloc: Global,
    vertices: u32,
    edges: &Pairs,
    colours: u32,
    colour_of: &[u32],
    weights: &[Weight],
    rungs: &[PricedRung],
    cut: &ElemSet,
    workers: u32,
) -> Result<Option<Failure>, AllocError>
    requires shared { R.shared rt.now }
    requires graph { IsGraph vertices edges.now }
    requires long { length colour_of.now ≡ length edges.now }
    requires lengths { length weights.now ≡ length edges.now }
    requires small { AreWeightsWithin largest_weight weights.now }
    requires ranged { IsRangedLadder (length edges.now) rungs.now cut.now }
    requires workers { AreWorkers workers }
    ensures { IfOk result (λ found. found ≡ first_failure (ladder_clauses (length edges.now) (is_graphic (length edges.now) (ends_of edges.now))
        (is_once (length edges.now) colours (slice_index colour_of.now)) weights.now rungs.now cut.now)) }
{
    let graphic = AnyMatroid::Graphic(Graphic::new(alloc, vertices, edges.copy(alloc)?)?);
    let classes = AnyMatroid::Partition(Partition::one_for_each_label(alloc, colour_of, colours)?);
    owned_ladder_failure(rt, alloc, weights, graphic, classes, rungs, cut, workers)
}

/// The first clause of the rainbow forests of each size that fails, as a ladder of the graphic matroid and of the partition matroid of the
/// colours, and then that of the missing colours (Schrijver, chapter 41). The only error is want of memory.
pub(crate) fn rainbow_failure<R: CheckWorkers>(
    rt: &R,
    alloc: Global,
    vertices: u32,
    edges: &Pairs,
    colours: u32,
    colour_of: &[u32],
    weights: &[Weight],
    rungs: &[PricedRung],
    cut: &ElemSet,
    missing: &Option<ElemSet>,
    workers: u32,
) -> Result<Option<Failure>, AllocError>
    requires shared { R.shared rt.now }
    requires graph { IsGraph vertices edges.now }
    requires long { length colour_of.now ≡ length edges.now }
    requires lengths { length weights.now ≡ length edges.now }
    requires small { AreWeightsWithin largest_weight weights.now }
    requires ranged { IsRangedLadder (length edges.now) rungs.now cut.now }
    requires workers { AreWorkers workers }
    ensures { IfOk result (λ found. found ≡ first_failure (ladder_clauses (length edges.now) (is_graphic (length edges.now) (ends_of edges.now))
        (is_once (length edges.now) colours (slice_index colour_of.now)) weights.now rungs.now cut.now
        ++ colours_clauses vertices (length edges.now) (ends_of edges.now) (slice_index colour_of.now) missing.now)) }
{
    let found = rainbow_ladder_failure(
        rt, alloc, vertices, edges, colours, colour_of, weights, rungs, cut, workers,
    )?;
    if let Some(failure) = found {
        return Ok(Some(failure));
    }
    colours_failure(alloc, vertices, edges, colour_of, missing)
}
