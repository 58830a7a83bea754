//! Heaviest assignments.
ghost use Rattle.std.specs.Prelude.{◌≡◌, ◌≤◌, length, IfOk};
ghost use Rattle.mat_sets.specs.{Limits.{most_elements, largest_weight}, Weights.{AreWeightsWithin}};
ghost use Rattle.mat_work.specs.Workers.{AreWorkers};
ghost use Rattle.mat_fronts.specs.Assignments.{AreCells, IsAssignmentLadder};

use mat_count::Partition;
use mat_sets::{Pairs, Weight};
use mat_split::{Ladder, intersect_in_turn};
use std::alloc::{AllocError, Global};

/// A heaviest assignment of each size, each with a split of the weights that proves it: cells of which no two share a row or a column
/// (Schrijver, chapter 17), as common independent sets of the partition matroids of the rows and of the columns. Cell e is the e-th
/// pair of a row and a column, and has the e-th weight. There are at most 500 cells; both numbers of each weight are at least -10^12
/// and at most 10^12; there are 1 to 16 workers, for which no thread is started, since a row takes less time than a thread takes to start. The
/// time is that of the intersection of the two matroids. The only error is want of memory.
pub fn assign(
    alloc: Global,
    rows: u32,
    columns: u32,
    cells: &Pairs,
    weights: &[Weight],
    workers: u32,
) -> Result<Ladder, AllocError>
    requires cells { AreCells rows columns cells.now }
    requires few { length cells.now ≤ most_elements }
    requires lengths { length weights.now ≡ length cells.now }
    requires small { AreWeightsWithin largest_weight weights.now }
    requires workers { AreWorkers workers }
    ensures { IfOk result (λ l. IsAssignmentLadder rows columns cells.now weights.now l.rungs.items l.cut) }
{
    let row_of = cells.firsts(alloc)?;
    let column_of = cells.seconds(alloc)?;
    let by_row = Partition::one_for_each_label(alloc, &row_of, rows)?;
    let by_column = Partition::one_for_each_label(alloc, &column_of, columns)?;
    intersect_in_turn(alloc, &by_row, &by_column, weights)
}
