//! What a matroid keeps of an independent set, with the exchanges at it: made for one set, or for the next from those at a set before.
ghost use Rattle.std.specs.Prelude.{◌≡◌, ◌≤◌, true, IfOk};
ghost use Rattle.mat_sets.specs.Limits.{most_elements};
ghost use Rattle.mat_laws.specs.Exchanges.{rows_of};
ghost use Rattle.mat_work.specs.Workers.{AreWorkers};

use crate::exchanges::{filled, filled_in_turn};
use crate::row_table::RowTable;
use crate::unfinished_table::{begun, reopened};
use mat_laws::Matroid;
use mat_sets::ElemSet;
use std::alloc::{AllocError, Global};
use std::thread::Threads;

/// What a matroid keeps of an independent set, and the exchanges of all elements at it.
#[derive(Drop)]
pub struct ExchangesAt<K: Drop> {
    /// What is kept of the set.
    pub kept: K,
    /// The exchanges.
    pub table: RowTable,
}

/// The exchanges of all elements at an independent set, by 1 to 16 workers (Schrijver, chapter 41), with what the matroid keeps of the set, from
/// which the rows are made. The time is that of the rows and of the words of the table. The only error is want of memory.
pub fn exchanges_at<R: Threads + Sync, M: Matroid>(
    rt: &R,
    alloc: Global,
    m: &M,
    set: &ElemSet,
    workers: u32,
) -> Result<ExchangesAt<M::Kept>, AllocError>
    requires sound { M.sound m.now }
    requires independent { M.indep m.now set.now ≡ true }
    requires few { M.ground_size m.now ≤ most_elements }
    requires workers { AreWorkers workers }
    ensures kept { IfOk result (λ at. M.keeps m.now set.now at.kept) }
    ensures table { IfOk result (λ at. at.table ≡ rows_of (M.ground_size m.now) (M.indep m.now) set.now) }
{
    let unfilled = begun(alloc, m, set)?;
    filled(rt, alloc, m, set, unfilled, workers)
}

/// Makes the same as [`exchanges_at`] by one worker, and starts no thread.
pub fn exchanges_in_turn<M: Matroid>(
    alloc: Global,
    m: &M,
    set: &ElemSet,
) -> Result<ExchangesAt<M::Kept>, AllocError>
    requires sound { M.sound m.now }
    requires independent { M.indep m.now set.now ≡ true }
    requires few { M.ground_size m.now ≤ most_elements }
    ensures kept { IfOk result (λ at. M.keeps m.now set.now at.kept) }
    ensures table { IfOk result (λ at. at.table ≡ rows_of (M.ground_size m.now) (M.indep m.now) set.now) }
{
    let unfilled = begun(alloc, m, set)?;
    filled_in_turn(alloc, m, set, unfilled)
}

/// The exchanges of all elements at the next independent set, from those at a set before, by 1 to 16 workers. Rows are made again only of
/// elements that could be added, that come or leave, or whose circuit loses a member. The only error is want of memory.
pub fn next_exchanges<R: Threads + Sync, M: Matroid>(
    rt: &R,
    alloc: Global,
    m: &M,
    set: &ElemSet,
    at: ExchangesAt<M::Kept>,
    next: &ElemSet,
    workers: u32,
) -> Result<ExchangesAt<M::Kept>, AllocError>
    requires sound { M.sound m.now }
    requires independent { M.indep m.now set.now ≡ true }
    requires few { M.ground_size m.now ≤ most_elements }
    requires kept { M.keeps m.now set.now at.kept }
    requires table { at.table ≡ rows_of (M.ground_size m.now) (M.indep m.now) set.now }
    requires next { M.indep m.now next.now ≡ true }
    requires workers { AreWorkers workers }
    ensures kept { IfOk result (λ at. M.keeps m.now next.now at.kept) }
    ensures table { IfOk result (λ at. at.table ≡ rows_of (M.ground_size m.now) (M.indep m.now) next.now) }
{
    let unfilled = reopened(alloc, m, set, at, next)?;
    filled(rt, alloc, m, next, unfilled, workers)
}

/// Makes the same as [`next_exchanges`] by one worker, and starts no thread.
pub fn next_in_turn<M: Matroid>(
    alloc: Global,
    m: &M,
    set: &ElemSet,
    at: ExchangesAt<M::Kept>,
    next: &ElemSet,
) -> Result<ExchangesAt<M::Kept>, AllocError>
    requires sound { M.sound m.now }
    requires independent { M.indep m.now set.now ≡ true }
    requires few { M.ground_size m.now ≤ most_elements }
    requires kept { M.keeps m.now set.now at.kept }
    requires table { at.table ≡ rows_of (M.ground_size m.now) (M.indep m.now) set.now }
    requires next { M.indep m.now next.now ≡ true }
    ensures kept { IfOk result (λ at. M.keeps m.now next.now at.kept) }
    ensures table { IfOk result (λ at. at.table ≡ rows_of (M.ground_size m.now) (M.indep m.now) next.now) }
{
    let unfilled = reopened(alloc, m, set, at, next)?;
    filled_in_turn(alloc, m, next, unfilled)
}

/// The exchanges of all elements at an independent set (Schrijver, chapter 41): what the matroid keeps of the set is made, and the rows from
/// it, by 1 to 16 workers. The only error is want of memory.
pub fn rows<R: Threads + Sync, M: Matroid>(
    rt: &R,
    alloc: Global,
    m: &M,
    set: &ElemSet,
    workers: u32,
) -> Result<RowTable, AllocError>
    requires sound { M.sound m.now }
    requires independent { M.indep m.now set.now ≡ true }
    requires few { M.ground_size m.now ≤ most_elements }
    requires workers { AreWorkers workers }
    ensures { IfOk result (λ t. t ≡ rows_of (M.ground_size m.now) (M.indep m.now) set.now) }
{
    let at = exchanges_at(rt, alloc, m, set, workers)?;
    Ok(at.table)
}
