//! All rows of a job, one after the other, and by fork and join.
ghost use Rattle.std.specs.Prelude.{◌≡◌, ◌+◌, ◌^◌, ◌<◌, ◌≤◌, IfOk, length};
ghost use denote.Param.Send.{IsSync, IsSend};
ghost use Rattle.mat_work.specs.{Rows.{StandFrom}, Workers.{AreWorkers}};

use crate::row_job::RowJob;
use std::alloc::{AllocError, Global};
use std::thread::{Threads, join};

/// The rows of `count` numbers from `from` on, one after the other. The only error is want of memory: that of the first row that
/// answers it, or of the list.
#[tactic(auto, using(crate::proofs::StandingRows::StandFrom_push))]
pub fn rows_in_turn<J: RowJob>(
    alloc: Global,
    job: &J,
    from: u32,
    count: u32,
) -> Result<Vec<J::Row>, AllocError>
    requires below { from + count ≤ J.jobs job.now }
    requires room { from + count < 2 ^ 32 }
    ensures count { IfOk result (λ rows. length rows.items ≡ count) }
    ensures rows { IfOk result (λ rows. StandFrom (J.stands job.now) from rows.items) }
{
    let mut rows = Vec::with_capacity(alloc, count as usize)?;
    for i in from..from + count {
        rows.push(job.row(i)?)?;
    }
    Ok(rows)
}

/// The rows of `count` numbers from `from` on, by at most as many workers as are told: the range is halved, and the workers with
/// it, and both halves are computed at once, until a piece has one worker or one row. The only error is want of memory: that
/// of the lower half, or else that of the upper half, or that of the list.
#[cycle(halving)]
fn rows_by_halves<R: Threads + Sync, J: RowJob>(
    rt: &R,
    alloc: Global,
    job: &J,
    from: u32,
    count: u32,
    workers: u32,
) -> Result<Vec<J::Row>, AllocError>
    requires below { from + count ≤ J.jobs job.now }
    requires room { from + count < 2 ^ 32 }
    ensures count { IfOk result (λ rows. length rows.items ≡ count) }
    ensures rows { IfOk result (λ rows. StandFrom (J.stands job.now) from rows.items) }
{
    if workers < 2 || count < 2 {
        return rows_in_turn(alloc, job, from, count);
    }
    let (low, low_workers) = (count / 2, workers / 2);
    let (high, high_workers) = (count - low, workers - low_workers);
    let middle = from + low;
    let lower = move || -> Result<Vec<J::Row>, AllocError>
        requires { IsSync R.row × IsSync J.row × IsSend J.Row.row × (from + low ≤ J.jobs job.now) × (from + low < 2 ^ 32) }
        ensures { IfOk result (λ rows. (length rows.items ≡ low) × StandFrom (J.stands job.entry.now) from rows.items) }
    { rows_by_halves(rt, alloc, job, from, low, low_workers) };
    let upper = move || -> Result<Vec<J::Row>, AllocError>
        requires { IsSync R.row × IsSync J.row × IsSend J.Row.row × (middle + high ≤ J.jobs job.now) × (middle + high < 2 ^ 32) }
        ensures { IfOk result (λ rows. (length rows.items ≡ high) × StandFrom (J.stands job.entry.now) middle rows.items) }
    { rows_by_halves(rt, alloc, job, middle, high, high_workers) };
    let (lower_rows, upper_rows) = join(rt, lower, upper);
    let mut rows = lower_rows?;
    let mut rest = upper_rows?;
    rows.append(&mut rest)?;
    Ok(rows)
}

/// The rows of the numbers below `count`, in the order of their numbers, by fork and join (Cormen, Leiserson, Rivest and Stein,
/// third edition, section 27.1: a parallel loop). The range is halved, and the workers with it, until there are `workers`
/// pieces or each is one row; the rows of a piece are computed one after the other. A worker is a thread, the caller among them,
/// and there are 1 to 16. Nothing is locked, and none waits for another but to join the half that it forked. Where no thread can
/// be made, who forks computes both halves. Each row is computed once and moved at most once for each halving.
///
/// The only error is want of memory. It comes where a row answers it or the list of rows finds no room; the first in the order
/// of the numbers is told, which looks like every other, since want of memory has one value. After it no row is handed out.
pub fn all_rows<R: Threads + Sync, J: RowJob>(
    rt: &R,
    alloc: Global,
    job: &J,
    count: u32,
    workers: u32,
) -> Result<Vec<J::Row>, AllocError>
    requires below { count ≤ J.jobs job.now }
    requires workers { AreWorkers workers }
    ensures count { IfOk result (λ rows. length rows.items ≡ count) }
    ensures rows { IfOk result (λ rows. StandFrom (J.stands job.now) 0 rows.items) }
{
    rows_by_halves(rt, alloc, job, 0, count, workers)
}
