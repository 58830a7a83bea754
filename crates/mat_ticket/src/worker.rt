//! Workers that draw tickets and compute their rows.
ghost use Rattle.std.specs.{Prelude.{◌≡◌, ◌<◌, ◌≤◌, [], ℕ, IfOk, OnOk, length, slice_index_or}, List.{AllByRecursion, sum_by}};
ghost use Rattle.mat_work.specs.Workers.{AreWorkers};
ghost use Rattle.mat_ticket.specs.{WordStates.{ticket_view}, Outputs.{IsOutput, IsLast}, Workers.{share_of, IsDone, IsFresh}};

use crate::steps::{draw, split_share};
use crate::ticket_word::{Seat, TicketWord};
use mat_work::RowJob;
use std::alloc::{AllocError, Global};
use std::thread::{Threads, map_vec};

/// One who draws at a seat, with the tickets below the count that were drawn, and their rows.
#[derive(Drop)]
pub(crate) struct Worker<X> {
    pub(crate) seat: Seat,
    pub(crate) tickets: Vec<u32>,
    pub(crate) rows: Vec<X>,
    /// It went on until a number was not below the count.
    pub(crate) finished: bool,
}

/// Draws numbers and computes the row of each, until a number is not below the count. The only error is want of memory.
fn draw_rows<J: RowJob>(
    word: &TicketWord,
    job: &J,
    count: u32,
    seat: &mut Seat,
    tickets: &mut Vec<u32>,
    rows: &mut Vec<J::Row>,
) -> Result<(), AllocError>
    requires word { (word.now.table_id.words ≡ 1) × (word.now.key ≡ count) }
    requires below { count ≤ J.jobs job.now }
    requires seat { seat.old.table_id ≡ word.now.table_id }
    requires fresh { (seat.old.me.0.drawn ≡ []) × (0 < seat.old.me.0.share)
        × (tickets.old.items ≡ []) × (rows.old.items ≡ []) }
    ensures seat { (seat.new.table_id ≡ seat.old.table_id) × (seat.new.me.1 ≡ seat.old.me.1)
        × (seat.new.me.0.share ≡ seat.old.me.0.share) }
    ensures output { OnOk result (IsOutput (J.stands job.now) count tickets.new.items rows.new.items) }
    ensures last { OnOk result (IsLast count tickets.new.items seat.new.me.0.drawn) }
{
    let mut ticket = draw(word, seat);
    while ticket < u64::from(count) {
        rows.push(job.row(ticket as u32)?)?;
        tickets.push(ticket as u32)?;
        ticket = draw(word, seat);
    }
    Ok(())
}

/// A worker draws until a number is not below the count, or memory runs out. It hands its seat back in either case.
fn work<J: RowJob>(word: &TicketWord, job: &J, count: u32, worker: Worker<J::Row>) -> Worker<J::Row>
    requires word { (word.now.table_id.words ≡ 1) × (word.now.key ≡ count) }
    requires below { count ≤ J.jobs job.now }
    requires fresh { IsFresh word.now.table_id worker }
    ensures done { IsDone word.now.table_id (J.stands job.now) count result }
    ensures share { share_of result ≡ share_of worker }
{
    let Worker {
        mut seat,
        mut tickets,
        mut rows,
        finished: _,
    } = worker;
    let finished = draw_rows(word, job, count, &mut seat, &mut tickets, &mut rows).is_ok();
    Worker {
        seat,
        tickets,
        rows,
        finished,
    }
}

/// A worker that drew nothing yet, with room for all tickets. The only error is want of memory.
fn fresh_worker<X>(alloc: Global, seat: Seat, count: u32) -> Result<Worker<X>, AllocError>
    requires { (seat.me.1 ≡ []) × (seat.me.0.drawn ≡ []) × (0 < seat.me.0.share) }
    ensures fresh { IfOk result (λ w. IsFresh seat.table_id w) }
    ensures share { IfOk result (λ w. share_of w ≡ seat.me.0.share) }
{
    Ok(Worker {
        seat,
        tickets: Vec::with_capacity(alloc, count as usize)?,
        rows: Vec::new(alloc),
        finished: false,
    })
}

/// As many workers as asked for, each with a seat. Together they have all shares. The only error is want of memory.
#[tactic(auto, using(crate::proofs::Teams::more_workers))]
pub(crate) fn form_team<X: Drop>(
    alloc: Global,
    word: &TicketWord,
    mut seat: Seat,
    count: u32,
    workers: u32,
) -> Result<Vec<Worker<X>>, AllocError>
    requires word { word.now.table_id.words ≡ 1 }
    requires seat { (seat.table_id ≡ word.now.table_id) × (seat.me ≡ (ticket_view 16 [], [])) }
    requires workers { AreWorkers workers }
    ensures count { IfOk result (λ team. length team.items ≡ workers) }
    ensures fresh { IfOk result (λ team. AllByRecursion (IsFresh word.now.table_id) team.items) }
    ensures shares { IfOk result (λ team. sum_by share_of team.items ≡ 16) }
{
    let mut team = Vec::with_capacity(alloc, workers as usize)?;
    for _ in 1..workers {
        let one = split_share(word, &mut seat);
        team.push(fresh_worker(alloc, one, count)?)?;
    }
    team.push(fresh_worker(alloc, seat, count)?)?;
    Ok(team)
}

/// All workers draw at once, each in a thread of its own where one can be made. The only error is want of memory.
pub(crate) fn work_all<R: Threads + Sync, J: RowJob>(
    rt: &R,
    word: &TicketWord,
    job: &J,
    count: u32,
    team: Vec<Worker<J::Row>>,
) -> Result<Vec<Worker<J::Row>>, AllocError>
    requires word { (word.now.table_id.words ≡ 1) × (word.now.key ≡ count) }
    requires below { count ≤ J.jobs job.now }
    requires fresh { AllByRecursion (IsFresh word.now.table_id) team.items }
    ensures count { IfOk result (λ done. length done.items ≡ length team.items) }
    ensures done { IfOk result (λ done. AllByRecursion (IsDone word.now.table_id (J.stands job.now) count) done.items) }
    ensures shares { IfOk result (λ done. (i : ℕ) (d : _) → i < length team.items
        → share_of (slice_index_or done.items i d) ≡ share_of (slice_index_or team.items i d)) }
{
    let each = move |worker: Worker<J::Row>| -> Worker<J::Row>
        requires { (word.now.table_id.words ≡ 1) × (word.now.key ≡ count) × (count ≤ J.jobs job.now)
            × IsFresh word.now.table_id worker }
        ensures { IsDone word.entry.now.table_id (J.stands job.entry.now) count result × (share_of result ≡ share_of worker) }
    { work(word, job, count, worker) };
    map_vec(rt, team, &each)
}
