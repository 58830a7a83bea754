//! The rows of a job, whose numbers the workers draw.
ghost use Rattle.std.specs.Prelude.{◌≡◌, ◌≤◌, IfOk, length};
ghost use Rattle.mat_work.specs.{Rows.{StandFrom}, Workers.{AreWorkers}};
ghost use Rattle.mat_ticket.specs.Tickets.{most_tickets, AreTickets};

use crate::drawn::Drawn;
use crate::joining::join_seats;
use crate::placing::arrange;
use crate::steps::{close, make_word};
use crate::worker::{form_team, work_all};
use mat_work::RowJob;
use std::alloc::{AllocError, Global};
use std::thread::Threads;

/// The rows of the numbers below `count`, in the order of their numbers, and the tickets of each worker (Herlihy and Shavit, The Art of
/// Multiprocessor Programming, section 1.1: work that is drawn from a shared counter). A worker draws the next number by one atomic
/// addition to one word, computes the row of this number, and draws again, until the number is not below the count. So no number is
/// computed twice or left out, and a worker is idle only when no number is left. There are 1 to 16 workers, of which each is a thread
/// where one can be made, and at most 20,000 rows. Nothing is locked, and no worker waits for another.
///
/// The only error is want of memory. A worker that finds none for a row ends, and the others go on; then no row is handed out. Each
/// list of tickets has its room before the first draw.
pub fn ticket_rows<R: Threads + Sync, J: RowJob>(
    rt: &R,
    alloc: Global,
    job: &J,
    count: u32,
    workers: u32,
) -> Result<Drawn<J::Row>, AllocError>
    requires workers { AreWorkers workers }
    requires few { count ≤ most_tickets }
    requires below { count ≤ J.jobs job.now }
    ensures count { IfOk result (λ d. length d.rows.items ≡ count) }
    ensures rows { IfOk result (λ d. StandFrom (J.stands job.now) 0 d.rows.items) }
    ensures tickets { IfOk result (λ d. AreTickets count workers d.tickets.items) }
{
    let (table, seat) = make_word(alloc, count)?;
    let word = &table.shared;
    let team = form_team(alloc, word, seat, count, workers)?;
    let room = Vec::with_capacity(alloc, workers as usize)?;
    let done = work_all(rt, word, job, count, team)?;
    let (outputs, whole) = join_seats(word, done, room)?;
    close(table, whole);
    arrange(alloc, count, outputs)
}
