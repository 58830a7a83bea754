//! All seats are joined, and the one that is left has all shares and what was drawn. The word's key is the count.
ghost use Rattle.std.specs.{Prelude.{◌≡◌, ◌<◌, IfOk, [], length, map}, List.{AllByRecursion, sum_by}};
ghost use Rattle.mat_ticket.specs.{Workers.{output_of, share_of}, Joined.{AreJoined, HasFinished, IsSeated}};

use crate::output::Output;
use crate::steps::join_other;
use crate::ticket_word::{Seat, TicketWord};
use crate::worker::Worker;
use std::alloc::AllocError;

/// What the workers computed, put into a list that has room for it, and the seat to which all others were joined. It is want of memory where
/// a worker ended for want of it.
pub(crate) fn join_seats<X: Drop>(
    word: &TicketWord,
    mut team: Vec<Worker<X>>,
    mut outputs: Vec<Output<X>>,
) -> Result<(Vec<Output<X>>, Seat), AllocError>
    requires word { word.now.table_id.words ≡ 1 }
    requires some { 0 < length team.items }
    requires shares { sum_by share_of team.items ≡ 16 }
    requires seated { AllByRecursion (IsSeated word.now.table_id word.now.key) team.items }
    requires empty { outputs.items ≡ [] }
    ensures outputs { IfOk result (λ joined. joined.0.items ≡ map output_of team.items) }
    ensures finished { IfOk result (λ joined. AllByRecursion HasFinished team.items) }
    ensures seat { IfOk result (λ joined. joined.1.table_id ≡ word.now.table_id) }
    ensures share { IfOk result (λ joined. joined.1.me.0.share ≡ 16) }
    ensures drawn { IfOk result (λ joined. AreJoined word.now.key joined.1.me.0.drawn joined.0.items) }
{
    let Worker {
        seat: mut whole,
        tickets,
        rows,
        finished,
    } = team.remove(0);
    let mut all = finished;
    outputs.push(Output { tickets, rows })?;
    while !team.is_empty() {
        let Worker {
            seat,
            tickets,
            rows,
            finished,
        } = team.remove(0);
        join_other(word, &mut whole, seat);
        outputs.push(Output { tickets, rows })?;
        all = all && finished;
    }
    if !all {
        return Err(AllocError);
    }
    Ok((outputs, whole))
}
