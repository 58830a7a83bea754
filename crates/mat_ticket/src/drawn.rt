//! What is answered where no worker ran out of memory.

use crate::ticket_list::TicketList;

/// The rows of a job, and who drew which of their numbers.
#[derive(Debug, Drop)]
pub struct Drawn<R> {
    /// The rows, in the order of their numbers.
    pub rows: Vec<R>,
    /// The tickets of each worker. Which of them a worker drew depends on the run.
    pub tickets: Vec<TicketList>,
}
