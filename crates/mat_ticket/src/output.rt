//! What one worker computed.

/// Rows with the tickets that were drawn for them: as many rows as tickets, each at the place of its ticket.
#[derive(Drop)]
pub(crate) struct Output<X> {
    pub(crate) tickets: Vec<u32>,
    pub(crate) rows: Vec<X>,
}
