//! The tickets that one worker drew.
ghost use Rattle.std.specs.Prelude.{◌≡◌, ◌<◌, length, slice_index};

use std::marker::Model;

/// Tickets, in the order in which they were drawn.
#[derive(Debug, Drop)]
pub struct TicketList {
    items: Vec<u32>,
}

impl Model for TicketList {
    ghost use Rattle.std.specs.Prelude.{ℕ, List};

    ghost Value = { List ℕ };

    ghost view = { λ a. a.items.items };
}

impl TicketList {
    /// The list of these tickets. It takes no memory.
    pub fn new(items: Vec<u32>) -> TicketList
        ensures { result ≡ items.items }
    {
        TicketList { items }
    }

    /// How many tickets there are.
    pub fn len(&self) -> usize
        ensures { result ≡ length self.now }
    {
        self.items.len()
    }

    /// The ticket at place i.
    pub fn get(&self, i: usize) -> u32
        requires { i < length self.now }
        ensures { result ≡ slice_index self.now i }
    {
        self.items[i]
    }

    /// The tickets in order.
    pub fn as_slice(&self) -> &[u32]
        ensures { result.now ≡ self.now }
    {
        self.items.as_slice()
    }
}
