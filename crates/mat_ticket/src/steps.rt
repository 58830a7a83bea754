//! The four kinds of step on the ticket word: the word with its first seat is made, a share is split off, a number is drawn, and a seat is
//! joined to another. In the end the word is closed with the seat that has all shares.
ghost use Rattle.std.specs.{Prelude.{◌≡◌, ◌+◌, ◌-◌, ◌^◌, ◌<◌, ◌≤◌, ◌++◌, [], ◌∷◌, ℕ, IfOk}, List.{sum_by}};
ghost use Rattle.mat_sets.specs.Sets.{AllBelow};
ghost use Rattle.mat_ticket.specs.{Sums.{beyond, sum_below}, WordStates.{ticket_view}};

use crate::ticket_word::{DrawNext, JoinViews, Seat, SplitShare, TicketTable, TicketWord};
use atomic_table::Table;
use std::alloc::{AllocError, Global};

/// The word at 0, with its first seat, which has all shares. The only error is want of memory.
pub(crate) fn make_word(alloc: Global, count: u32) -> Result<(TicketTable, Seat), AllocError>
    ensures table { IfOk result (λ t. (t.0.shared.table_id.words ≡ 1) × (t.0.shared.key ≡ count)) }
    ensures slots { IfOk result (λ t. t.0.shared.table_id.slots ≡ 0) }
    ensures seat { IfOk result (λ t. (t.1.table_id ≡ t.0.shared.table_id) × (t.1.me ≡ (ticket_view 16 [], []))) }
{
    Table::of_words(alloc, &[0], &u64::from(count))
}

/// Draws the next number, by one atomic step. It is above all that the seat drew before.
pub(crate) fn draw(word: &TicketWord, seat: &mut Seat) -> u64
    requires word { (word.now.table_id.words ≡ 1) × (word.now.key < 2 ^ 32) }
    requires seat { seat.old.table_id ≡ word.now.table_id }
    requires share { sum_by (beyond word.now.key) seat.old.me.0.drawn < seat.old.me.0.share }
    ensures seat { seat.new.table_id ≡ seat.old.table_id }
    ensures drawn { seat.new.me ≡ (ticket_view seat.old.me.0.share (seat.old.me.0.drawn ++ result ∷ []), seat.old.me.1) }
    ensures above { AllBelow result seat.old.me.0.drawn }
{
    word.fetch_add::<DrawNext>(seat, 0, 1)
}

/// Gives one share to a new seat. The seat holds no number and keeps a share at least.
pub(crate) fn split_share(word: &TicketWord, seat: &mut Seat) -> Seat
    requires word { word.now.table_id.words ≡ 1 }
    requires seat { seat.old.table_id ≡ word.now.table_id }
    requires share { (seat.old.me.0.drawn ≡ []) × (2 ≤ seat.old.me.0.share) }
    ensures seat { (seat.new.table_id ≡ seat.old.table_id)
        × (seat.new.me ≡ (ticket_view (seat.old.me.0.share - 1) seat.old.me.0.drawn, seat.old.me.1)) }
    ensures one { (result.table_id ≡ seat.old.table_id) × (result.me ≡ (ticket_view 1 [], [])) }
{
    word.split_seat::<SplitShare>(seat)
}

/// Takes the share and the numbers of another seat.
pub(crate) fn join_other(word: &TicketWord, seat: &mut Seat, other: Seat)
    requires word { word.now.table_id.words ≡ 1 }
    requires seat { seat.old.table_id ≡ word.now.table_id }
    requires other { (other.table_id ≡ word.now.table_id) × (other.me.1 ≡ []) }
    ensures { (seat.new.table_id ≡ seat.old.table_id) × (seat.new.me
        ≡ (ticket_view (seat.old.me.0.share + other.me.0.share) (seat.old.me.0.drawn ++ other.me.0.drawn), seat.old.me.1)) }
{
    word.join_seat::<JoinViews>(seat, other);
}

/// Ends the word with the seat that has all shares: it holds the numbers below some number, each once.
pub(crate) fn close(table: TicketTable, seat: Seat)
    requires slots { table.shared.table_id.slots ≡ 0 }
    requires seat { seat.table_id ≡ table.shared.table_id }
    requires share { seat.me.0.share ≡ 16 }
    ensures { (next : ℕ) × ((h : ℕ → ℕ) → sum_by h seat.me.0.drawn ≡ sum_below h next) }
{
    table.close_with(seat).free();
}
