//! The ticket word: the number that is drawn next, and what each seat at it holds.
//!
//! A seat needs a share for each number from the count on that it holds, and there are 16 shares in all. So the word is never above the count
//! plus 16, and no draw can overflow it. A seat that has all 16 shares holds all that was drawn.

use atomic_table::{Join, Play, Split, Table, TableRule};
use std::alloc::Global;
use std::collections::LinkedList;

/// What a seat holds: its share, and the numbers that it drew, in the order of its draws. No value of it is made.
pub(crate) struct TicketView {
    pub(crate) share: u64,
    pub(crate) drawn: LinkedList<u64>,
}

/// The rule that holds between any two steps on the ticket word of a count.
pub(crate) struct TicketRule;

impl TableRule<(), TicketView, u64> for TicketRule {
    ghost use Rattle.std.specs.Prelude.{[]};
    ghost use Rattle.mat_ticket.specs.WordStates.{ticket_view, IsTicketWord};

    ghost holds = { IsTicketWord };

    ghost first = { λ _. ticket_view 16 [] };
}

/// A step by which a seat draws the next number.
pub(crate) struct DrawNext;

impl Play<(), TicketView> for DrawNext {
    ghost use Rattle.mat_ticket.specs.WordStates.{IsDraw};

    ghost then = { IsDraw };
}

/// A step by which a seat that holds no number gives one share to a new seat.
pub(crate) struct SplitShare;

impl Split<TicketView> for SplitShare {
    ghost use Rattle.mat_ticket.specs.WordStates.{less_one_share, one_share};

    ghost left = { less_one_share };

    ghost right = { one_share };
}

/// A step by which a seat takes what another one holds.
pub(crate) struct JoinViews;

impl Join<TicketView> for JoinViews {
    ghost use Rattle.mat_ticket.specs.WordStates.{joined_view, spent_view};

    ghost both = { joined_view };

    ghost spent = { spent_view };
}

/// The table with the word.
pub(crate) type TicketTable = Table<(), TicketView, u64, TicketRule, Global>;

/// The word that all workers share. Its key is the count.
pub(crate) type TicketWord = atomic_table::Shared<(), TicketView, u64, TicketRule>;

/// The right of one worker to take steps on the word.
pub(crate) type Seat = atomic_table::Seat<(), TicketView>;
