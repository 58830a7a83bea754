//! The rows of a table by workers that draw the numbers of the rows, each number by one atomic step on one word.
#![tactic(auto)]

mod drawn;
mod drawn_rows;
mod joining;
mod output;
mod placing;
mod steps;
#[cfg(test)]
mod tests;
mod ticket_list;
mod ticket_word;
mod worker;

pub use drawn::Drawn;
pub use drawn_rows::ticket_rows;
pub use ticket_list::TicketList;
