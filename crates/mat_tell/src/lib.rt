//! Right answers in words: what was wanted, what was found, and why nothing better exists, in sentences that can be checked by counting.
//!
//! A module tells a form of answer or two. What several forms share stands in the crates below: how sentences are made and filled to lines, and
//! the reasons that can be checked by counting.
#![tactic(auto)]

mod arborescences;
mod assigned;
mod best;
mod covering;
mod graph_answers;
mod intersection;
mod matroid_answers;
mod packing;
mod rainbow;
mod spanning;
mod telling;
mod unions;

pub use telling::{told, told_text};
