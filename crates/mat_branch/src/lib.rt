//! Disjoint spanning arborescences, or a vertex set that is entered too seldom (Edmonds 1973; Schrijver, chapter 53).
#![tactic(auto)]

mod branching;
mod entering;
mod growing;
pub mod laws;
mod spanning;
mod spare;

pub use branching::{Branch, disjoint};
pub use entering::entering_count;
pub use spanning::spans;
