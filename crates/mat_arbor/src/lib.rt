//! Least spanning arborescences, with their proof by weight splitting.
#![tactic(auto)]

mod arbor;
mod growing;
mod halves;
mod held;
pub mod laws;
mod least;
mod numbers;

pub use arbor::Arbor;
pub use least::least_arborescence;
