//! The rows of a table, computed by several workers from data that no worker changes.
#![tactic(auto)]

mod forks;
mod row_job;
#[cfg(test)]
mod tests;
mod workers;

pub use forks::{all_rows, rows_in_turn};
pub use row_job::RowJob;
pub use workers::Workers;
