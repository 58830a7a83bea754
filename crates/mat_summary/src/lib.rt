//! The summary of a sample: the problem that is made from a number is solved, its answer is checked, and one line says what it comes to.
#![tactic(auto)]

mod laws;
mod sampling;
mod summary;
mod totals;

pub use laws::summaries_agree;
pub use sampling::sample_text;
