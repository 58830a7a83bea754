//! Judging answers: whether an answer is right for a problem, and which of its clauses is the first to fail.
#![tactic(auto)]

mod checker;
mod fitting;
mod graph_answers;
mod graphs;
mod headers;
mod ladder;
mod laws;
mod matroid_answers;
mod reason;
mod sets;
mod verdict;
mod workers;

pub use checker::check;
pub use fitting::{fits, is_single_list};
pub use laws::{right_has_no_failure, right_is_optimal};
pub use reason::Reason;
pub use verdict::Verdict;
pub use workers::CheckWorkers;
