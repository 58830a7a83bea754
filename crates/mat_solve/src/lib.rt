//! Answering queries about problems: each query is answered by its solver, and what is found becomes an answer as certificates have it. No
//! file is opened here.
#![tactic(auto)]

mod costly_rows;
mod forms;
mod ladders;
mod query;
mod sets;
mod solver;
mod trees;
mod workers;

pub use forms::has_form;
pub use query::Query;
pub use solver::solve;
pub use workers::SolveWorkers;
