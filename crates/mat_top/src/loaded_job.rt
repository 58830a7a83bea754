//! Queries about problems.

use mat_problem::Problem;
use mat_solve::Query;

/// A query about a problem.
#[derive(Drop)]
pub struct LoadedJob {
    /// What is asked for.
    pub(crate) query: Query,
    /// What it is asked about.
    pub(crate) problem: Problem,
}
