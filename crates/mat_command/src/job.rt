//! A job of a list.

ghost use Rattle.mat_solve.specs.Queries.{IsQueryInRange, IsQueryInRange-prop};

use mat_solve::Query;

/// A query about the problem that a file describes.
#[derive(Drop)]
pub struct Job {
    /// What is asked for.
    pub query: Query,
    /// The name of the description's file.
    pub file: String,
    ghost in_range: { IsQueryInRange query } by { IsQueryInRange-prop query },
}
