//! Problems with names for their elements and their vertices.

use crate::problem::Problem;
use mat_words::Names;

/// A problem, and the names of its elements and of its vertices.
#[derive(Drop)]
pub struct Named {
    /// The problem.
    pub problem: Problem,
    /// The name of each element.
    pub elements: Names,
    /// The name of each vertex: none where the form of the problem has no vertices.
    pub vertices: Names,
}
