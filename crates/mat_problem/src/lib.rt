//! Problems: weighted matroids, graphs and tables, which of them are in range, and that the matroids of such are sound.
#![tactic(auto)]

mod laws;
mod named;
mod problem;

// Problems, and those with names for their elements and their vertices.
pub use named::Named;
pub use problem::Problem;

// What holds of every problem in range.
pub use laws::soundness_laws;
