//! The writer: from a problem to its canonical text.

mod lines;
mod matroids;
mod problem;

pub use problem::{write_named, write_problem};
