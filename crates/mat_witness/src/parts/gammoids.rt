//! The parts of a witness in gammoids.

mod arcs;
mod closing;
mod paths;

pub(crate) use closing::{closing_bound, closing_sets};
pub(crate) use paths::{paths_to, shows_paths};
