//! Graphic matroids: the forests of a graph.
#![tactic(auto)]

mod components;
mod graphic;
mod hanging;
pub mod laws;
mod rooted_forest;
mod union_find;

pub use components::{component_sets, least_vertices};
pub use graphic::Graphic;
pub use rooted_forest::RootedForest;
