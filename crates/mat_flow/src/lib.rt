//! Disjoint paths of a directed graph, by their vertices or by their arcs, and the separators and cuts that bound their number (Schrijver,
//! chapter 9).
//!
//! `linked` and `arc_paths` give most paths, or so many, with what bounds their number. A `Linker` has paths to ends that come one after the
//! other; `Reroutes` keeps them, and tells by one search which ends can give way to another vertex; from a `LinkTable` paths are taken out.
//! A `SearchRoom` looks for walks in any `SearchGraph`, and never comes again to what it has reached in vain.
#![tactic(auto)]

mod arc_flow;
mod arc_residual;
mod digraph;
pub mod laws;
mod leading;
mod link_table;
mod linker;
mod linking;
mod reroutes;
mod residual;
mod search_graph;
mod seeking;
mod separator;
mod trails;
mod turned_residual;
mod walk;

pub use arc_flow::{ArcAnswer, arc_paths};
pub use digraph::Digraph;
pub use leading::leading_vertices;
pub use link_table::{LinkTable, shift_along};
pub use linker::Linker;
pub use linking::{Linking, linked};
pub use reroutes::Reroutes;
pub use search_graph::SearchGraph;
pub use seeking::SearchRoom;
pub use walk::{ArcPath, Walk};
