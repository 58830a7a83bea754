//! Matroids made of one matroid: its dual, its truncations, restrictions and contractions.
#![tactic(auto)]

mod contraction;
mod dual;
pub mod laws;
mod restriction;
mod run_orders;
mod truncation;

// The matroids, and what they keep of an independent set.
pub use contraction::{Contraction, ContractionKept};
pub use dual::{Dual, DualKept};
pub use restriction::Restriction;
pub use truncation::Truncation;

// Steps of runs and rows, for a crate whose matroids are a tree of kinds.
pub use dual::{dual_adds, dual_row, same_base};
pub use run_orders::{first_taken, items_in, members_first, others_first};
