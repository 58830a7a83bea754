//! Heaviest common independent sets of two matroids, with their proof by weight splitting.
#![tactic(auto)]

mod augment;
mod augmented;
mod change;
mod intersect;
mod ladder;
pub mod laws;

pub use intersect::{intersect_all, intersect_in_turn};
pub use ladder::{Ladder, Rung};
