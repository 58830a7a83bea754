//! Rainbow spanning trees and assignments, as common independent sets of two matroids.
#![tactic(auto)]

mod assignment;
mod colours;
pub mod laws;
mod rainbow_ladder;
mod rainbow_search;

pub use assignment::assign;
pub use colours::edges_without;
pub use rainbow_ladder::RainbowLadder;
pub use rainbow_search::rainbow;
