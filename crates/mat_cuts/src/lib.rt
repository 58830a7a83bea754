//! Cheapest spanning arborescences, with weighted vertex sets that prove them (Edmonds 1967, Fulkerson 1974; Schrijver, chapter 52).
#![tactic(auto)]

mod cheapest_tree;
mod checking;
mod cut_weight;
mod growing;
mod joining;
pub mod laws;
mod lowering;

pub use cheapest_tree::{cheapest, priced};
pub use checking::{right_cuts, total_cost};
pub use cut_weight::{CutWeight, Cuts, Priced};
