//! Packings of bases, coverings by independent sets, and disjoint spanning trees.
#![tactic(auto)]

mod covering;
mod filling;
pub mod laws;
mod packing;
mod trees;

pub use covering::{Covering, cover};
pub use packing::{Packing, pack_bases};
pub use trees::{Trees, pack_trees};
