//! Heaviest independent sets of a matroid, one of each size, by the greedy algorithm.
#![tactic(auto)]

mod greedy;
mod order;
mod order_keys;

pub use greedy::{heaviest_each, heaviest_of, heaviest_weights};
