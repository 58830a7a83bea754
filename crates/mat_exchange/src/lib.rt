//! The exchanges of a matroid at an independent set, the search for a tight path of two matroids, and their laws.
#![tactic(auto)]

mod at_set;
mod exchanges;
mod found;
mod fringe;
mod grown;
mod growth;
mod heaviest_addable;
mod heaviest_members;
pub mod laws;
mod partial_table;
mod path_search;
mod row_table;
mod slack;
mod steps;
mod tight_arcs;
mod tops;
mod unfinished_table;

pub use at_set::{
    ExchangesAt, exchanges_at, exchanges_in_turn, next_exchanges, next_in_turn, rows,
};
pub use found::Found;
pub use grown::Grown;
pub use growth::grow;
pub use path_search::tight_search;
pub use row_table::RowTable;
