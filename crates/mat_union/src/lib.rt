//! The union of matroids, and the moves of elements between the parts of an independent set of it.
#![tactic(auto)]

mod asked;
mod best;
mod empty;
mod ended;
mod exchange_arcs;
mod exchange_list;
mod filling;
mod growth;
mod kept_columns;
mod kept_parts;
pub mod laws;
mod move_graph;
mod move_search;
mod moved_sets;
mod moves;
mod running;
mod search;
mod union_of;

// Best and filled parts, and the union as a matroid.
pub use best::{Level, UnionAnswer, best_union};
pub use filling::{Filled, fill_parts};
pub use moved_sets::members_of;
pub use union_of::UnionOf;

// The search for moves over rows that are all at hand, and a part after moves.
pub use exchange_arcs::{ExchangeArcs, takes_each_place};
pub use exchange_list::ExchangeList;
pub use moved_sets::moved_part;
pub use moves::{Move, Moves};
pub use search::union_search;

// Steps of runs and rows, for a crate whose matroids are a tree of kinds.
pub use empty::first_parts;
pub use ended::{PlaceSearch, found_place, row_by_search};
pub use growth::{Growth, mark_spanned, put_kept};
pub use kept_parts::KeptParts;
pub use move_graph::stands;
pub use move_search::{MoveSearch, Question};
pub use moved_sets::{is_entered_or_left, move_into};
