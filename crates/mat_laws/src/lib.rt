//! The trait of matroids with its laws, and what follows from them.
//!
//! A new kind of matroid needs three calls of `Matroid`: `size`, `independent`, and `keep`, which with `Kept` of `()` keeps nothing. Beside them
//! stand its ghost members: how many elements there are, when a value is sound, its test of independence, when what is kept is right, and the
//! proof that each sound value obeys `IsMatroid`. Every other method has a body that asks these; `run`, `row`, `adds`,
//! `circuit_members`, `columns` and `keep_next` may have faster ones. docs/CALLING.md goes through such a kind.
#![tactic(auto)]

mod bases;
mod exchange;
pub mod laws;
mod loops;
mod matroid;

pub use bases::{grow_base, rank_of};
pub use exchange::Exchange;
pub use loops::is_loop;
pub use matroid::Matroid;
