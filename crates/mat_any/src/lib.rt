//! Matroids of any kind, as one type.
#![tactic(auto)]

mod any;
mod any_kept;
mod columns_at;
mod flat;
mod flat_kept;
mod independence;
mod part;
mod rows;
mod runs;
mod sizes;
mod unions;

pub use any::AnyMatroid;
pub use any_kept::AnyKept;
pub use flat_kept::FlatKept;
pub use unions::has_union;
