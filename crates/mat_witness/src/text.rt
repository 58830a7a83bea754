//! The text of a witness: how it is read, how it is written, and what holds of it.

mod laws;
mod read;
mod read_parts;
mod write;
mod write_parts;

pub use laws::witness_laws;
pub use read::read_witness;
pub use write::write_witness;
