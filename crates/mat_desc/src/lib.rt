//! Descriptions of problems: the text format, its reader, which names the first fault of a text that spells no problem, and its writer.
#![tactic(auto)]

mod laws;
mod limits;
mod named;
mod read;
mod refusal;
mod write;

// Problems, and why a text is none.
pub use mat_problem::{Named, Problem};
pub use refusal::{DescKind, DescRefusal};

// Reading a problem.
pub use named::read_named;
pub use read::read_problem;

// Writing a problem.
pub use write::{write_named, write_problem};

// What holds of every text, and of every text that is written.
pub use laws::{reading_laws, writing_laws};
