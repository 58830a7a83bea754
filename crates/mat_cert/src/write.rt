//! The writer: from an answer to its one text.

mod answers;
mod certificate;
mod header;
mod rungs;
mod sets;

pub use certificate::write_answer;
pub use header::put_end_line;
