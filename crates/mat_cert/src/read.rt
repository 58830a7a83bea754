//! The reader: from the text of a certificate to its answer, line by line, or to the first fault of a text that is none.

mod certificate;
mod headers;
mod ladders;
mod lines;
mod packing;
mod sets;
mod spanning;
mod words;

use crate::answer::Answer;
use crate::refusal::CertRefusal;
use mat_words::LineCursor;

/// What was read, with the lines behind it.
type Read<'a, T> = Result<(T, LineCursor<'a>), CertRefusal>;

/// An answer that was read, with the lines behind it.
type Found<'a> = Read<'a, Answer>;

pub use certificate::read_answer;
pub use lines::{closed, counted_line, last_line};
pub use sets::set_line;
pub use words::fixed_word;
