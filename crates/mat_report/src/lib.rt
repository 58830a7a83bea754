//! Reports on a right answer: where a certificate is right for a description, a text on its answer is written in the place of a bare yes.
//!
//! A call reads its files and judges as the command `check FILE CERT` does, with one worker, and ends with its status and its note.
#![tactic(auto)]

mod answer_text;
mod as_picture;
mod in_words;
mod reporting;

pub use answer_text::AnswerText;
pub use as_picture::AsPicture;
pub use in_words::InWords;
pub use reporting::report;
