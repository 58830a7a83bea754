//! Certificates: the answers that carry their own proof, the one text of each, and the reader of these texts.
//!
//! What goes with an answer in a text of its own is read line by line with the calls that read a certificate, and has the same faults.
#![tactic(auto)]

mod answer;
mod laws;
mod limits;
mod read;
mod refusal;
mod write;

// Answers, and why a text is none.
pub use answer::{Answer, LevelLine, PlainRung, PricedRung};
pub use refusal::{CertKind, CertRefusal};

// Reading an answer, and the lines of a text that goes with one.
pub use read::{closed, counted_line, fixed_word, last_line, read_answer, set_line};

// Writing an answer, and the last line of a text that goes with one.
pub use write::{put_end_line, write_answer};

// What holds of every certificate, and of every text.
pub use laws::{certificate_laws, reading_laws};
