//! The lines of a text, the words of a line, and words as numbers and weights: what every text format of matbench is made of.
//!
//! A line ends with byte 10. A well spaced line has words of printable bytes with one space between them. A number has one spelling:
//! `0`, or digits of which the first isn't `0`, or such digits behind a `-`. So has a weight: a number, or two numbers with a `:` between
//! them, of which the second isn't 0.
//!
//! A text is read from what is left of it, line by line and word by word: each reader gives what it read with what is left behind it, or
//! ends at a [`ReadingFault`] in a line. A format tells these faults by kinds of its own.
//!
//! The words that name elements or vertices are kept as [`Names`], each once.
#![tactic(auto)]

mod binary;
mod cursor;
mod lines;
mod names;
mod numbers;
mod reading;
mod refusal;
mod short_numbers;
mod text_word;
mod weights;
mod words;
mod writing;

pub use binary::put_binary;
pub use cursor::{LineCursor, WordCursor};
pub use lines::{line_laws, next_line};
pub use names::{LONGEST_NAME, Names};
pub use numbers::{NumberFault, number_laws, put_number, read_number, spell_into};
pub use reading::{
    keyed_line, next_below, next_binary, next_number, next_size, next_weight, next_weights,
    next_word, nothing_left, words_line,
};
pub use refusal::{FaultKind, ReadingFault, Refusal, fault};
pub use text_word::{TextWord, put_text_word, put_words};
pub use weights::{put_weight, read_weight, weight_laws};
pub use words::{split_word, well_spaced, word_at, word_laws};
pub use writing::{
    put_members_line, put_number_word, put_numbers_line, put_weight_word, put_weights_line,
};
