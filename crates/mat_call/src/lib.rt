//! The top call over files in memory: words or a line in, a status, an output and a note out.
#![tactic(auto)]

mod bounded_sink;
mod calls;
mod given_shelf;
mod words;

pub use calls::{Called, call, call_line};
pub use words::line_words;
