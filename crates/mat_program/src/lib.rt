//! The program as a call: what the words of its command line ask for, over a shelf and two sinks, and what it ends with.
#![tactic(auto)]

mod ends;
mod laws;
mod printing;
mod program;
mod tasks;

pub use ends::{end_on_host, end_over_streams, perform_end};
pub use laws::report_laws;
pub use program::perform;
pub use tasks::Texts;
