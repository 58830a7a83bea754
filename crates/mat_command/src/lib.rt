//! The words of a command line, and lists of jobs: what they ask for. No file is opened here.
#![tactic(auto)]

mod command;
mod command_words;
mod job;
mod job_list;
mod laws;
mod refusal;

pub use command::{Command, CommandLine, Request};
pub use command_words::command_line;
pub use job::Job;
pub use job_list::read_jobs;
pub use laws::command_line_laws;
pub use refusal::ListRefusal;
