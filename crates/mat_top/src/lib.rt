//! The top call: words, files and streams in, a status out.
#![tactic(auto)]

mod about;
mod batch;
mod convert;
mod cut_lines;
mod cuts_text;
mod job_texts;
mod laws;
mod loaded_job;
mod loading;
mod one_worker;
mod top_call;
mod workers;

pub use laws::solution_laws;
pub use mat_command::command_line_laws;
pub use mat_judge::Status;
pub use mat_summary::summaries_agree;
pub use one_worker::OneWorker;
pub use top_call::run;
pub use workers::TopWorkers;
