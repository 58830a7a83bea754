//! A description and a certificate, read from a shelf and judged; and how a call ends: its status, and the note that tells why it is refused.
#![tactic(auto)]

mod certified;
mod described;
mod notes;
mod reading;
mod refusal;
mod status;
mod writing;

pub use certified::{NotRight, Uncertified, answer_in, judge, right_answer_in};
pub use described::{Undescribed, named_in, problem_in};
pub use notes::put_note;
pub use reading::{Unread, read_all};
pub use refusal::{Denial, Refusal};
pub use status::Status;
pub use writing::put_texts;
