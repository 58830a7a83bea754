//! Witnesses of files: one is made for a rung of the right answer that a certificate has, and one is verified against the answer that a
//! certificate has; or it is told why not.
#![tactic(auto)]

mod making;
mod refusals;
mod rung_answer;
mod verifying;

pub use making::witness_text;
pub use refusals::{NoRung, Unshown};
pub use verifying::verify_in;
