//! Problems that are made from a number.
#![tactic(auto)]

mod generator;
mod kind;
mod laws;
mod samples;

pub use kind::SampleKind;
pub use laws::first_states;
pub use samples::sample;
