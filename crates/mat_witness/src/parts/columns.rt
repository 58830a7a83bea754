//! The parts of a witness in linear matroids over the field of two elements.

mod probes;
mod rows;
mod zeros;

pub(crate) use probes::{probes_of, shows_probes};
pub(crate) use zeros::{zeros_bound, zeros_of};
