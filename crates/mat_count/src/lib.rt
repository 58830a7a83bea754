//! Matroids that bound how many elements a set may have.
#![tactic(auto)]

mod caps;
mod crossings;
mod full_sets;
mod labels;
mod laminar;
mod laminar_fault;
mod laws;
mod partition;
mod uniform;

pub use crossings::{crossing, crossing_bits};
pub use full_sets::FullSets;
pub use laminar::Laminar;
pub use laminar_fault::LaminarFault;
pub use laws::{
    counted_sets_mean, crosses_means, laminar_laws, uniform_sets_mean, within_caps_means,
};
pub use partition::Partition;
pub use uniform::Uniform;
