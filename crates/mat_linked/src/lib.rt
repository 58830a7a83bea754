//! Gammoids and transversal matroids (Schrijver, chapter 39).
#![tactic(auto)]

mod alternating;
mod gammoid;
mod kept_linking;
mod kept_matching;
mod laws;
mod matching;
mod transversal;

pub use gammoid::Gammoid;
pub use kept_linking::KeptLinking;
pub use kept_matching::KeptMatching;
pub use laws::{gammoid_laws, gammoid_means, transversal_laws, transversal_means};
pub use transversal::Transversal;
