//! Linear matroids over the field of two elements.
#![tactic(auto)]

mod elimination;
mod gf2;
mod kept_basis;
mod laws;
mod parity;

pub use gf2::Gf2;
pub use kept_basis::KeptBasis;
pub use laws::{gf2_laws, independent_sets_mean, linear_independence_means};
pub use parity::inner_product_is_one;
