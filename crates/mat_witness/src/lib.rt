//! Witnesses. A right answer for two matroids is a ladder: its rung k has a heaviest common independent set of k elements and a split of the
//! weights into two halves, which add up to them, and under each of which the set is heaviest of its size in one of the matroids (Frank 1981).
//! A witness shows of one rung, without a search, that its set is heaviest of its size, and that no common independent set is larger than the
//! last rung's.
#![tactic(auto)]

mod bound_rows;
mod demands;
mod kinds;
mod laws;
mod make;
mod parts;
mod text;
mod verifier;
mod witness;

pub use kinds::{are_witnessed, has_rung};
pub use laws::shown_is_best;
pub use make::make_witness;
pub use text::{read_witness, witness_laws, write_witness};
pub use verifier::verify;
pub use witness::{Free, Most, Witness};
