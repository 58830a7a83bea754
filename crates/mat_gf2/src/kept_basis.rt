//! What a linear matroid keeps of an independent set.

use crate::elimination::TaggedColumn;

/// What a linear matroid keeps of an independent set: a basis of its columns, one for each member, each with the members of
/// which it is the sum, and parity checks of the span of the basis.
#[derive(Debug, Drop)]
pub struct KeptBasis {
    pub(crate) rows: Vec<TaggedColumn>,
    pub(crate) checks: Vec<u128>,
}
