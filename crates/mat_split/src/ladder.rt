//! Ladders of heaviest common independent sets.

use mat_sets::{ElemSet, PairWeights};

/// A heaviest common independent set of its size, with a split of the weights that proves it (Frank 1981).
#[derive(Debug, Drop)]
pub struct Rung {
    /// The elements of the set.
    pub set: ElemSet,
    /// The part of each element's weight that is given to the first matroid.
    pub first: PairWeights,
    /// The part of each element's weight that is given to the second matroid.
    pub second: PairWeights,
}

/// A heaviest common independent set of each size, and a set that proves that none is larger.
#[derive(Debug, Drop)]
pub struct Ladder {
    /// The sets by size, from the empty set on.
    pub rungs: Vec<Rung>,
    /// A set whose rank in the second matroid and the rank of whose complement in the first add up to the greatest size (Edmonds).
    pub cut: ElemSet,
}
