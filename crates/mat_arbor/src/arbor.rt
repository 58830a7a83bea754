//! What the search for a least spanning arborescence finds.

use mat_sets::{ElemSet, PairWeights};

/// A least spanning arborescence, or a set that shows that there is none.
#[derive(Debug, Drop)]
pub enum Arbor {
    /// A spanning arborescence that costs least, with a split of the negated costs that proves it (Frank 1981).
    Tree {
        /// The arcs of the arborescence.
        arcs: ElemSet,
        /// The part of each negated cost that is given to the graphic matroid of the arcs without their direction.
        first: PairWeights,
        /// The part of each negated cost that is given to the partition matroid of the heads.
        second: PairWeights,
    },
    /// There is none: the vertices that the root does not reach.
    Unreached(ElemSet),
}
