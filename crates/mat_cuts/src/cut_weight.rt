//! Vertex sets with weights, and the answers that they make.
use mat_sets::ElemSet;

/// A vertex set with its weight (Fulkerson 1974).
#[derive(Debug, Drop)]
pub struct CutWeight {
    /// The weight: above 0 where the cuts are right.
    pub weight: i128,
    /// The vertices: at least one, and not the root, where the cuts are right.
    pub set: ElemSet,
}

/// A cheapest spanning arborescence with the weights that prove it and what they leave of each cost, or why there is none.
#[derive(Debug, Drop)]
pub enum Priced {
    /// A spanning arborescence, and vertex sets whose weights add to its cost.
    Tree {
        /// The arcs of the arborescence.
        arcs: ElemSet,
        /// The weighted vertex sets.
        cuts: Vec<CutWeight>,
        /// What is left of the cost of each arc by the weights of the sets that it enters.
        left: Vec<i128>,
    },
    /// A vertex set without the root that is not empty, and that no arc enters.
    Unreached(ElemSet),
}

/// A cheapest spanning arborescence with the weights that prove it, or why there is none.
#[derive(Debug, Drop)]
pub enum Cuts {
    /// A spanning arborescence, and vertex sets whose weights add to its cost.
    Tree {
        /// The arcs of the arborescence.
        arcs: ElemSet,
        /// The weighted vertex sets.
        cuts: Vec<CutWeight>,
    },
    /// A vertex set without the root that is not empty, and that no arc enters.
    Unreached(ElemSet),
}
