//! Problems.

use mat_any::AnyMatroid;
use mat_sets::{PairWeights, Pairs};

/// A problem, by its form.
#[derive(Drop)]
pub enum Problem {
    /// Two matroids on the same elements, and a weight for each element.
    Pair {
        /// The weight of each element.
        weights: PairWeights,
        /// The first matroid.
        first: AnyMatroid,
        /// The second matroid.
        second: AnyMatroid,
    },
    /// Matroids on the same elements, and a weight for each element.
    List {
        /// The weight of each element.
        weights: PairWeights,
        /// The matroids.
        matroids: Vec<AnyMatroid>,
    },
    /// A graph.
    Graph {
        /// The number of its vertices.
        vertices: u32,
        /// The ends of each edge.
        edges: Pairs,
    },
    /// A directed graph with a root, and a cost for each arc.
    Rooted {
        /// The number of its vertices.
        vertices: u32,
        /// The root.
        root: u32,
        /// The tail and the head of each arc.
        arcs: Pairs,
        /// The cost of each arc.
        costs: PairWeights,
    },
    /// A graph with a colour and a weight for each edge.
    Coloured {
        /// The number of its vertices.
        vertices: u32,
        /// The number of colours.
        colours: u32,
        /// The ends of each edge.
        edges: Pairs,
        /// The colour of each edge.
        colour_of: Vec<u32>,
        /// The weight of each edge.
        weights: PairWeights,
    },
    /// A table, some of whose cells have a weight.
    Table {
        /// The number of its rows.
        rows: u32,
        /// The number of its columns.
        columns: u32,
        /// The row and the column of each cell.
        cells: Pairs,
        /// The weight of each cell.
        weights: PairWeights,
    },
}
