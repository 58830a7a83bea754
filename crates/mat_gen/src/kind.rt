//! The kinds of problems that are made.

/// What kind of problem is made.
#[derive(Clone, Copy, Debug, PartialEq, Eq)]
pub enum SampleKind {
    /// A pair: a graphic matroid and a partition.
    Pair,
    /// A list of two graphic matroids.
    List,
    /// A graph.
    Graph,
    /// A directed graph with costs and a root.
    Rooted,
    /// A table.
    Table,
}
