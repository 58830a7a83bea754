//! Queries about a problem.

/// What is asked about a problem.
#[derive(Clone, Copy)]
pub enum Query {
    /// A heaviest independent set of one matroid for each size.
    Best,
    /// A heaviest common independent set of two matroids for each size.
    Intersect,
    /// Disjoint sets, one for each matroid of a list and independent in it, that hold the most elements and then weigh the most.
    Union,
    /// The largest number of disjoint bases of one matroid.
    Pack,
    /// The smallest number of independent sets of one matroid that cover its elements.
    Cover,
    /// This number of disjoint spanning trees of a graph, from 1 to 64.
    Trees(u32),
    /// A cheapest spanning arborescence of a directed graph.
    Arborescence,
    /// This number of disjoint spanning arborescences of a directed graph, from 1 to 64.
    Disjoint(u32),
    /// A heaviest forest for each size, of edges with pairwise different colours.
    Rainbow,
    /// A heaviest assignment in a table for each size.
    Assign,
}
