//! The clauses of spanning trees, of classes of vertices, of arborescences and of vertex sets that arcs enter too seldom.

pub(crate) mod arborescence;
pub(crate) mod disjoint_arborescences;
mod heads;
pub(crate) mod trees;
