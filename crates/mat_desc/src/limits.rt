//! The limits of what a description may state.

/// The most elements, and so the most edges, arcs or cells of a form, and the largest cap.
pub(crate) const MOST_ELEMENTS: u32 = 500;

/// The most vertices of a graph.
pub(crate) const MOST_VERTICES: u32 = 500;

/// The most sets of a family, and so the most classes, colours, rows or columns.
pub(crate) const MOST_SETS: u32 = 500;

/// The most arcs of a gammoid.
pub(crate) const MOST_ARCS: u32 = 20_000;

/// The most binary digits of a column.
pub(crate) const MOST_DIGITS: u32 = 128;

/// The most matroids of a list or of a union.
pub(crate) const MOST_MATROIDS: u32 = 64;

/// The most matroids that may stand within one another, the outermost one counted.
pub(crate) const DEEPEST: u32 = 16;

/// The largest number of a weight or cost.
pub(crate) const LARGEST_WEIGHT: i128 = 1_000_000_000_000;

/// The smallest number of a weight or cost.
pub(crate) const SMALLEST_WEIGHT: i128 = -LARGEST_WEIGHT;
