//! The limits of what a certificate may state.

/// The most elements.
pub(crate) const MOST_ELEMENTS: u32 = 500;

/// The most vertices of a graph.
pub(crate) const MOST_VERTICES: u32 = 500;

/// The most colours.
pub(crate) const MOST_COLOURS: u32 = 500;

/// The most rows of a table.
pub(crate) const MOST_ROWS: u32 = 500;

/// The most columns of a table.
pub(crate) const MOST_COLUMNS: u32 = 500;

/// The most matroids of a list.
pub(crate) const MOST_MATROIDS: u32 = 64;

/// The most different weights of a union's elements.
pub(crate) const MOST_LEVELS: u32 = 500;

/// The most trees that can be asked for.
pub(crate) const MOST_TREES: u32 = 64;

/// The largest number of a weight, also of a weight in a split; with a `-` the smallest.
pub(crate) const LARGEST_NUMBER: i128 = 1_000_000_000_000_000_000_000_000_000_000;
