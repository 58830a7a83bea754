//! Moves of elements between parts.

use mat_sets::ElemSet;

/// An element moves into a part.
#[derive(Debug, Drop)]
pub struct Move {
    /// The element that moves.
    pub element: u32,
    /// The number of the part that it enters.
    pub part: u32,
}

/// What a search for moves finds.
#[derive(Debug, Drop)]
pub enum Moves {
    /// Moves that add an element, with fewest moves.
    Path(Vec<Move>),
    /// There are no such moves; all elements that the search reached from those in no part, with these.
    Stuck(ElemSet),
}
