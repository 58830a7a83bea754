//! What the search for rainbow spanning trees finds.

use mat_sets::ElemSet;
use mat_split::Ladder;

/// Heaviest forests of pairwise different colours, one of each size, and what shows that there is no rainbow spanning tree.
#[derive(Debug, Drop)]
pub struct RainbowLadder {
    /// The forests by size.
    pub ladder: Ladder,
    /// Colours without whose edges there are more components than one more than there are such colours; none where the last forest is a
    /// spanning tree.
    pub missing: Option<ElemSet>,
}
