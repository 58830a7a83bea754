//! What a search that grows until it ends has changed and found.

use crate::found::Found;
use mat_sets::PairWeights;

/// The two halves of the weights after all changes, and what a search for a tight path finds under them (Frank 1981).
#[derive(Debug, Drop)]
pub struct Grown {
    /// The part of each element's weight that is given to the first matroid.
    pub first: PairWeights,
    /// The part of each element's weight that is given to the second matroid.
    pub second: PairWeights,
    /// A tight path with fewest vertices, or the reached set, which has no slack.
    pub found: Found,
}
