//! What a search along tight arcs finds.

use mat_sets::{ElemSet, Weight};

/// A tight path, or the set that the sources reach where no tight path exists (Frank 1981).
#[derive(Debug, Drop)]
pub enum Found {
    /// The vertices of a path from a source to a sink, with fewest vertices.
    Path(Vec<u32>),
    /// There is no path.
    Stuck {
        /// The elements that tight arcs reach from the sources.
        reach: ElemSet,
        /// The least slack: by how much the weights of the reached set must change until a further element is reached or a reached
        /// one becomes a sink; none where no change does that.
        slack: Option<Weight>,
    },
}
