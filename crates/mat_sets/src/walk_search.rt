//! What a search for a shortest walk finds.
use crate::elem_set::ElemSet;

/// A walk with fewest vertices, or all that the starts reach.
#[derive(Debug, Drop)]
pub enum WalkSearch {
    /// The vertices of a walk from a start to a goal, with fewest vertices.
    Walk(Vec<u32>),
    /// No walk leads from a start to a goal; the set of all vertices that the starts reach.
    Reached(ElemSet),
}
