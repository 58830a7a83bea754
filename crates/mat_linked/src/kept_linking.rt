//! What a gammoid keeps of an independent set.
use mat_flow::Reroutes;
use mat_sets::BitSet;

/// What a gammoid keeps of an independent set: disjoint paths to the vertices of its members, so that one search tells the
/// exchanges of an element, and one more makes a path to another vertex; and to which vertices there is one.
#[derive(Debug, Drop)]
pub struct KeptLinking {
    pub(crate) reroutes: Reroutes,
    // The vertices to which one path more leads.
    pub(crate) next_ends: BitSet,
}
