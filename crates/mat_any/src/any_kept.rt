//! What a matroid of any kind keeps.

use mat_count::FullSets;
use mat_gf2::KeptBasis;
use mat_graphic::RootedForest;
use mat_linked::{KeptLinking, KeptMatching};
use mat_minors::DualKept;
use mat_sets::{ElemSet, SetList};

/// What a matroid of any kind keeps of an independent set. A truncation or a restriction keeps what the matroid within it
/// keeps, and so has no case.
#[derive(Debug, Drop)]
pub enum AnyKept {
    /// Nothing, by a uniform matroid.
    Nothing,
    /// The set, and the sizes of the full classes.
    Partition(FullSets),
    /// The set, and the sizes of the full sets of the family.
    Laminar(FullSets),
    /// A forest of the set's edges, of which each tree has a root.
    Graphic(RootedForest),
    /// A matching of the members with different sets of the family.
    Transversal(KeptMatching),
    /// Disjoint paths from the sources to the vertices of the members.
    Gammoid(KeptLinking),
    /// A basis of the columns of the members, each with the members of which it is the sum, and parity checks of its span.
    Gf2(KeptBasis),
    /// The set, a base of the matroid within the dual that is disjoint from it, and the columns at the base.
    Dual(DualKept),
    /// By the dual of a dual: what the matroid within both keeps.
    DualOfDual(Box<AnyKept>),
    /// A maximal independent subset of the contracted elements, the set together with it, and what the matroid that is
    /// contracted keeps of their union.
    Contract {
        chosen: ElemSet,
        joined: ElemSet,
        inner: Box<AnyKept>,
    },
    /// Parts of the set, one for each matroid of a union and independent in it, and what each keeps of its part.
    Union {
        parts: SetList,
        kept: Vec<AnyKept>,
    },
}

/// An independent set of a matroid of any kind, and what is kept of it.
#[derive(Debug, Drop)]
pub(crate) struct KeptSet {
    pub(crate) set: ElemSet,
    pub(crate) kept: AnyKept,
}
