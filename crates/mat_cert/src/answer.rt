//! Answers, by the command that gives them.
//!
//! The answer for one size is called a rung: rung k has a set of k elements. The rungs of all sizes from 0 on, with the cut where there is
//! one, are called a ladder.
use mat_sets::{ElemSet, PairWeights, SetList, Weight};

/// A heaviest common independent set of its size, with a split of the weights that proves it (Frank 1981).
#[derive(Debug, Drop)]
pub struct PricedRung {
    /// The weight of the set.
    pub weight: Weight,
    /// The elements of the set.
    pub set: ElemSet,
    /// The part of each element's weight that is given to the first matroid.
    pub first: PairWeights,
    /// The part of each element's weight that is given to the second matroid.
    pub second: PairWeights,
}

/// A heaviest independent set of its size.
#[derive(Debug, Drop)]
pub struct PlainRung {
    /// The weight of the set.
    pub weight: Weight,
    /// The elements of the set.
    pub set: ElemSet,
}

/// A weight t, and a set of elements that weigh at least t. The set shows that of all elements that weigh at least t, no disjoint sets, one
/// for each matroid and independent in it, hold more than the parts of the union do.
#[derive(Debug, Drop)]
pub struct LevelLine {
    /// The weight.
    pub at: Weight,
    /// The set that shows it.
    pub cut: ElemSet,
}

/// An answer with what proves it, by its command. `count` is the number of elements, or of edges, arcs or cells where the problem has these.
#[derive(Debug, Drop)]
pub enum Answer {
    /// A heaviest common independent set of two matroids for each size from 0 on, and a cut: its rank in the second matroid and that of its
    /// complement in the first add up to the last size, so that no common independent set is larger (Edmonds 1970).
    Intersect {
        count: u32,
        rungs: Vec<PricedRung>,
        cut: ElemSet,
    },
    /// A heaviest independent set of a matroid for each size from 0 to the rank.
    Best {
        count: u32,
        rungs: Vec<PlainRung>,
    },
    /// Disjoint independent sets of the matroids of a list, their weight, and a cut for each weight.
    UnionOf {
        count: u32,
        weight: Weight,
        parts: SetList,
        levels: Vec<LevelLine>,
    },
    /// Any number of disjoint bases: the rank is 0.
    PackAny {
        count: u32,
    },
    /// As many disjoint bases as there are, and a cut.
    Pack {
        count: u32,
        bases: SetList,
        cut: ElemSet,
    },
    /// No independent sets cover all elements, since this one is a loop.
    CoverNever {
        count: u32,
        loop_at: u32,
    },
    /// As few independent sets as cover all elements, and where there is at least one set, a cut that shows that fewer do not.
    Cover {
        count: u32,
        sets: SetList,
        cut: Option<ElemSet>,
    },
    /// Disjoint spanning trees.
    Trees {
        count: u32,
        trees: SetList,
    },
    /// There are no `k` disjoint spanning trees, since too few edges join these classes of vertices.
    TreesNone {
        count: u32,
        k: u32,
        vertices: u32,
        classes: SetList,
    },
    /// A cheapest spanning arborescence, with a split of the negated costs that proves it.
    Arbor {
        count: u32,
        cost: Weight,
        arcs: ElemSet,
        first: PairWeights,
        second: PairWeights,
    },
    /// There is no spanning arborescence, since no arc enters this set of vertices.
    Unreached {
        count: u32,
        vertices: u32,
        set: ElemSet,
    },
    /// Disjoint spanning arborescences.
    Disjoint {
        count: u32,
        trees: SetList,
    },
    /// There are no `k` disjoint spanning arborescences, since too few arcs enter this set of vertices.
    DisjointNone {
        count: u32,
        k: u32,
        vertices: u32,
        set: ElemSet,
    },
    /// A heaviest forest of different colours for each size from 0 on, and where no spanning tree has different colours, colours that
    /// show it.
    Rainbow {
        count: u32,
        vertices: u32,
        colours: u32,
        rungs: Vec<PricedRung>,
        cut: ElemSet,
        missing: Option<ElemSet>,
    },
    /// A heaviest assignment for each size from 0 on.
    Assign {
        count: u32,
        rows: u32,
        columns: u32,
        rungs: Vec<PricedRung>,
        cut: ElemSet,
    },
}
