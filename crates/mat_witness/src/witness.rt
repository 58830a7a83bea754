//! Witnesses and their parts.
use mat_flow::Walk;
use mat_sets::{ElemSet, Pairs};

/// What shows that a set is independent, by the kind of the matroid.
#[derive(Debug, Drop)]
pub enum Free {
    /// Nothing: in a uniform, partition or laminar matroid the members are counted.
    Count,
    /// In a graphic matroid, each edge of the set, none of them a loop, with an end that no edge before it has.
    Forest(Pairs),
    /// In a gammoid, disjoint paths from the sources, the i-th to the vertex of the i-th member.
    Paths(Vec<Walk>),
    /// In a linear matroid over the field of two elements, numbers of which the i-th has an odd number of binary ones in common with the
    /// column of the i-th member and an even number with the others.
    Probes(Vec<u128>),
}

/// What shows that the rank of a set is at most a number, by the kind of the matroid.
#[derive(Debug, Drop)]
pub enum Most {
    /// In a uniform, partition or laminar matroid, elements that count themselves, and the numbers, from 0 on, of listed sets that hold all other
    /// members of the set: the number is 1 for each of these elements plus the caps of these sets. A uniform matroid lists the set of all elements.
    Spent {
        /// The elements that count themselves.
        spent: ElemSet,
        /// The numbers of the listed sets.
        sets: ElemSet,
    },
    /// In a graphic matroid, a label for each vertex, such that no edge of the set joins two labels: the number is that of the vertices less
    /// that of the different labels.
    Labels(Vec<u32>),
    /// In a gammoid, vertices that may be reached from the sources and vertices that close them off from those of the set: the number is
    /// that of the latter.
    Gate {
        /// The vertices that may be reached.
        reach: ElemSet,
        /// The vertices that close them off.
        gate: ElemSet,
    },
    /// In a linear matroid over the field of two elements, numbers that have an even number of binary ones in common with each column of the
    /// set, each with a one that no other has: the number is that of the entries of a column less that of these numbers.
    Zeros(Vec<u128>),
}

/// What shows one rung of a ladder of two matroids.
#[derive(Debug, Drop)]
pub struct Witness {
    /// The number of the rung.
    pub k: u32,
    /// What shows that the rung's set is independent in the first matroid.
    pub first: Free,
    /// What shows that the rung's set is independent in the second matroid.
    pub second: Free,
    /// Bounds of ranks. First, for each half and for each of its different values, falling, at or above which fewer than `k` members of the set
    /// weigh: of the elements that weigh at least as much. Then two for the cut: of the elements outside the cut in the first matroid, and of the cut in
    /// the second.
    pub bounds: Vec<Most>,
}
