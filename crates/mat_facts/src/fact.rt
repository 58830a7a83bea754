//! Facts as values.

use mat_sets::{ElemSet, Weight};

/// What can be said of a problem and an answer to it, one fact a sentence. Rules are counted from 0, and what is long is borrowed from the
/// problem and the answer.
#[derive(Drop)]
pub enum Fact<'a> {
    /// The answer is of the kind that was asked for, be there a better one or not.
    Allowed,
    /// The rule allows at most so many of these elements.
    AtMost {
        /// The rule.
        rule: u32,
        /// The elements.
        elements: ElemSet,
        /// How many of them it allows at most.
        most: u32,
    },
    /// There is one rule, and each element's share is its whole weight.
    Whole {
        /// The weight of each element.
        weights: &'a [Weight],
    },
    /// There are two rules, and the two shares of each element add up to its weight; costs count negated.
    Shared {
        /// The share of each element for the first rule.
        first: &'a [Weight],
        /// The share of each element for the second rule.
        second: &'a [Weight],
    },
    /// Of what the rule allows none has a share above the first of the terms, at most one above the second, at most two above the third, and
    /// so on.
    FewAbove {
        /// The rule.
        rule: u32,
        /// The share of each element for the rule.
        shares: &'a [Weight],
        /// The terms.
        terms: Vec<Weight>,
    },
    /// The one rule allows this set, and none of the others can be added to it.
    Full {
        /// The set.
        set: &'a ElemSet,
    },
    /// So many of the elements that weigh this or more are in parts.
    InParts {
        /// The weight.
        at: Weight,
        /// How many are in parts.
        count: usize,
    },
    /// Of groups that are not empty, where each vertex is in exactly one: the edges between different groups are these.
    Between {
        /// The groups.
        groups: &'a [ElemSet],
        /// The edges.
        edges: ElemSet,
    },
    /// Without the edges of these colours the vertices fall into so many groups.
    FallsApart {
        /// The colours.
        colours: &'a ElemSet,
        /// How many groups there are.
        count: usize,
    },
    /// There are some of these vertices, and the root is not among them.
    WithoutRoot {
        /// The vertices.
        set: &'a ElemSet,
    },
    /// The arcs from elsewhere into these vertices are these.
    EnteredBy {
        /// The vertices.
        set: &'a ElemSet,
        /// The arcs.
        arcs: ElemSet,
    },
    /// No cost is below 0.
    NoneGains,
}
