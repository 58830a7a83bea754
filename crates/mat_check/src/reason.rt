//! Which clause of the checker fails, and at which places.

ghost use Rattle.std.specs.Prelude.{◌≡◌};
ghost use Rattle.mat_check.specs.{Clauses.{failure_at}, Reasons.{reason_word}};

/// The clause of an answer that fails. A verdict has two places beside it, the numbers `a` and `b`; each variant says what they are, and of
/// which answers it is told. A place that isn't mentioned is 0, and an element, an edge, an arc or a vertex that is told is the least such.
#[derive(Clone, Copy, Debug, PartialEq, Eq)]
pub enum Reason {
    /// Of every answer: a number in the header isn't the problem's. Each answer states how many elements, edges, arcs or cells there are. A
    /// union also states how many matroids there are, and how many different weights; classes, vertices that too few arcs enter and a
    /// rainbow ladder, how many vertices; a rainbow ladder, how many colours; an assignment, how many rows and columns.
    Header,
    /// Of each rung of a ladder: the weight of rung `a` isn't that of its set. Of a union: the weight isn't that of all parts. Of an
    /// arborescence: the cost isn't that of its arcs.
    Weight,
    /// Of each rung of a ladder: the set of rung `a` is dependent in the first matroid, where `b` is 0, or in the second, where it is 1; in
    /// the only one `b` is 0. Of a union, of bases and of a covering: part, base or set `a` is dependent in its matroid.
    Dependent,
    /// Of each rung of a ladder of two matroids: the two parts of the split of rung `a` don't add up to the weight of element `b`. Of an
    /// arborescence: they don't add up to the negated cost of arc `b`.
    Sum,
    /// Of each rung of a ladder, and of an arborescence, for which `a` is 0: an independent set of as many elements as rung `a` has is
    /// heavier, in the first matroid under the first part of the split, where `b` is 0, or in the second under the second part, where it is
    /// 1. Of one matroid, under the given weights, `b` is 0.
    Beaten,
    /// Of the ladder of one matroid: an element can be added to the set of rung `a`, the last. Of bases: one can be added to base `a`.
    Short,
    /// Of a ladder of two matroids: the ranks of the cut and its complement don't add up to the size of the last rung. Of a union: the
    /// parts don't hold as many elements of level `a` as its cut allows. Of bases: the cut leaves room for one base more. Of a covering:
    /// one set fewer has room for the cut.
    Cut,
    /// Of a union, of bases, of spanning trees and of disjoint arborescences: element, edge or arc `a` stands in two of them. Of classes:
    /// vertex `a` stands in two.
    Overlap,
    /// Of a union: the weight of level `a` isn't the one of this number among the different weights, which fall.
    Level,
    /// Of a union: element `b` of the cut of level `a` weighs less than the level.
    Outside,
    /// Of a covering: element `a` stands in no set. Of classes: vertex `a` stands in none.
    Missed,
    /// Of the answer that any number of disjoint bases exists: the rank isn't 0. Of the answer that an element is in no independent set: it is
    /// independent alone.
    Claim,
    /// Of classes: class `a` is empty. Of vertices that too few arcs enter: there are none.
    Empty,
    /// Of vertices that too few arcs enter: the root is one of them.
    Root,
    /// Of classes: too many edges have their ends in different ones. Of vertices that too few arcs enter: too many arcs enter them.
    Crossing,
    /// Of spanning trees: set `a` is none. Of an arborescence, for which `a` is 0, and of disjoint ones: set `a` is no spanning
    /// arborescence from the root.
    Tree,
    /// Of a rainbow ladder that ends below a spanning tree: without the edges of the listed colours the number of components is at most the
    /// number of these colours plus one.
    Colours,
}

impl Reason {
    /// The word by which a note tells the reason.
    pub fn word(self) -> &'static str
        ensures { result.now ≡ reason_word self }
    {
        match self {
            Reason::Header => "header",
            Reason::Weight => "weight",
            Reason::Dependent => "dependent",
            Reason::Sum => "sum",
            Reason::Beaten => "beaten",
            Reason::Short => "short",
            Reason::Cut => "cut",
            Reason::Overlap => "overlap",
            Reason::Level => "level",
            Reason::Outside => "outside",
            Reason::Missed => "missed",
            Reason::Claim => "claim",
            Reason::Empty => "empty",
            Reason::Root => "root",
            Reason::Crossing => "crossing",
            Reason::Tree => "tree",
            Reason::Colours => "colours",
        }
    }

    /// A clause that fails for this reason at these places.
    pub(crate) fn at(self, first_place: u32, second_place: u32) -> Failure
        ensures { result ≡ failure_at self first_place second_place }
    {
        Failure {
            reason: self,
            first_place,
            second_place,
        }
    }
}

/// A clause that fails: why, and at which two places of the answer.
#[derive(Clone, Copy)]
pub struct Failure {
    pub(crate) reason: Reason,
    pub(crate) first_place: u32,
    pub(crate) second_place: u32,
}
