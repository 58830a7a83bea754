//! What an answer proves of a graph. Each law is the contract of a function that does nothing.

ghost use Rattle.std.specs.Prelude.{◌≡◌, ◌<◌, ◌↔◌, ℕ, List, true, length, suc, ◌⊎◌};
ghost use Rattle.mat_sets.specs.{
  Graphs.{IsGraph, IsSpanningArborescence, ends_of, IsUnentered},
  Sets.{IsSet},
  Weights.{◌≼◌, weight},
  declared.weight.Weight.{Weight},
};
ghost use Rattle.mat_graphic.specs.Forests.{is_graphic};
ghost use Rattle.mat_arbor.specs.{Heads.{is_entering_once, EntersOnce}, Arborescences.{HasNoArborescence, IsSplitArborescence}};

/// A set of arcs is in the partition matroid of the heads exactly where no arc enters the root and no two arcs have one head.
pub fn entering_once_means()
    ensures { (vertices : ℕ) (arcs : List (ℕ × ℕ)) (root : ℕ) (X : List ℕ) → IsGraph vertices arcs
        → (is_entering_once (length arcs) vertices (ends_of arcs) root X ≡ true) ↔ (IsSet (length arcs) X × EntersOnce (ends_of arcs) root X) }
{}

/// A set of one arc fewer than there are vertices is a spanning arborescence exactly where it is a common independent set of the graphic
/// matroid of the arcs without their direction and of the partition matroid of the heads (Schrijver, chapter 52).
pub fn arborescence_is_common()
    ensures { (vertices : ℕ) (arcs : List (ℕ × ℕ)) (root : ℕ) (X : List ℕ) → IsGraph vertices arcs → root < vertices
        → IsSpanningArborescence vertices (length arcs) (ends_of arcs) root X
        ↔ ((suc (length X) ≡ vertices) × (is_graphic (length arcs) (ends_of arcs) X ≡ true)
        × (is_entering_once (length arcs) vertices (ends_of arcs) root X ≡ true)) }
{}

/// An arborescence with a split of its costs costs least of all spanning arborescences (Frank 1981).
pub fn split_arborescence_is_least()
    ensures { (vertices : ℕ) (arcs : List (ℕ × ℕ)) (costs : List Weight) (root : ℕ) (tree : List ℕ) (first second : List Weight)
        → IsGraph vertices arcs → root < vertices → IsSplitArborescence vertices arcs costs root tree first second
        → (other : List ℕ) → IsSpanningArborescence vertices (length arcs) (ends_of arcs) root other
        → weight costs tree ≼ weight costs other }
{}

/// Where no arc enters a set of vertices that is not empty and lacks the root, there is no spanning arborescence.
pub fn unentered_has_no_arborescence()
    ensures { (vertices : ℕ) (arcs : List (ℕ × ℕ)) (root : ℕ) (U : List ℕ) → IsUnentered vertices arcs root U
        → HasNoArborescence vertices arcs root }
{}

/// There is a spanning arborescence, or a set of vertices that no arc enters.
pub fn arborescence_or_unentered()
    ensures { (vertices : ℕ) (arcs : List (ℕ × ℕ)) (root : ℕ) → IsGraph vertices arcs → root < vertices
        → ((X : List ℕ) × IsSpanningArborescence vertices (length arcs) (ends_of arcs) root X)
        ⊎ ((U : List ℕ) × IsUnentered vertices arcs root U) }
{}
