//! Laws of weighted cuts, for any graph.
ghost use Rattle.std.specs.Prelude.{◌≡◌, ℕ, ℤ, List, length, true};
ghost use Rattle.mat_sets.specs.{Graphs.{ends_of, enters, IsSpanningArborescence, IsRootFree, IsUnentered}, Sets.{is_member}};
ghost use Rattle.mat_cuts.specs.{Cuts.{AreRightCuts, IsCheapest}, declared.cut_weight.CutWeight.{CutWeight}};

/// Each spanning arborescence has an arc that enters each root-free vertex set.
pub fn arborescence_enters()
    ensures { (vertices : ℕ) (arcs : List (ℕ × ℕ)) (root : ℕ) (tree set : List ℕ)
        → IsSpanningArborescence vertices (length arcs) (ends_of arcs) root tree → IsRootFree vertices root set
        → (a : ℕ) × (is_member a tree ≡ true) × (enters (ends_of arcs) set a ≡ true) }
{}

/// Where cuts are right for a tree, no spanning arborescence costs less (Fulkerson 1974).
pub fn right_cuts_are_cheapest()
    ensures { (vertices : ℕ) (arcs : List (ℕ × ℕ)) (costs : List ℤ) (root : ℕ) (tree : List ℕ) (cuts : List CutWeight)
        → AreRightCuts vertices arcs costs root tree cuts → IsCheapest vertices arcs costs root tree }
{}

/// Where no arc enters a root-free vertex set, there is no spanning arborescence.
pub fn unreached_has_none()
    ensures { (vertices : ℕ) (arcs : List (ℕ × ℕ)) (root : ℕ) (set tree : List ℕ)
        → IsUnentered vertices arcs root set → ¬ IsSpanningArborescence vertices (length arcs) (ends_of arcs) root tree }
{}
