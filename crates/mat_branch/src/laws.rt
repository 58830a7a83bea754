//! Laws of disjoint spanning arborescences, for any graph.
ghost use Rattle.std.specs.Prelude.{◌≡◌, ◌<◌, ◌≤◌, ◌⊎◌, ◌↔◌, ℕ, true, List, length};
ghost use Rattle.mat_sets.specs.{Graphs.{ends_of, entering, IsGraph, IsSpanningArborescence, IsRootFree}, Sets.{all_below, IsSet}};
ghost use Rattle.mat_branch.specs.{Arborescences.{AreDisjointArborescences, IsSeldomEntered}, Spanning.{is_spanning_arborescence}};

/// There are k disjoint spanning arborescences, or a non-empty vertex set without the root that fewer than k arcs enter (Edmonds 1973).
pub fn disjoint_or_seldom_entered()
    ensures { (vertices : ℕ) (arcs : List (ℕ × ℕ)) (root k : ℕ) → IsGraph vertices arcs → root < vertices
        → ((trees : List (List ℕ)) × AreDisjointArborescences vertices (length arcs) (ends_of arcs) root k trees)
        ⊎ ((cut : List ℕ) × IsSeldomEntered vertices (length arcs) (ends_of arcs) root k cut) }
{}

/// Where there are k disjoint spanning arborescences, each non-empty vertex set without the root is entered by at least k arcs.
pub fn each_arborescence_enters()
    ensures { (vertices : ℕ) (arcs : List (ℕ × ℕ)) (root k : ℕ) (trees : List (List ℕ))
        → AreDisjointArborescences vertices (length arcs) (ends_of arcs) root k trees
        → (cut : List ℕ) → IsRootFree vertices root cut → k ≤ length (entering (ends_of arcs) (all_below (length arcs)) cut) }
{}

/// There are not both k disjoint spanning arborescences and a non-empty vertex set without the root that fewer than k arcs enter.
pub fn seldom_entered_has_none()
    ensures { (vertices : ℕ) (arcs : List (ℕ × ℕ)) (root k : ℕ) (trees : List (List ℕ)) (cut : List ℕ)
        → IsSeldomEntered vertices (length arcs) (ends_of arcs) root k cut
        → ¬ AreDisjointArborescences vertices (length arcs) (ends_of arcs) root k trees }
{}

/// The test of spanning arborescences holds exactly of these: sets of arcs, one fewer than there are vertices, along whose members a
/// directed walk leads from the root to each vertex.
pub fn spanning_arborescences_are_told()
    ensures { (vertices : ℕ) (arcs : List (ℕ × ℕ)) (root : ℕ) (tree : List ℕ)
        → IsGraph vertices arcs → root < vertices → IsSet (length arcs) tree
        → (is_spanning_arborescence vertices (ends_of arcs) root tree ≡ true)
        ↔ IsSpanningArborescence vertices (length arcs) (ends_of arcs) root tree }
{}
