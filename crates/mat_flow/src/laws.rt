//! Laws of disjoint paths and separators in a directed graph, for any lists of arcs, sources and targets.
ghost use Rattle.std.specs.Prelude.{◌≡◌, ◌≤◌, ◌⊎◌, ℕ, true, false, List, length};
ghost use Rattle.mat_sets.specs.{Sets.{is_member, IsRising}, Graphs.{entering}};
ghost use Rattle.mat_flow.specs.{
  ArcPaths.{AreArcPaths, IsArcCut},
  Paths.{AreDisjointPaths, ArePathsApart, HasOnePathMore, HasSeparatorOf, IsLinking, IsSeparator},
};

/// Where paths from sources to targets share no vertex with each other, there are disjoint paths, one more than these, to all their ends
/// and to one further target; or some separator has as many vertices as there are paths (Schrijver, chapter 9; Diestel, chapter 3).
#[tactic(auto, using(crate::proofs::PathLaws::one_path_more))]
pub fn one_path_more()
    ensures { (arcs : List (ℕ × ℕ)) (sources targets : List ℕ) (paths : List (List ℕ))
        → ArePathsApart arcs sources targets paths
        → HasOnePathMore arcs sources targets paths ⊎ HasSeparatorOf arcs sources targets (length paths) }
{}

/// Paths that share no vertex with each other are at most as many as any separator has vertices.
pub fn at_most_a_separator()
    ensures { (arcs : List (ℕ × ℕ)) (sources targets separator : List ℕ) (paths : List (List ℕ))
        → IsSeparator arcs sources targets separator → ArePathsApart arcs sources targets paths
        → length paths ≤ length separator }
{}

/// Of disjoint paths no two share a vertex, so the laws of paths that share none are laws of disjoint paths.
pub fn disjoint_paths_are_apart()
    ensures { (arcs : List (ℕ × ℕ)) (sources targets : List ℕ) (paths : List (List ℕ))
        → AreDisjointPaths arcs sources targets paths → ArePathsApart arcs sources targets paths }
{}

/// Some disjoint paths are as many as some separator has vertices: the largest number of disjoint paths is the least size
/// of a separator (Menger's theorem; Schrijver, chapter 9).
#[tactic(auto, using(crate::proofs::PathLaws::menger))]
pub fn menger()
    ensures { (arcs : List (ℕ × ℕ)) (sources targets : List ℕ)
        → (paths : List (List ℕ)) × (separator : List ℕ) × IsLinking arcs sources targets paths separator }
{}

/// Where so many paths over live arcs share no arc, each vertex set with their end and without their start is entered by as many live
/// arcs: so there are not both such paths and such a cut.
#[tactic(auto, using(crate::proofs::ArcPathLaws::paths_enter, crate::proofs::ArcPathLaws::paths_have_no_cut))]
pub fn arc_paths_enter()
    ensures enter { (ends : ℕ → ℕ × ℕ) (live : List ℕ) (from to want : ℕ) (paths : List (List ℕ)) (cut : List ℕ)
        → IsRising live → AreArcPaths ends live from to want paths
        → is_member from cut ≡ false → is_member to cut ≡ true → want ≤ length (entering ends live cut) }
    ensures no_cut { (vertices : ℕ) (ends : ℕ → ℕ × ℕ) (live : List ℕ) (from to want : ℕ) (paths : List (List ℕ)) (cut : List ℕ)
        → IsRising live → AreArcPaths ends live from to want paths
        → ¬ IsArcCut vertices ends live from to want cut }
{}
