//! What the tests of forests and of components mean, and the laws that they obey.
ghost use Rattle.std.specs.Prelude.{◌≡◌, ◌↔◌, ◌<◌, ◌+◌, ℕ, List, true};
ghost use Rattle.mat_sets.specs.Sets.{is_member, IsRising, IsSet};
ghost use Rattle.mat_laws.specs.{Matroids.{IsMatroid}, Ranks.{rank}};
ghost use Rattle.mat_graphic.specs.Forests.{IsForest, IsLeastReached, is_forest, is_graphic, least_reached, number_of_components};

/// The test of forests holds exactly where no walk along a non-empty list of different edges ends where it begins.
pub fn forest_means()
    ensures { (ends : ℕ → ℕ × ℕ) (X : List ℕ) → IsRising X → (is_forest ends X ≡ true) ↔ IsForest ends X }
{}

/// A list passes the whole test exactly where it is a set of edges and a forest.
pub fn independent_sets_mean()
    ensures { (n : ℕ) (ends : ℕ → ℕ × ℕ) (X : List ℕ) → (is_graphic n ends X ≡ true) ↔ (IsSet n X × IsForest ends X) }
{}

/// The vertex that is found is the least that is reached: a walk along these edges leads to it, and none leads to a lower one.
pub fn components_mean()
    ensures { (ends : ℕ → ℕ × ℕ) (X : List ℕ) (v r : ℕ) → IsRising X → (least_reached ends X v ≡ r) ↔ IsLeastReached ends X v r }
{}

/// The forests of a graph are the independent sets of a matroid (Schrijver, chapter 39).
pub fn graphic_laws()
    ensures { (n : ℕ) (ends : ℕ → ℕ × ℕ) → IsMatroid n (is_graphic n ends) }
{}

/// The rank of a set of edges and the number of components that it makes of the vertices add up to the number of
/// vertices (Schrijver, chapter 39).
pub fn rank_and_components()
    ensures { (n vertices : ℕ) (ends : ℕ → ℕ × ℕ) (X : List ℕ) → IsSet n X
        → ((e : ℕ) → is_member e X ≡ true → ((ends e).0 < vertices) × ((ends e).1 < vertices))
        → rank (is_graphic n ends) X + number_of_components vertices ends X ≡ vertices }
{}
