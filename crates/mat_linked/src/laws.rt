//! What the tests of the linked kinds mean, and the laws that they obey.
ghost use Rattle.std.specs.{Prelude.{◌≡◌, ◌↔◌, ℕ, List, length, true}, List.{All}};
ghost use Rattle.mat_sets.specs.Sets.{AllBelow};
ghost use Rattle.mat_laws.specs.Matroids.{IsMatroid};
ghost use Rattle.mat_linked.specs.{Gammoids.{IsGammoid, IsLinked, is_gammoid}, Transversals.{IsPartialTransversal, is_transversal}};

/// The test holds exactly of the sets to whose vertices disjoint paths lead from the sources, one to each.
pub fn gammoid_means()
    ensures { (vertices : ℕ) (arcs : List (ℕ × ℕ)) (sources targets X : List ℕ) → IsGammoid vertices arcs sources targets
        → (is_gammoid vertices arcs sources targets X ≡ true) ↔ IsLinked arcs sources targets X }
{}

/// The sets to whose vertices disjoint paths lead from the sources are the independent sets of a matroid (Schrijver,
/// chapter 39).
pub fn gammoid_laws()
    ensures { (vertices : ℕ) (arcs : List (ℕ × ℕ)) (sources targets : List ℕ) → IsGammoid vertices arcs sources targets
        → IsMatroid (length targets) (is_gammoid vertices arcs sources targets) }
{}

/// The test holds exactly of the sets whose members lie in different sets of the family, each in one that holds it.
pub fn transversal_means()
    ensures { (n : ℕ) (family : List (List ℕ)) (X : List ℕ)
        → (is_transversal n family X ≡ true) ↔ IsPartialTransversal n family X }
{}

/// The partial transversals of a family of sets of elements are the independent sets of a matroid (Schrijver, chapter 39).
pub fn transversal_laws()
    ensures { (n : ℕ) (family : List (List ℕ)) → All (AllBelow n) family → IsMatroid n (is_transversal n family) }
{}
