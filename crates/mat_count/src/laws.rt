//! What the tests of counts and of crossing mean, and the laws that they obey.
ghost use Rattle.std.specs.Prelude.{◌≡◌, ◌↔◌, ◌≤◌, ℕ, List, true, length};
ghost use Rattle.mat_sets.specs.Sets.{IsSet};
ghost use Rattle.mat_laws.specs.Matroids.{IsMatroid};
ghost use Rattle.mat_count.specs.{
  Counts.{is_uniform, is_within_caps, IsWithinCaps, is_counted},
  Laminar.{crosses, Crosses, IsLaminarFamily},
};

/// The test of caps holds exactly where the set has at most its cap of members in each listed set.
pub fn within_caps_means()
    ensures { (sets : List (List ℕ)) (caps X : List ℕ) → length caps ≡ length sets → (is_within_caps sets caps X ≡ true) ↔ IsWithinCaps sets caps X }
{}

/// A list passes the test of a uniform matroid exactly where it is a set of elements, at most as many as the cap.
pub fn uniform_sets_mean()
    ensures { (n cap : ℕ) (X : List ℕ) → (is_uniform n cap X ≡ true) ↔ (IsSet n X × (length X ≤ cap)) }
{}

/// A list passes the test of a partition or a laminar matroid exactly where it is a set of elements and has at most its cap
/// of members in each listed set.
pub fn counted_sets_mean()
    ensures { (n : ℕ) (sets : List (List ℕ)) (caps X : List ℕ) → length caps ≡ length sets
        → (is_counted n sets caps X ≡ true) ↔ (IsSet n X × IsWithinCaps sets caps X) }
{}

/// Two sets cross exactly where they share a member and each has a member that the other has not.
pub fn crosses_means()
    ensures { (A B : List ℕ) → (crosses A B ≡ true) ↔ Crosses A B }
{}

/// Where no two listed sets cross, the sets within the caps are the independent sets of a matroid (Schrijver, chapter 39).
pub fn laminar_laws()
    ensures { (n : ℕ) (sets : List (List ℕ)) (caps : List ℕ) → IsLaminarFamily sets → IsMatroid n (is_counted n sets caps) }
{}
