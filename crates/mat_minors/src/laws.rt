//! What the tests of duals, truncations, restrictions and contractions mean, and the laws that they obey.
ghost use Rattle.std.specs.Prelude.{◌≡◌, ◌≤◌, ◌↔◌, ℕ, List, [], Bool, true, length};
ghost use Rattle.mat_sets.specs.Sets.{IsRising, IsSubset, intersection, union};
ghost use Rattle.mat_laws.specs.Matroids.{IsMatroid, IsMaximal};
ghost use Rattle.mat_minors.specs.Minors.{is_dual, is_truncated, is_restricted, is_contracted, IsDualIndependent, IsContractedIndependent};

/// The dual of a matroid is a matroid (Schrijver, chapter 39).
pub fn dual_laws()
    ensures { (n : ℕ) (independent : List ℕ → Bool) → IsMatroid n independent → IsMatroid n (is_dual n independent) }
{}

/// Each truncation of a matroid is a matroid (Schrijver, chapter 39).
pub fn truncated_laws()
    ensures { (n : ℕ) (independent : List ℕ → Bool) (cap : ℕ) → IsMatroid n independent → IsMatroid n (is_truncated cap independent) }
{}

/// Each restriction of a matroid is a matroid (Schrijver, chapter 39). The elements that are not kept stay, as loops.
pub fn restricted_laws()
    ensures { (n : ℕ) (independent : List ℕ → Bool) (kept : List ℕ) → IsMatroid n independent → IsMatroid n (is_restricted kept independent) }
{}

/// Each contraction of a matroid is a matroid (Schrijver, chapter 39). The contracted elements stay, as loops.
pub fn contracted_laws()
    ensures { (n : ℕ) (independent : List ℕ → Bool) (away : List ℕ) → IsRising away → IsMatroid n independent
        → IsMatroid n (is_contracted n away independent) }
{}

/// The test of the dual holds exactly of the sets from which some base is disjoint.
pub fn dual_means()
    ensures { (n : ℕ) (independent : List ℕ → Bool) (X : List ℕ) → IsMatroid n independent
        → (is_dual n independent X ≡ true) ↔ IsDualIndependent n independent X }
{}

/// The dual of the dual is the matroid (Whitney 1935; Schrijver, chapter 39).
pub fn dual_of_dual()
    ensures { (n : ℕ) (independent : List ℕ → Bool) (X : List ℕ) → IsMatroid n independent
        → is_dual n (is_dual n independent) X ≡ independent X }
{}

/// The test of a truncation holds exactly of the independent sets of at most `cap` elements.
pub fn truncation_means()
    ensures { (independent : List ℕ → Bool) (cap : ℕ) (X : List ℕ)
        → (is_truncated cap independent X ≡ true) ↔ ((independent X ≡ true) × (length X ≤ cap)) }
{}

/// The test of a restriction holds exactly of the independent sets of kept elements.
pub fn restriction_means()
    ensures { (independent : List ℕ → Bool) (kept X : List ℕ)
        → (is_restricted kept independent X ≡ true) ↔ ((independent X ≡ true) × IsSubset X kept) }
{}

/// The test of a contraction holds exactly of the sets that are disjoint from the contracted elements and independent
/// together with some maximal independent subset of them.
pub fn contraction_means()
    ensures { (n : ℕ) (independent : List ℕ → Bool) (away X : List ℕ) → IsMatroid n independent → IsRising away
        → (is_contracted n away independent X ≡ true) ↔ IsContractedIndependent n independent away X }
{}

/// Which maximal independent subset B or C of the contracted elements is taken does not matter (Schrijver, chapter 39).
pub fn contraction_base_is_free()
    ensures { (n : ℕ) (independent : List ℕ → Bool) (away B C X : List ℕ) → IsMatroid n independent
        → IsMaximal independent away B → IsMaximal independent away C → intersection X away ≡ []
        → independent (union X B) ≡ independent (union X C) }
{}
