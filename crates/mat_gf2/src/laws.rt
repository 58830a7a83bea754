//! What the test of linear independence means, and the laws that it obeys.
ghost use Rattle.std.specs.Prelude.{◌≡◌, ◌↔◌, ℕ, List, true};
ghost use Rattle.mat_sets.specs.Sets.{IsRising, IsSet};
ghost use Rattle.mat_laws.specs.Matroids.{IsMatroid};
ghost use Rattle.mat_gf2.specs.Columns.{is_linearly_independent, IsLinearlyIndependent, is_gf2};

/// The test holds exactly of the sets of which no subset that is not empty has columns whose exclusive-or is zero.
pub fn linear_independence_means()
    ensures { (column : ℕ → ℕ) (X : List ℕ) → IsRising X
        → (is_linearly_independent column X ≡ true) ↔ IsLinearlyIndependent column X }
{}

/// A list passes the whole test exactly where it is a set of columns of which no subset that is not empty has an
/// exclusive-or that is zero.
pub fn independent_sets_mean()
    ensures { (n : ℕ) (column : ℕ → ℕ) (X : List ℕ) → (is_gf2 n column X ≡ true) ↔ (IsSet n X × IsLinearlyIndependent column X) }
{}

/// The sets of linearly independent columns are the independent sets of a matroid (Schrijver, chapter 39).
pub fn gf2_laws()
    ensures { (n : ℕ) (column : ℕ → ℕ) → IsMatroid n (is_gf2 n column) }
{}
