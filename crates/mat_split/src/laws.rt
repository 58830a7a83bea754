//! What a ladder proves of two matroids. Each law is the contract of a function that does nothing.

ghost use Rattle.std.specs.Prelude.{◌≡◌, ◌<◌, ℕ, List, Bool, true, length, Some, slice_get};
ghost use Rattle.mat_sets.specs.{
  Limits.{largest_weight},
  Sets.{IsSet},
  Weights.{◌⊕◌, weight, AreWeightsWithin},
  declared.weight.Weight.{Weight},
};
ghost use Rattle.mat_laws.specs.{Matroids.{IsMatroid}, CommonSets.{IsHeaviestCommon}};
ghost use Rattle.mat_split.specs.{Ladders.{IsLadder}, declared.ladder.Rung.{Rung}};

/// The set of rung k of a ladder is heaviest among the sets of k elements that are independent in both matroids; every set that is
/// independent in both has fewer elements than the ladder has rungs; and each set weighs what the two parts of a rung's split give
/// it together (Frank 1981; the bound by the cut is Edmonds').
pub fn ladder_is_best()
    ensures heaviest { (n : ℕ) (p q : List ℕ → Bool) → IsMatroid n p → IsMatroid n q
        → (w : List Weight) (rungs : List Rung) (cut : List ℕ) → IsLadder n p q w rungs cut
        → (k : ℕ) (rung : Rung) → slice_get rungs k ≡ Some rung → IsHeaviestCommon p q w k rung.set }
    ensures largest { (n : ℕ) (p q : List ℕ → Bool) → IsMatroid n p → IsMatroid n q
        → (w : List Weight) (rungs : List Rung) (cut : List ℕ) → IsLadder n p q w rungs cut
        → (other : List ℕ) → p other ≡ true → q other ≡ true → length other < length rungs }
    ensures splits { (n : ℕ) (p q : List ℕ → Bool) (w : List Weight) (rungs : List Rung) (cut : List ℕ) → IsLadder n p q w rungs cut
        → (k : ℕ) (rung : Rung) → slice_get rungs k ≡ Some rung
        → (X : List ℕ) → IsSet n X → weight w X ≡ weight rung.first X ⊕ weight rung.second X }
{}

/// Every pair of matroids on n elements has a ladder, for all weights whose numbers are at least -10^12 and at most 10^12 (Frank 1981).
pub fn ladder_exists()
    ensures { (n : ℕ) (p q : List ℕ → Bool) → IsMatroid n p → IsMatroid n q
        → (w : List Weight) → length w ≡ n → AreWeightsWithin largest_weight w
        → (rungs : List Rung) × (cut : List ℕ) × IsLadder n p q w rungs cut }
{}
