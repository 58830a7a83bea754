//! Laws of packings and coverings, for every test that obeys the laws of a matroid. Each law is the contract of a function that does
//! nothing.

ghost use Rattle.std.specs.Prelude.{◌≡◌, ◌<◌, ◌≤◌, ℕ, List, Bool, true, [], length};
ghost use Rattle.mat_sets.specs.Sets.{all_below};
ghost use Rattle.mat_laws.specs.{Matroids.{IsMatroid, IsLoop}, Ranks.{rank}};
ghost use Rattle.mat_packing.specs.{Packings.{AreBases, IsCover, IsCoverCut, IsRightPacking}, Trees.{AreTrees, IsRightPartition}};

/// No matroid has more disjoint bases than a right packing (Edmonds; Schrijver, chapter 42).
pub fn packing_is_most()
    ensures { (n : ℕ) (independent : List ℕ → Bool) → IsMatroid n independent → (bases : List (List ℕ)) (cut : List ℕ)
        → IsRightPacking n independent bases cut → (others : List (List ℕ)) → AreBases n independent others
        → length others ≤ length bases }
{}

/// Where the rank of all elements is 0, only the empty set is independent.
pub fn rank_none()
    ensures { (n : ℕ) (independent : List ℕ → Bool) → IsMatroid n independent → rank independent (all_below n) ≡ 0
        → (I : List ℕ) → independent I ≡ true → I ≡ [] }
{}

/// No fewer independent sets cover the elements than a cut shows (Edmonds; Schrijver, chapter 42).
pub fn covering_is_least()
    ensures { (n : ℕ) (independent : List ℕ → Bool) → IsMatroid n independent → (sets : List (List ℕ)) (cut : List ℕ)
        → IsCover n independent sets → IsCoverCut n independent (length sets) cut
        → (others : List (List ℕ)) → IsCover n independent others → length sets ≤ length others }
{}

/// Where an element is dependent alone, no independent sets cover the elements.
pub fn loop_has_no_cover()
    ensures { (n : ℕ) (independent : List ℕ → Bool) → IsMatroid n independent → (x : ℕ) → IsLoop n independent x
        → (sets : List (List ℕ)) → IsCover n independent sets → ⊥ }
{}

/// Where fewer edges run between the classes of a partition of the vertices than k disjoint spanning trees need, there are fewer than k of
/// these (Tutte; Nash-Williams; Schrijver, chapter 51).
pub fn partition_has_few_trees()
    ensures { (vertices count k : ℕ) (ends : ℕ → ℕ × ℕ) (classes : List (List ℕ))
        → ((e : ℕ) → e < count → ((ends e).0 < vertices) × ((ends e).1 < vertices)) → IsRightPartition vertices count ends k classes
        → (trees : List (List ℕ)) → AreTrees vertices count ends trees → length trees < k }
{}
