//! What the laws of a matroid imply, for every test of independence that obeys them. Each law is the contract of a
//! function that does nothing.

ghost use Rattle.std.specs.Prelude.{◌≡◌, ◌↔◌, ◌+◌, ◌<◌, ◌≤◌, ◌||◌, ℕ, List, Bool, true, false, length, ◌≤ℤ◌};
ghost use Rattle.mat_sets.specs.{
  Sets.{is_member, IsRising, IsSet, all_below, with_one, minus, union},
  Sums.{sum_of},
  Weights.{◌≺◌},
  declared.weight.Weight.{Weight},
};
ghost use Rattle.mat_laws.specs.{
  Matroids.{IsMatroid, IsMaximal, IsBase},
  Ranks.{IsRank, rank},
  Exchanges.{HasSymmetricPartner, IsTriangular},
  Heaviest.{IsHeaviest, IsLocallyHeaviest},
  Ladders.{IsCut},
  TightPaths.{Exchanges, exchanges_at, is_heaviest_addable},
};

/// The rank of a set is the largest size of an independent subset (Schrijver, chapter 39).
pub fn rank_is_largest()
    ensures { (n : ℕ) (independent : List ℕ → Bool) → IsMatroid n independent
        → (X : List ℕ) → IsRising X → IsRank independent X (rank independent X) }
{}

/// All maximal independent subsets of a set have one size, its rank (Schrijver, chapter 39).
pub fn maximal_has_rank()
    ensures { (n : ℕ) (independent : List ℕ → Bool) → IsMatroid n independent
        → (X I : List ℕ) → IsRising X → IsMaximal independent X I → length I ≡ rank independent X }
{}

/// Where no member of X outside an independent I can be added to I, I spans X: no independent subset of I ∪ X is
/// larger than I (Schrijver, chapter 39).
pub fn span()
    ensures { (n : ℕ) (independent : List ℕ → Bool) → IsMatroid n independent
        → (I X : List ℕ) → independent I ≡ true
        → ((x : ℕ) → is_member x X ≡ true → is_member x I ≡ false → independent (with_one I x) ≡ false)
        → (J : List ℕ) → independent J ≡ true
        → ((x : ℕ) → is_member x J ≡ true → (is_member x I || is_member x X) ≡ true)
        → length J ≤ length I }
{}

/// Symmetric exchange (Schrijver, chapter 39): for bases A and B, and x in A outside B, some y in B outside A has both
/// A - x + y and B - y + x independent. So too for any two independent sets of one size.
pub fn symmetric_exchange()
    ensures { (n : ℕ) (independent : List ℕ → Bool) → IsMatroid n independent
        → (A B : List ℕ) (x : ℕ) → independent A ≡ true → independent B ≡ true → length A ≡ length B
        → is_member x A ≡ true → is_member x B ≡ false → HasSymmetricPartner independent A B x }
{}

/// Any two bases have as many elements (Schrijver, chapter 39).
pub fn bases_have_one_size()
    ensures { (n : ℕ) (independent : List ℕ → Bool) → IsMatroid n independent
        → (A B : List ℕ) → IsBase n independent A → IsBase n independent B → length A ≡ length B }
{}

/// Symmetric exchange for bases (Schrijver, chapter 39): for bases A and B, and x in A outside B, some y in B outside A
/// has both A - x + y and B - y + x independent; and each independent set of the size of a base is a base.
pub fn bases_exchange_symmetrically()
    ensures partner { (n : ℕ) (independent : List ℕ → Bool) → IsMatroid n independent
        → (A B : List ℕ) (x : ℕ) → IsBase n independent A → IsBase n independent B
        → is_member x A ≡ true → is_member x B ≡ false → HasSymmetricPartner independent A B x }
    ensures size { (n : ℕ) (independent : List ℕ → Bool) → IsMatroid n independent
        → (A B : List ℕ) → IsBase n independent A → independent B ≡ true → length B ≡ length A → IsBase n independent B }
{}

/// A tie decides only among sets of equal main: no independent set of the size of a heaviest one has a greater sum of
/// mains.
pub fn heaviest_by_the_mains()
    ensures { (independent : List ℕ → Bool) (w : ℕ → Weight) (X : List ℕ) → IsHeaviest independent w X
        → (Y : List ℕ) → independent Y ≡ true → length Y ≡ length X
        → sum_of (λ x. (w x).main) Y ≤ℤ sum_of (λ x. (w x).main) X }
{}

/// An independent set that no exchange of one element makes heavier is heaviest of its size (Schrijver, chapter 40).
pub fn locally_heaviest_is_heaviest()
    ensures { (n : ℕ) (independent : List ℕ → Bool) → IsMatroid n independent
        → (w : ℕ → Weight) (I : List ℕ) → IsLocallyHeaviest independent w I → IsHeaviest independent w I }
{}

/// Triangular exchange (Schrijver, chapter 39, on unique perfect matchings of the exchange graph): where of a list of
/// pairs each element x can take the place of its own y in the independent set I, and of no later one, all can be
/// exchanged at once.
pub fn triangular_exchange()
    ensures { (n : ℕ) (independent : List ℕ → Bool) → IsMatroid n independent
        → (I ys xs : List ℕ) → independent I ≡ true → IsTriangular independent I ys xs
        → independent (union xs (minus I ys)) ≡ true }
{}

/// An element is a heaviest one that can be added exactly where it can be added and weighs no less than any element below n that can be
/// added (Frank 1981): so for any exchanges, and for those of a test of independence at a set.
pub fn heaviest_addable_is_not_below()
    ensures exchanges { (n : ℕ) (exchanges : Exchanges) (w : ℕ → Weight) (x : ℕ) → (is_heaviest_addable n exchanges w x ≡ true)
        ↔ ((exchanges.adds x ≡ true) × ((e : ℕ) → e < n → exchanges.adds e ≡ true → ¬ (w x ≺ w e))) }
    ensures at_a_set { (n : ℕ) (independent : List ℕ → Bool) (I : List ℕ) (w : ℕ → Weight) (x : ℕ)
        → (is_heaviest_addable n (exchanges_at independent I) w x ≡ true)
        ↔ ((is_member x I ≡ false) × (independent (with_one I x) ≡ true)
        × ((e : ℕ) → e < n → is_member e I ≡ false → independent (with_one I e) ≡ true → ¬ (w x ≺ w e))) }
{}

/// A cut alone shows that no common independent set is larger (Edmonds' bound; Schrijver, chapter 41): a set that is independent in both
/// matroids has at most as many elements as the rank of any set in the second and the rank of its complement in the first add up to.
pub fn cut_bounds_common_sets()
    ensures ranks { (n : ℕ) (p q : List ℕ → Bool) → IsMatroid n p → IsMatroid n q
        → (A X : List ℕ) → IsSet n A → p X ≡ true → q X ≡ true → length X ≤ rank p (minus (all_below n) A) + rank q A }
    ensures cut { (n : ℕ) (p q : List ℕ → Bool) → IsMatroid n p → IsMatroid n q
        → (k : ℕ) (cut X : List ℕ) → IsCut n p q k cut → p X ≡ true → q X ≡ true → length X ≤ k }
{}
