//! Laws of walks on finitely many vertices, and of the order of weights.
//!
//! `arc u v` says whether an arc leads from u to v, `start v` and `goal v` whether v is a start or a goal; the vertices are the numbers below n.
ghost use Rattle.std.specs.Prelude.{◌≡◌, ◌<◌, ◌⊎◌, ◌↔◌, ℕ, Bool, true, false, List, ◌<ℤ◌};
ghost use Rattle.mat_sets.specs.{
  Sets.{is_member},
  Weights.{◌⊕◌, ◌≺◌, ◌≼◌, is_below, is_same},
  declared.weight.Weight.{Weight},
  Walks.{IsChordless, IsReachedSet, IsShortestWalk, IsWalk},
};

/// Either there is a walk with fewest vertices from a start to a goal, or the set of all vertices that the starts reach
/// has no goal (Schrijver, chapter 6).
pub fn finite_reach()
    ensures { (n : ℕ) (arc : ℕ → ℕ → Bool) (start goal : ℕ → Bool)
        → ((vertices : List ℕ) × IsShortestWalk n arc start goal vertices)
        ⊎ ((reached : List ℕ) × IsReachedSet n arc start reached
        × ((v : ℕ) → is_member v reached ≡ true → goal v ≡ false)) }
{}

/// A walk with fewest vertices has no vertex twice, no start but its first, no goal but its last, and no chord
/// (Schrijver, chapter 6).
pub fn shortest_walk_is_chordless()
    ensures { (n : ℕ) (arc : ℕ → ℕ → Bool) (start goal : ℕ → Bool) (vertices : List ℕ)
        → IsShortestWalk n arc start goal vertices → IsChordless n arc start goal vertices }
{}

/// What holds of each start, and goes from each reached vertex along each arc, holds of the whole reached set.
pub fn reached_by_induction()
    ensures { (n : ℕ) (arc : ℕ → ℕ → Bool) (start test : ℕ → Bool) (reached : List ℕ)
        → IsReachedSet n arc start reached
        → ((v : ℕ) → v < n → start v ≡ true → test v ≡ true)
        → ((u v : ℕ) → is_member u reached ≡ true → v < n → test u ≡ true → arc u v ≡ true → test v ≡ true)
        → (v : ℕ) → is_member v reached ≡ true → test v ≡ true }
{}

/// Where the reached set has no goal, no walk leads from a start to a goal.
pub fn missed_goals_have_no_walk()
    ensures { (n : ℕ) (arc : ℕ → ℕ → Bool) (start goal : ℕ → Bool) (reached vertices : List ℕ)
        → IsReachedSet n arc start reached
        → ((v : ℕ) → is_member v reached ≡ true → goal v ≡ false)
        → ¬ IsWalk n arc start goal vertices }
{}

/// There is exactly one reached set.
pub fn reached_set_is_unique()
    ensures exists { (n : ℕ) (arc : ℕ → ℕ → Bool) (start : ℕ → Bool)
        → (reached : List ℕ) × IsReachedSet n arc start reached }
    ensures unique { (n : ℕ) (arc : ℕ → ℕ → Bool) (start : ℕ → Bool) (one other : List ℕ)
        → IsReachedSet n arc start one → IsReachedSet n arc start other → one ≡ other }
{}

/// One weight is below another exactly where its main is below, or where the mains are equal and its tie is below; it is at most
/// another exactly where the other is not below it; and the tests tell both.
pub fn weights_are_in_lexicographic_order()
    ensures below { (a b : Weight) → (a ≺ b) ↔ ((a.main <ℤ b.main) ⊎ ((a.main ≡ b.main) × (a.tie <ℤ b.tie))) }
    ensures at_most { (a b : Weight) → (a ≼ b) ↔ ¬ (b ≺ a) }
    ensures test { (a b : Weight) → (is_below a b ≡ true) ↔ (a ≺ b) }
    ensures same { (a b : Weight) → (is_same a b ≡ true) ↔ (a ≡ b) }
{}

/// Any two weights can be compared, and sums keep the order.
pub fn weights_are_an_ordered_group()
    ensures total { (a b : Weight) → (a ≼ b) ⊎ (b ≺ a) }
    ensures both { (a b : Weight) → a ≼ b → b ≼ a → a ≡ b }
    ensures chain { (a b c : Weight) → a ≼ b → b ≼ c → a ≼ c }
    ensures sums { (a b c : Weight) → a ≼ b → (a ⊕ c) ≼ (b ⊕ c) }
{}
