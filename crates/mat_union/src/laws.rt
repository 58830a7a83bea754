//! Laws of unions, for every list of tests that obey the laws of a matroid. Each law is the contract of a function that does nothing.

ghost use Rattle.std.specs.Prelude.{◌≡◌, ◌≤◌, ◌+◌, ℕ, List, Bool, true, false, length};
ghost use Rattle.mat_sets.specs.{
  Families.{family_union},
  declared.weight.Weight.{Weight},
  Sets.{is_member, IsRising, IsSubset, with_one, minus, intersection},
};
ghost use Rattle.mat_laws.specs.{declared.exchange.Exchange.{Exchange}, Exchanges.{row_of}, Matroids.{IsMatroid}};
ghost use Rattle.mat_union.specs.{
  MoveGraphs.{AreMovable, AreRowsAt},
  Moves.{exchanges_of, is_free, row_found, AreMoved, IsMoves, IsShortestMovePath, IsStuck},
  RightUnions.{IsBestUnion, IsRightUnion},
  Unions.{ranks_sum, union_test, AreMatroids, AreParts, IsInUnion},
  declared.best.Level.{Level},
  declared.moves.Move.{Move},
  declared.moves.Moves.{Moves},
};

/// The test of the union holds of a set exactly where there are pairwise disjoint sets, one for each matroid and the i-th independent in
/// the i-th, that together are the set (Schrijver, chapter 42).
pub fn union_means_parts()
    ensures holds { (n : ℕ) (tests : List (List ℕ → Bool)) → AreMatroids n tests → (X : List ℕ) → IsInUnion tests X → union_test n tests X ≡ true }
    ensures only { (n : ℕ) (tests : List (List ℕ → Bool)) → AreMatroids n tests → (X : List ℕ) → union_test n tests X ≡ true → IsInUnion tests X }
{}

/// No disjoint independent sets, one for each matroid, hold more members of a set F than a cut of F allows. A cut is a subset A of F: it allows
/// as many members as F has outside A, and as many more as the ranks of A in all matroids add up to (Schrijver, chapter 42).
pub fn cut_bounds_parts()
    ensures { (n : ℕ) (tests : List (List ℕ → Bool)) → AreMatroids n tests → (parts : List (List ℕ)) → AreParts tests parts
        → (F A : List ℕ) → IsRising F → IsRising A → IsSubset A F
        → length (intersection (family_union parts) F) ≤ length (minus F A) + ranks_sum tests A }
{}

/// Where each list has the rows of the elements of within at its part, along a move path with fewest moves all elements can move at once:
/// the new parts are disjoint and independent, and hold the old elements and the first element of the path (Schrijver, chapter 42).
pub fn moves_keep_independence()
    ensures { (n : ℕ) (tests : List (List ℕ → Bool)) → AreMatroids n tests → (parts : List (List ℕ)) → AreParts tests parts
        → (rows : List (List Exchange)) (within : List ℕ) → AreMovable n rows parts within → AreRowsAt tests parts within rows
        → (moves : List Move) → IsShortestMovePath (length rows) (exchanges_of rows) (is_free parts within) moves
        → (new : List (List ℕ)) × AreMoved tests parts moves new }
{}

/// With such rows a search for moves that is stuck gives a cut (Schrijver, chapter 42).
pub fn stuck_gives_cut()
    ensures { (n : ℕ) (tests : List (List ℕ → Bool)) → AreMatroids n tests → (parts : List (List ℕ)) → AreParts tests parts
        → (rows : List (List Exchange)) (within : List ℕ) → AreMovable n rows parts within → AreRowsAt tests parts within rows
        → (reach : List ℕ) → IsStuck n (length rows) (exchanges_of rows) (is_free parts within) reach
        → length (family_union parts) ≡ length (minus within reach) + ranks_sum tests reach }
{}

/// The union of matroids is a matroid (Schrijver, chapter 42).
pub fn union_is_matroid()
    ensures { (n : ℕ) (tests : List (List ℕ → Bool)) → AreMatroids n tests → IsMatroid n (union_test n tests) }
{}

/// The exchanges of an element at an independent set of the union, by one search for moves from parts of the set within the set and the
/// element: where there is a path, the element can be added and takes any place; else it takes the places that are reached.
pub fn search_tells_exchanges()
    ensures { (n : ℕ) (tests : List (List ℕ → Bool)) → AreMatroids n tests → (parts : List (List ℕ)) → AreParts tests parts
        → (rows : List (List Exchange)) (x : ℕ) → is_member x (family_union parts) ≡ false
        → AreMovable n rows parts (with_one (family_union parts) x) → AreRowsAt tests parts (with_one (family_union parts) x) rows
        → (moves : Moves) → IsMoves n (length rows) (exchanges_of rows) (is_free parts (with_one (family_union parts) x)) moves
        → row_found (family_union parts) moves ≡ row_of (union_test n tests) (family_union parts) x }
{}

/// Parts with a cut for each weight are best: no disjoint independent sets hold more elements, and those that hold as many weigh at most as
/// much (Schrijver, chapter 42).
pub fn levels_show_best()
    ensures { (n : ℕ) (tests : List (List ℕ → Bool)) → AreMatroids n tests → (w : List Weight) → length w ≡ n
        → (parts : List (List ℕ)) (levels : List Level) → IsRightUnion n tests w parts levels → IsBestUnion tests w parts }
{}
