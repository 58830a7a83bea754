//! Laws of exchanges at sets that two matroids have in common. Each law is the contract of a function that does nothing.

ghost use Rattle.std.specs.Prelude.{◌≡◌, ℕ, suc, List, Bool, true, length};
ghost use Rattle.mat_sets.specs.{Sets.{IsSet}, Walks.{IsWalk}, declared.weight.Weight.{Weight}};
ghost use Rattle.mat_laws.specs.{
  Matroids.{IsMatroid},
  Exchanges.{rows_of},
  Heaviest.{IsHeaviest},
  TightPaths.{Exchanges, exchanges_at, exchanges_in, exchanged_along, is_heaviest_addable, is_tight, IsTightPath, IsStuckReach},
  Slacks.{IsSlack, IsLeastSlack},
  Ladders.{IsCut},
};
ghost use Rattle.mat_exchange.specs.{Changes.{IsChange}, Growing.{NoExchangeGains}};

/// Exchanging along a tight path with fewest vertices gives a set of one element more that is heaviest of its size in both matroids
/// under the same weights (Frank 1981).
#[tactic(auto, using(crate::proofs::TightPathSteps::exchange_along_tight_path))]
pub fn exchange_along_tight_path()
    ensures { (n : ℕ) (p q : List ℕ → Bool) → IsMatroid n p → IsMatroid n q → (w1 w2 : ℕ → Weight) (I path : List ℕ)
        → IsHeaviest p w1 I → IsHeaviest q w2 I → IsTightPath n (exchanges_at p I) (exchanges_at q I) w1 w2 path
        → (length (exchanged_along I path) ≡ suc (length I))
        × IsHeaviest p w1 (exchanged_along I path) × IsHeaviest q w2 (exchanged_along I path) }
{}

/// Where no sink is among what the sources reach, no walk along tight arcs leads from a source to a sink, whatever its length (Frank 1981).
pub fn stuck_reach_has_no_path()
    ensures { (n : ℕ) (first second : Exchanges) (w1 w2 : ℕ → Weight) (R path : List ℕ) → IsStuckReach n first second w1 w2 R
        → ¬ IsWalk n (is_tight first second w1 w2) (is_heaviest_addable n first w1) (is_heaviest_addable n second w2) path }
{}

/// Where no sink is among what the sources reach, the change of the weights by the least slack keeps the set heaviest of its size
/// in both matroids, what was reached stays reached, and every later search that again finds no path reaches more (Frank 1981).
pub fn change_by_least_slack()
    ensures { (n : ℕ) (p q : List ℕ → Bool) → IsMatroid n p → IsMatroid n q → (w1 w2 : ℕ → Weight) (I R : List ℕ) (d : Weight)
        → IsHeaviest p w1 I → IsHeaviest q w2 I → IsStuckReach n (exchanges_at p I) (exchanges_at q I) w1 w2 R
        → IsLeastSlack n (exchanges_at p I) (exchanges_at q I) w1 w2 R d → IsChange n p q w1 w2 I R d }
{}

/// A set R that has no slack at a common independent set I is a cut: the rank of R in the second matroid and the rank of its complement
/// in the first add up to the size of I, so that no common independent set is larger (Edmonds; Frank 1981).
pub fn cut_without_slack()
    ensures { (n : ℕ) (p q : List ℕ → Bool) → IsMatroid n p → IsMatroid n q → (w1 w2 : ℕ → Weight) (I R : List ℕ)
        → p I ≡ true → q I ≡ true → IsSet n R
        → ((d : Weight) → IsSlack n (exchanges_at p I) (exchanges_at q I) w1 w2 R d → ⊥) → IsCut n p q (length I) R }
{}

/// The rows of all elements at an independent set tell its exchanges.
pub fn rows_tell_exchanges()
    ensures { (n : ℕ) (independent : List ℕ → Bool) → IsMatroid n independent
        → (I : List ℕ) → independent I ≡ true → exchanges_in (rows_of n independent I) ≡ exchanges_at independent I }
{}

/// A set is heaviest of its size where and only where no exchange of its rows makes it heavier.
pub fn heaviest_by_exchanges()
    ensures heaviest { (n : ℕ) (independent : List ℕ → Bool) → IsMatroid n independent → (w : ℕ → Weight) (I : List ℕ)
        → independent I ≡ true → NoExchangeGains (exchanges_in (rows_of n independent I)) w → IsHeaviest independent w I }
    ensures gains { (n : ℕ) (independent : List ℕ → Bool) → IsMatroid n independent → (w : ℕ → Weight) (I : List ℕ)
        → IsHeaviest independent w I → NoExchangeGains (exchanges_in (rows_of n independent I)) w }
{}
