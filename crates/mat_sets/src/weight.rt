//! Weights with a second number that breaks ties.
ghost use Rattle.std.specs.{Prelude.{◌≡◌, ◌+ℤ◌, ◌-ℤ◌, neg_ℤ, FitsSigned}, Int.{w128}};
ghost use Rattle.mat_sets.specs.Weights.{◌⊕◌, ◌⊖◌, negated};

use std::ops::{Add, AddAssign, Neg, Sub};

/// A weight. Weights are added number by number, and compared by their mains first and, where these are equal, by their ties.
#[derive(Clone, Copy, Debug, PartialEq, Eq, PartialOrd, Ord)]
pub struct Weight {
    /// What is compared first.
    pub main: i128,
    /// What is compared where the mains are equal.
    pub tie: i128,
}

impl Weight {
    /// No weight.
    pub const ZERO: Weight = Weight { main: 0, tie: 0 };
}

impl Add for Weight {
    type Output = Weight;

    ghost can_add = { λ a b. FitsSigned w128 (a.main +ℤ b.main) × FitsSigned w128 (a.tie +ℤ b.tie) };

    ghost add_gives = { λ a b r. r ≡ a ⊕ b };

    fn add(self, other: Weight) -> Weight {
        Weight {
            main: self.main + other.main,
            tie: self.tie + other.tie,
        }
    }
}

impl AddAssign for Weight {
    ghost can_add_assign = { λ a b. FitsSigned w128 (a.main +ℤ b.main) × FitsSigned w128 (a.tie +ℤ b.tie) };

    ghost add_assign_gives = { λ a b r. r ≡ a ⊕ b };

    fn add_assign(&mut self, other: Weight) {
        *self = *self + other;
    }
}

impl Sub for Weight {
    type Output = Weight;

    ghost can_sub = { λ a b. FitsSigned w128 (a.main -ℤ b.main) × FitsSigned w128 (a.tie -ℤ b.tie) };

    ghost sub_gives = { λ a b r. r ≡ a ⊖ b };

    fn sub(self, other: Weight) -> Weight {
        Weight {
            main: self.main - other.main,
            tie: self.tie - other.tie,
        }
    }
}

impl Neg for Weight {
    type Output = Weight;

    ghost can_neg = { λ a. FitsSigned w128 (neg_ℤ a.main) × FitsSigned w128 (neg_ℤ a.tie) };

    ghost neg_gives = { λ a r. r ≡ negated a };

    fn neg(self) -> Weight {
        Weight {
            main: -self.main,
            tie: -self.tie,
        }
    }
}
