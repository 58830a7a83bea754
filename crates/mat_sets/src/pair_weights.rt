//! Weights of elements with ties, and the weight of a set.
ghost use Rattle.std.specs.{
  Prelude.{◌≡◌, ◌<◌, ◌≤◌, length, slice_index_or},
  Cmp.Lexicographic.{pointwise},
  Cmp.Rules.{comparing},
  Ordering.{eq_of_both, int_eq, on},
};
ghost use Rattle.std.proofs.Common.{rules};
ghost use Rattle.mat_sets.specs.{
  Limits.{largest_number, most_elements},
  Sets.{AllBelow, IsRising},
  Weights.{zero_weight, weight, AreWeightsWithin},
};

use crate::elem_set::ElemSet;
use crate::weight::Weight;
use std::marker::Model;

/// A list of weights, one for each element.
#[derive(Debug, Drop)]
pub struct PairWeights {
    items: Vec<Weight>,
}

impl Model for PairWeights {
    ghost use Rattle.std.specs.Prelude.{List};
    ghost use Rattle.mat_sets.specs.declared.weight.Weight.{Weight};

    ghost Value = { List Weight };

    ghost view = { λ a. a.items.items };
}

impl PartialEq for PairWeights {
    ghost eq = { pointwise (eq_of_both (on (λ a. a.main) int_eq) (on (λ a. a.tie) int_eq)) };

    ghost laws = { Prim.search (comparing, rules) };

    fn eq(&self, other: &PairWeights) -> bool {
        self.items.as_slice() == other.items.as_slice()
    }
}

impl Eq for PairWeights {
    ghost laws = { Prim.search (comparing, rules) };
}

impl PairWeights {
    /// The list of these weights. It takes no memory.
    pub fn new(items: Vec<Weight>) -> PairWeights
        ensures { result ≡ items.items }
    {
        PairWeights { items }
    }

    /// How many weights there are.
    pub fn len(&self) -> usize
        ensures { result ≡ length self.now }
    {
        self.items.len()
    }

    /// The weight of element i.
    pub fn get(&self, i: usize) -> Weight
        requires { i < length self.now }
        ensures { result ≡ slice_index_or self.now i zero_weight }
    {
        self.items[i]
    }

    /// The weights in order.
    pub fn as_slice(&self) -> &[Weight]
        ensures { result.now ≡ self.now }
    {
        self.items.as_slice()
    }
}

/// The sum of the weights of the members: at most 500 members, both numbers of each weight within ±10^30. One pass; it takes no
/// memory.
#[tactic(auto, using(crate::proofs::Sums::summing))]
pub fn weigh(set: &ElemSet, weights: &[Weight]) -> Weight
    requires inside { AllBelow (length weights.now) set.now }
    requires few { length set.now ≤ most_elements }
    requires small { AreWeightsWithin largest_number weights.now }
    ensures sum { result ≡ weight weights.now set.now }
    ensures rises { IsRising set.now }
{
    let mut sum = Weight::ZERO;
    for x in set.as_slice() {
        sum += weights[*x as usize];
    }
    sum
}
