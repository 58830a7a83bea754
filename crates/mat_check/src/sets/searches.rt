//! Whether a heavier independent set of the same size is there, and whether an element can be added.

ghost use Rattle.std.specs.Prelude.{◌≡◌, ◌≤◌, length, true, IfOk};
ghost use Rattle.mat_sets.specs.{
  Limits.{most_elements, largest_number},
  Sets.{AllBelow},
  Weights.{AreWeightsWithin, is_below, weight, weight_at},
};
ghost use Rattle.mat_laws.specs.Searches.{is_beaten, has_addable};
ghost use Rattle.mat_greedy.specs.Greedy.{AreHeaviestWeights};

use mat_laws::Matroid;
use mat_sets::{ElemSet, PairWeights, Weight, weigh};
use std::alloc::{AllocError, Global};

/// Whether a set weighs less than this.
pub(crate) fn is_lighter(set: &ElemSet, weights: &[Weight], other: Weight) -> bool
    requires inside { AllBelow (length weights.now) set.now }
    requires few { length set.now ≤ most_elements }
    requires small { AreWeightsWithin largest_number weights.now }
    ensures { result ≡ is_below (weight weights.now set.now) other }
{
    weigh(set, weights) < other
}

/// Whether some independent set of as many elements is heavier than an independent set, told by the weights of heaviest sets
/// of each size (Schrijver, chapter 40). No question of independence.
pub(crate) fn is_beaten<M: Matroid>(
    m: &M,
    weights: &[Weight],
    heaviest: &PairWeights,
    set: &ElemSet,
) -> bool
    requires sound { M.sound m.now }
    requires lengths { length weights.now ≡ M.ground_size m.now }
    requires few { length set.now ≤ most_elements }
    requires small { AreWeightsWithin largest_number weights.now }
    requires heaviest { AreHeaviestWeights (M.ground_size m.now) (M.indep m.now) (weight_at weights.now) heaviest.now }
    requires passes { M.indep m.now set.now ≡ true }
    ensures { result ≡ is_beaten (M.ground_size m.now) (M.indep m.now) (weight_at weights.now) set.now }
{
    m.lawful();
    let most = heaviest.get(set.len());
    is_lighter(set, weights, most)
}

/// Whether an element can be added to an independent set. At most as many questions of independence as there are elements. The
/// only error is want of memory.
pub(crate) fn has_addable<M: Matroid>(
    alloc: Global,
    m: &M,
    set: &ElemSet,
) -> Result<bool, AllocError>
    requires sound { M.sound m.now }
    requires below { AllBelow (M.ground_size m.now) set.now }
    ensures { IfOk result (λ b. b ≡ has_addable (M.ground_size m.now) (M.indep m.now) set.now) }
{
    let mut larger = set.copy(alloc)?;
    for x in 0..m.size() {
        if m.add_if_independent(alloc, &mut larger, x)? {
            return Ok(true);
        }
    }
    Ok(false)
}
