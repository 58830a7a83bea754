//! The clauses of a rung.

ghost use Rattle.std.specs.Prelude.{◌≡◌, ◌≤◌, ◌++◌, ◌∷◌, [], length, map, true, IfOk};
ghost use Rattle.mat_sets.specs.{Limits.{largest_number, most_elements}, Sets.{all_below}, Weights.{AreWeightsWithin, weight_at}};
ghost use Rattle.mat_any.specs.{Trees.{element_count, is_independent, IsSound}, Views.{tree_of}};
ghost use Rattle.mat_cert.specs.Certificates.{IsRangedPlainRung, IsRangedPricedRung};
ghost use Rattle.mat_greedy.specs.Greedy.{AreHeaviestWeights};
ghost use Rattle.mat_check.specs.{
  BeatenRungs.{IsJudged},
  Clauses.{first_failure, sum_clause, heaviest_clause, plain_rung_clauses, priced_rung_clauses},
  declared.ladder.halves.Side.TheVariants.{First, Second},
};

use crate::reason::{Failure, Reason};
use crate::sets::searches::is_beaten;
use mat_any::AnyMatroid;
use mat_cert::{PlainRung, PricedRung};
use mat_laws::Matroid;
use mat_sets::{PairWeights, Weight, first_unsplit, weigh};
use std::alloc::{AllocError, Global};

/// Two matroids on the same elements, and the weights of the elements.
#[derive(Drop)]
pub(crate) struct WeightedPair<'a> {
    pub(crate) weights: &'a [Weight],
    pub(crate) first: &'a AnyMatroid,
    pub(crate) second: &'a AnyMatroid,
}

// The first element at which the two parts of rung k don't add up to the weight, as the failure that it is.
fn sum_failure(weights: &[Weight], first: &[Weight], second: &[Weight], k: u32) -> Option<Failure>
    requires few { length weights.now ≤ most_elements }
    requires first { length first.now ≡ length weights.now }
    requires second { length second.now ≡ length weights.now }
    requires first_small { AreWeightsWithin largest_number first.now }
    requires second_small { AreWeightsWithin largest_number second.now }
    ensures { result ≡ first_failure (map (sum_clause weights.now k first.now second.now) (all_below (length weights.now))) }
{
    match first_unsplit(weights, first, second) {
        Some(e) => Some(Reason::Sum.at(k, e)),
        None => None,
    }
}

/// The first clause of rung k of the heaviest independent sets of a matroid that fails, told by the weights of heaviest sets of
/// each size. The only error is want of memory.
pub(crate) fn plain_rung_failure<M: Matroid>(
    alloc: Global,
    m: &M,
    weights: &[Weight],
    heaviest: &PairWeights,
    k: u32,
    rung: &PlainRung,
) -> Result<Option<Failure>, AllocError>
    requires sound { M.sound m.now }
    requires lengths { length weights.now ≡ M.ground_size m.now }
    requires few { length weights.now ≤ most_elements }
    requires small { AreWeightsWithin largest_number weights.now }
    requires heaviest { AreHeaviestWeights (M.ground_size m.now) (M.indep m.now) (weight_at weights.now) heaviest.now }
    requires ranged { IsRangedPlainRung (length weights.now) k rung.now }
    ensures { IfOk result (λ found. found ≡ first_failure (plain_rung_clauses (length weights.now) (M.indep m.now) weights.now k rung.now)) }
{
    if weigh(&rung.set, weights) != rung.weight {
        return Ok(Some(Reason::Weight.at(k, 0)));
    }
    if !m.independent(alloc, &rung.set)? {
        return Ok(Some(Reason::Dependent.at(k, 0)));
    }
    if is_beaten(m, weights, heaviest, &rung.set) {
        return Ok(Some(Reason::Beaten.at(k, 0)));
    }
    Ok(None)
}

// The first clause of the split of rung k that fails, for a set that is independent in both matroids, told by whether it is beaten in each.
fn split_failure(
    pair: &WeightedPair,
    first_beaten: bool,
    second_beaten: bool,
    k: u32,
    rung: &PricedRung,
) -> Option<Failure>
    requires first_lengths { length pair.now.weights.now ≡ element_count (tree_of pair.now.first.now) }
    requires second_lengths { length pair.now.weights.now ≡ element_count (tree_of pair.now.second.now) }
    requires few { length pair.now.weights.now ≤ most_elements }
    requires ranged { IsRangedPricedRung (length pair.now.weights.now) k rung.now }
    requires first_told { IsJudged (element_count (tree_of pair.now.first.now)) (is_independent (tree_of pair.now.first.now)) First rung.now first_beaten }
    requires second_told { IsJudged (element_count (tree_of pair.now.second.now)) (is_independent (tree_of pair.now.second.now)) Second rung.now second_beaten }
    requires first_passes { is_independent (tree_of pair.now.first.now) rung.now.set ≡ true }
    requires second_passes { is_independent (tree_of pair.now.second.now) rung.now.set ≡ true }
    ensures { result ≡ first_failure (
        map (sum_clause pair.now.weights.now k rung.now.first rung.now.second) (all_below (length pair.now.weights.now))
        ++ heaviest_clause (length pair.now.weights.now) (is_independent (tree_of pair.now.first.now)) rung.now.first 0 k rung.now.set
        ∷ heaviest_clause (length pair.now.weights.now) (is_independent (tree_of pair.now.second.now)) rung.now.second 1 k rung.now.set ∷ []) }
{
    let first_half = rung.first.as_slice();
    let second_half = rung.second.as_slice();
    if let Some(failure) = sum_failure(pair.weights, first_half, second_half, k) {
        return Some(failure);
    }
    if first_beaten {
        return Some(Reason::Beaten.at(k, 0));
    }
    if second_beaten {
        return Some(Reason::Beaten.at(k, 1));
    }
    None
}

/// The first clause of rung k of a ladder of two matroids that fails, told by whether its set is beaten in each under its half of the split.
/// The only error is want of memory.
pub(crate) fn priced_rung_failure(
    alloc: Global,
    pair: &WeightedPair,
    first_beaten: bool,
    second_beaten: bool,
    k: u32,
    rung: &PricedRung,
) -> Result<Option<Failure>, AllocError>
    requires first_sound { IsSound (tree_of pair.now.first.now) }
    requires second_sound { IsSound (tree_of pair.now.second.now) }
    requires first_lengths { length pair.now.weights.now ≡ element_count (tree_of pair.now.first.now) }
    requires second_lengths { length pair.now.weights.now ≡ element_count (tree_of pair.now.second.now) }
    requires few { length pair.now.weights.now ≤ most_elements }
    requires small { AreWeightsWithin largest_number pair.now.weights.now }
    requires ranged { IsRangedPricedRung (length pair.now.weights.now) k rung.now }
    requires first_told { IsJudged (element_count (tree_of pair.now.first.now)) (is_independent (tree_of pair.now.first.now)) First rung.now first_beaten }
    requires second_told { IsJudged (element_count (tree_of pair.now.second.now)) (is_independent (tree_of pair.now.second.now)) Second rung.now second_beaten }
    ensures { IfOk result (λ found. found ≡ first_failure (priced_rung_clauses (length pair.now.weights.now)
        (is_independent (tree_of pair.now.first.now)) (is_independent (tree_of pair.now.second.now)) pair.now.weights.now k rung.now)) }
{
    if weigh(&rung.set, pair.weights) != rung.weight {
        return Ok(Some(Reason::Weight.at(k, 0)));
    }
    if !pair.first.independent(alloc, &rung.set)? {
        return Ok(Some(Reason::Dependent.at(k, 0)));
    }
    if !pair.second.independent(alloc, &rung.set)? {
        return Ok(Some(Reason::Dependent.at(k, 1)));
    }
    Ok(split_failure(pair, first_beaten, second_beaten, k, rung))
}
