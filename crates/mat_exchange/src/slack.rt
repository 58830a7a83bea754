//! The least slack of a reached set.
ghost use Rattle.std.specs.Prelude.{◌≡◌, ◌<◌, ◌≤◌, ◌&&◌, ℕ, true, not, nat_lt, length, IfOk, IfSome};
ghost use Rattle.mat_sets.specs.{
  Limits.{largest_number, most_elements},
  Sets.{is_member, AllBelow},
  Weights.{◌⊖◌, weight_at, IsWeightWithin, AreWeightsWithin},
};
ghost use Rattle.mat_laws.specs.{TightPaths.{exchanges_in}, Slacks.{IsLeastSlackOrNone}};
ghost use Rattle.mat_exchange.specs.{
  Growing.{excess_of},
  SlackParts.{IsAdditionSlack, IsExchangeSlackAt, IsExchangeSlack, IsLeastOrNone, lesser_of},
};

use crate::heaviest_addable::heaviest_addable;
use crate::heaviest_members::heaviest_common;
use crate::row_table::RowTable;
use mat_sets::{BitSet, ElemSet, Weight};
use std::alloc::{AllocError, Global};

/// The lesser of two weights, where there are any.
fn lesser(a: Option<Weight>, b: Option<Weight>) -> Option<Weight>
    ensures { result ≡ lesser_of a b }
{
    match (a, b) {
        (Some(x), Some(y)) => Some(if y < x { y } else { x }),
        (Some(x), None) => Some(x),
        (None, _) => b,
    }
}

/// By how much one weight exceeds another.
pub(crate) fn excess(weight: Weight, other: Weight) -> Weight
    requires small { IsWeightWithin largest_number weight }
    requires other_small { IsWeightWithin largest_number other }
    ensures { result ≡ weight ⊖ other }
{
    weight - other
}

/// By how much one weight exceeds another, where there are both.
pub(crate) fn excess_or_none(weight: Option<Weight>, other: Option<Weight>) -> Option<Weight>
    requires small { IfSome weight (IsWeightWithin largest_number) }
    requires other_small { IfSome other (IsWeightWithin largest_number) }
    ensures { result ≡ excess_of weight other }
{
    Some(excess(weight?, other?))
}

/// By how much a heaviest addable element outweighs the heaviest addable element of a set.
fn addition_slack(table: &RowTable, into: &BitSet, weights: &[Weight]) -> Option<Weight>
    requires few { length weights.now ≤ most_elements }
    requires count { length table.now ≡ length weights.now }
    requires small { AreWeightsWithin largest_number weights.now }
    requires below { (x : ℕ) → is_member x into.now ≡ true → x < length weights.now }
    ensures { IsLeastOrNone (IsAdditionSlack (length weights.now) (exchanges_in table.now) (weight_at weights.now) into.now) result }
{
    let most = heaviest_addable(table, weights)?;
    let x = heaviest_common(table.addable_elements(), into, weights)?;
    Some(excess(most, weights[x as usize]))
}

/// By how much y, where it is in one set, outweighs the heaviest element of another that can be exchanged for it. The only error is want
/// of memory.
fn exchange_slack_at(
    alloc: Global,
    table: &RowTable,
    y: u32,
    from: &BitSet,
    into: &BitSet,
    weights: &[Weight],
) -> Result<Option<Weight>, AllocError>
    requires few { length weights.now ≤ most_elements }
    requires count { length table.now ≡ length weights.now }
    requires small { AreWeightsWithin largest_number weights.now }
    requires below { (x : ℕ) → is_member x into.now ≡ true → x < length weights.now }
    requires replaced { y < length weights.now }
    ensures { IfOk result (IsLeastOrNone (IsExchangeSlackAt y (exchanges_in table.now) (weight_at weights.now) from.now into.now)) }
{
    if !from.contains(y) {
        return Ok(None);
    }
    let column = table.column(alloc, y)?;
    let Some(x) = heaviest_common(&column, into, weights) else {
        return Ok(None);
    };
    Ok(Some(excess(weights[y as usize], weights[x as usize])))
}

/// The least of these over all y. The only error is want of memory.
fn exchange_slack(
    alloc: Global,
    table: &RowTable,
    from: &BitSet,
    into: &BitSet,
    weights: &[Weight],
) -> Result<Option<Weight>, AllocError>
    requires few { length weights.now ≤ most_elements }
    requires count { length table.now ≡ length weights.now }
    requires small { AreWeightsWithin largest_number weights.now }
    requires below { (x : ℕ) → is_member x into.now ≡ true → x < length weights.now }
    ensures { IfOk result (IsLeastOrNone (IsExchangeSlack (length weights.now) (exchanges_in table.now) (weight_at weights.now) from.now into.now)) }
{
    let mut least = None;
    for y in 0..weights.len() as u32 {
        let slack = exchange_slack_at(alloc, table, y, from, into, weights)?;
        least = lesser(least, slack);
    }
    Ok(least)
}

/// The numbers below n that are not in a set, as bits.
#[tactic(auto, using(crate::proofs::SlackParts::rest_members))]
fn bits_of_others(alloc: Global, n: u32, set: &ElemSet) -> Result<BitSet, AllocError>
    ensures { IfOk result (λ bits. (x : ℕ) → is_member x bits ≡ (nat_lt x n && not (is_member x set.now))) }
{
    Ok(
        ElemSet::all_below(alloc, n)?
            .minus(alloc, set)?
            .to_bits(alloc)?,
    )
}

/// The least slack of a reached set, or none (Frank 1981; Schrijver, chapter 41). An exchange in the first matroid leads from a
/// reached element to one that is not, and one in the second from one that is not to a reached one. The time is at most that of the pairs of
/// elements. The only error is want of memory.
pub(crate) fn least_slack(
    alloc: Global,
    first: &RowTable,
    second: &RowTable,
    reach: &ElemSet,
    w1: &[Weight],
    w2: &[Weight],
) -> Result<Option<Weight>, AllocError>
    requires few { length w1.now ≤ most_elements }
    requires lengths { length w2.now ≡ length w1.now }
    requires first_count { length first.now ≡ length w1.now }
    requires second_count { length second.now ≡ length w1.now }
    requires below { AllBelow (length w1.now) reach.now }
    requires first_small { AreWeightsWithin largest_number w1.now }
    requires second_small { AreWeightsWithin largest_number w2.now }
    ensures { IfOk result (IsLeastSlackOrNone (length w1.now) (exchanges_in first.now) (exchanges_in second.now)
        (weight_at w1.now) (weight_at w2.now) reach.now) }
{
    let n = w1.len() as u32;
    let reached = reach.to_bits(alloc)?;
    let others = bits_of_others(alloc, n, reach)?;
    let leaving = exchange_slack(alloc, first, &reached, &others, w1)?;
    let first_slack = lesser(addition_slack(first, &others, w1), leaving);
    let entering = exchange_slack(alloc, second, &others, &reached, w2)?;
    let second_slack = lesser(entering, addition_slack(second, &reached, w2));
    Ok(lesser(first_slack, second_slack))
}
