//! Making a witness.

ghost use Rattle.std.specs.{Prelude.{◌≡◌, ◌+◌, ◌≤◌, true, [], ◌∷◌, length, map, IfOk}, List.{AllZip}};
ghost use Rattle.mat_sets.specs.{Sets.{IsSet, all_below, minus}, Weights.{weight_at}};
ghost use Rattle.mat_laws.specs.{Heaviest.{IsHeaviest}, Ranks.{rank}};
ghost use Rattle.mat_any.specs.{Trees.{element_count, is_independent}, Views.{tree_of}};
ghost use Rattle.mat_cert.specs.{Certificates.{IsRanged}, Views.{certificate_of}};
ghost use Rattle.mat_problem.specs.{Validity.{IsValid}, Views.{instance_of}};
ghost use Rattle.mat_witness.specs.{
  BoundParts.{bound_of, shows_bound},
  Demands.{demand_for},
  Kinds.{has_rung, is_witnessed_pair},
  Making.{AreRungBounds, AreWitnessed, IsFilled, IsMeeting, IsRungWitness, IsSplit, IsWitnessed},
  Parts.{IsBoundFor},
  Shown.{AreBoundsFor, IsRightRungOf, IsShown, IsWitnessFor, bounds_common_sets, demands_under},
  Views.{bound_part, witness_parts},
};

use crate::demands::{Demand, demands_under};
use crate::parts::{bound_for, free_of};
use crate::witness::{Most, Witness};
use mat_any::AnyMatroid;
use mat_cert::{Answer, PricedRung};
use mat_laws::Matroid;
use mat_problem::Problem;
use mat_sets::{ElemSet, Weight};
use std::alloc::{AllocError, Global};

// A part that meets a demand, by the members of the rung's set in the demanded set.
fn demand_bound(
    alloc: Global,
    matroid: &AnyMatroid,
    set: &ElemSet,
    demand: &Demand,
) -> Result<Most, AllocError>
    requires witnessed { IsWitnessed (tree_of matroid.now) }
    requires filled { IsFilled (tree_of matroid.now) set.now (demand_for (tree_of matroid.now) demand.now) }
    ensures { IfOk result (λ part. IsMeeting (element_count (tree_of matroid.now)) (demand_for (tree_of matroid.now) demand.now)
        (bound_part part)) }
{
    let inside = set.among(alloc, &demand.set.to_bits(alloc)?)?;
    bound_for(alloc, matroid, &demand.set, &inside)
}

// Parts that meet the demands of a half under which the rung's set is heaviest of its size.
fn half_bounds(
    alloc: Global,
    matroid: &AnyMatroid,
    k: u32,
    set: &ElemSet,
    half: &[Weight],
) -> Result<Vec<Most>, AllocError>
    requires witnessed { IsWitnessed (tree_of matroid.now) }
    requires size { length set.now ≡ k }
    requires lengths { length half.now ≡ element_count (tree_of matroid.now) }
    requires heaviest { IsHeaviest (is_independent (tree_of matroid.now)) (weight_at half.now) set.now }
    ensures { IfOk result (λ bounds. AllZip (IsMeeting (element_count (tree_of matroid.now)))
        (demands_under (tree_of matroid.now) k set.now half.now) (map bound_part bounds.items)) }
{
    let demands = demands_under(alloc, k, set, half)?;
    let mut bounds = Vec::new(alloc);
    for demand in &demands {
        let bound = demand_bound(alloc, matroid, set, demand)?;
        bounds.push(bound)?;
    }
    Ok(bounds)
}

// A part that bounds the rank of a set by this rank, by a greedy run through the set.
fn rank_bound(alloc: Global, matroid: &AnyMatroid, set: &ElemSet) -> Result<Most, AllocError>
    requires witnessed { IsWitnessed (tree_of matroid.now) }
    requires set { IsSet (element_count (tree_of matroid.now)) set.now }
    ensures part { IfOk result (λ part. IsBoundFor (element_count (tree_of matroid.now)) (tree_of matroid.now) (bound_part part)) }
    ensures shows { IfOk result (λ part. shows_bound (tree_of matroid.now) (bound_part part) set.now ≡ true) }
    ensures number { IfOk result (λ part. bound_of (tree_of matroid.now) (bound_part part) ≤ rank (is_independent (tree_of matroid.now)) set.now) }
{
    let base = matroid.run(alloc, set.as_slice())?;
    bound_for(alloc, matroid, set, &base)
}

// A part for the elements outside the cut in the first matroid, and one for the cut in the second.
fn cut_bounds(
    alloc: Global,
    first: &AnyMatroid,
    second: &AnyMatroid,
    cut: &ElemSet,
) -> Result<(Most, Most), AllocError>
    requires witnessed { AreWitnessed (tree_of first.now) (tree_of second.now) }
    requires set { IsSet (element_count (tree_of first.now)) cut.now }
    ensures parts { IfOk result (λ parts. AreBoundsFor (element_count (tree_of first.now)) (tree_of first.now ∷ tree_of second.now ∷ [])
        (bound_part parts.0 ∷ bound_part parts.1 ∷ [])) }
    ensures bounds { IfOk result (λ parts. bounds_common_sets (tree_of first.now) (tree_of second.now) (element_count (tree_of first.now)) cut.now
        (rank (is_independent (tree_of first.now)) (minus (all_below (element_count (tree_of first.now))) cut.now)
        + rank (is_independent (tree_of second.now)) cut.now) (bound_part parts.0 ∷ bound_part parts.1 ∷ []) ≡ true) }
{
    let rest = ElemSet::all_below(alloc, first.size())?.minus(alloc, cut)?;
    let outside = rank_bound(alloc, first, &rest)?;
    let inside = rank_bound(alloc, second, cut)?;
    Ok((outside, inside))
}

// The bounds of a rung: for each demand of its halves, and for the cut.
fn rung_bounds(
    alloc: Global,
    first: &AnyMatroid,
    second: &AnyMatroid,
    k: u32,
    rung: &PricedRung,
    cut: &ElemSet,
) -> Result<Vec<Most>, AllocError>
    requires witnessed { AreWitnessed (tree_of first.now) (tree_of second.now) }
    requires rung { IsSplit (tree_of first.now) (tree_of second.now) k rung.now }
    requires cut { IsSet (element_count (tree_of first.now)) cut.now }
    ensures { IfOk result (λ bounds. AreRungBounds (tree_of first.now) (tree_of second.now) k rung.now cut.now
        (rank (is_independent (tree_of first.now)) (minus (all_below (element_count (tree_of first.now))) cut.now)
        + rank (is_independent (tree_of second.now)) cut.now) (map bound_part bounds.items)) }
{
    let mut bounds = half_bounds(alloc, first, k, &rung.set, rung.first.as_slice())?;
    let mut others = half_bounds(alloc, second, k, &rung.set, rung.second.as_slice())?;
    bounds.append(&mut others)?;
    let (outside, inside) = cut_bounds(alloc, first, second, cut)?;
    bounds.push(outside)?;
    bounds.push(inside)?;
    Ok(bounds)
}

// A witness for a rung: what shows its set independent in both matroids, and its bounds.
fn rung_witness(
    alloc: Global,
    first: &AnyMatroid,
    second: &AnyMatroid,
    k: u32,
    rung: &PricedRung,
    cut: &ElemSet,
) -> Result<Witness, AllocError>
    requires witnessed { AreWitnessed (tree_of first.now) (tree_of second.now) }
    requires rung { IsSplit (tree_of first.now) (tree_of second.now) k rung.now }
    requires cut { IsSet (element_count (tree_of first.now)) cut.now }
    ensures { IfOk result (λ w. IsRungWitness (tree_of first.now) (tree_of second.now) k rung.now cut.now
        (rank (is_independent (tree_of first.now)) (minus (all_below (element_count (tree_of first.now))) cut.now)
        + rank (is_independent (tree_of second.now)) cut.now) (witness_parts w)) }
{
    let in_first = free_of(alloc, first, &rung.set)?;
    let in_second = free_of(alloc, second, &rung.set)?;
    let bounds = rung_bounds(alloc, first, second, k, rung, cut)?;
    Ok(Witness {
        k,
        first: in_first,
        second: in_second,
        bounds,
    })
}

/// A witness that shows rung k of a right answer to a problem of two matroids of witnessed kinds. The only error is want of memory.
pub fn make_witness(
    alloc: Global,
    problem: &Problem,
    answer: &Answer,
    k: u32,
) -> Result<Witness, AllocError>
    requires valid { IsValid (instance_of problem.now) }
    requires witnessed { is_witnessed_pair (instance_of problem.now) ≡ true }
    requires ranged { IsRanged (certificate_of answer.now) }
    requires rung { has_rung (certificate_of answer.now) k ≡ true }
    requires right { IsRightRungOf (instance_of problem.now) (certificate_of answer.now) k }
    ensures witness { IfOk result (λ w. IsWitnessFor (instance_of problem.now) (certificate_of answer.now) k (witness_parts w)) }
    ensures shown { IfOk result (λ w. IsShown (instance_of problem.now) (certificate_of answer.now) k (witness_parts w)) }
{
    match (problem, answer) {
        (Problem::Pair { first, second, .. }, Answer::Intersect { rungs, cut, .. }) => {
            rung_witness(alloc, first, second, k, &rungs[k as usize], cut)
        }
        _ => unreachable!(),
    }
}
