//! Verifying a witness.

ghost use Rattle.std.specs.Prelude.{◌≡◌, ◌≤◌, not, if◌then◌else◌, nat_lt, true, drop, length, map, IfOk, Some, None};
ghost use Rattle.mat_sets.specs.{Limits.{most_elements}, Sets.{IsSet}};
ghost use Rattle.mat_any.specs.{Trees.{element_count, IsSound}, Views.{tree_of}};
ghost use Rattle.mat_cert.specs.{Certificates.{intersect, IsRanged, IsRangedLadder}, Views.{certificate_of}};
ghost use Rattle.mat_problem.specs.{Validity.{IsValid, IsValidTree}, Instances.{pair}, Soundness.{IsSoundInstance}, Views.{instance_of}};
ghost use Rattle.mat_witness.specs.{
  Kinds.{has_rung, is_witnessed_pair},
  Parts.{IsFreeFor},
  Shown.{AreBoundsFor, are_met, bounded_trees, bounds_common_sets, demands_of, shows_common_set, rung_at, IsWitness, IsWitnessFor, failing_part},
  Views.{bound_part, free_part, witness_parts},
};

mod bounds;
mod free;
mod met;
mod priced;

use crate::bound_rows::bounds_behind;
use crate::witness::{Most, Witness};
use free::shows_free;
use mat_any::AnyMatroid;
use mat_cert::{Answer, PricedRung};
use mat_problem::Problem;
use mat_sets::{ElemSet, Weight};
use met::{bounds_common_sets, met_under};
use priced::is_priced;
use std::alloc::{AllocError, Global};

// Whether the parts of a witness show that a set is independent in both matroids.
fn shows_common_set(
    alloc: Global,
    first: &AnyMatroid,
    second: &AnyMatroid,
    witness: &Witness,
    set: &ElemSet,
) -> Result<bool, AllocError>
    requires first_sound { IsSound (tree_of first.now) }
    requires second_sound { IsSound (tree_of second.now) }
    requires first_set { IsSet (element_count (tree_of first.now)) set.now }
    requires second_set { IsSet (element_count (tree_of second.now)) set.now }
    requires first_part { IsFreeFor (element_count (tree_of first.now)) (length set.now) (tree_of first.now) (free_part witness.now.first) }
    requires second_part { IsFreeFor (element_count (tree_of second.now)) (length set.now) (tree_of second.now) (free_part witness.now.second) }
    ensures { IfOk result (λ free. free ≡ shows_common_set (tree_of first.now) (tree_of second.now) (witness_parts witness.now) set.now) }
{
    if !shows_free(alloc, first, &witness.first, set)? {
        return Ok(false);
    }
    shows_free(alloc, second, &witness.second, set)
}

// Of the two parts that bound ranks, the number of the first that fails, and None where both hold: 3 where a bound doesn't meet what is
// demanded for a half of the rung, and 4 where the two bounds behind those don't show that no common independent set has more than `last`
// elements.
fn failing_bounds(
    alloc: Global,
    first: &AnyMatroid,
    second: &AnyMatroid,
    k: u32,
    rung: &PricedRung,
    cut: &ElemSet,
    last: usize,
    parts: &[Most],
) -> Result<Option<u32>, AllocError>
    requires few { element_count (tree_of first.now) ≤ most_elements }
    requires same { element_count (tree_of second.now) ≡ element_count (tree_of first.now) }
    requires first_sound { IsSound (tree_of first.now) }
    requires second_sound { IsSound (tree_of second.now) }
    requires first_valid { IsValidTree (element_count (tree_of first.now)) (tree_of first.now) }
    requires second_valid { IsValidTree (element_count (tree_of second.now)) (tree_of second.now) }
    requires first_half { length rung.now.first ≡ element_count (tree_of first.now) }
    requires second_half { length rung.now.second ≡ element_count (tree_of first.now) }
    requires cut { IsSet (element_count (tree_of first.now)) cut.now }
    requires parts { AreBoundsFor (element_count (tree_of first.now)) (bounded_trees (tree_of first.now) (tree_of second.now) k rung.now)
        (map bound_part parts.now) }
    ensures { IfOk result (λ found. found
        ≡ (if not (are_met (demands_of (tree_of first.now) (tree_of second.now) k rung.now) (map bound_part parts.now)) then Some 3 else
        (if not (bounds_common_sets (tree_of first.now) (tree_of second.now) (element_count (tree_of first.now)) cut.now last
        (drop (length (demands_of (tree_of first.now) (tree_of second.now) k rung.now)) (map bound_part parts.now))) then Some 4 else
        None))) }
{
    let Some(firsts) = met_under(alloc, first, k, &rung.set, rung.first.as_slice(), parts)? else {
        return Ok(Some(3));
    };
    let rest = bounds_behind(parts, firsts);
    let Some(seconds) = met_under(alloc, second, k, &rung.set, rung.second.as_slice(), rest)? else {
        return Ok(Some(3));
    };
    let last_two = bounds_behind(rest, seconds);
    if bounds_common_sets(alloc, first, second, cut, last, last_two)? {
        Ok(None)
    } else {
        Ok(Some(4))
    }
}

// The number of the first part that fails, for two matroids and a ladder that has rung k.
fn failing_part(
    alloc: Global,
    weights: &[Weight],
    first: &AnyMatroid,
    second: &AnyMatroid,
    count: u32,
    rungs: &[PricedRung],
    cut: &ElemSet,
    k: u32,
    witness: &Witness,
) -> Result<Option<u32>, AllocError>
    requires valid { IsValid (pair weights.now (tree_of first.now) (tree_of second.now)) }
    requires sound { IsSoundInstance (pair weights.now (tree_of first.now) (tree_of second.now)) }
    requires ranged { IsRangedLadder count rungs.now cut.now }
    requires rung { nat_lt k (length rungs.now) ≡ true }
    requires witness { IsWitness (length weights.now) (tree_of first.now) (tree_of second.now) k (rung_at rungs.now k) (witness_parts witness.now) }
    ensures { IfOk result (λ part. part ≡ failing_part (pair weights.now (tree_of first.now) (tree_of second.now))
        (intersect count rungs.now cut.now) k (witness_parts witness.now)) }
{
    let rung = &rungs[k as usize];
    if !is_priced(weights, count, rung) {
        return Ok(Some(1));
    }
    if !shows_common_set(alloc, first, second, witness, &rung.set)? {
        return Ok(Some(2));
    }
    failing_bounds(
        alloc,
        first,
        second,
        k,
        rung,
        cut,
        rungs.len() - 1,
        witness.bounds.as_slice(),
    )
}

/// Whether a witness shows rung k of an answer to a problem: None where it does, and else the number of the first part that fails. 1: the
/// answer's number of elements, the weight of the rung's set and its split; 2: that the set is independent in both matroids; 3: that it is
/// heaviest of its size under both halves; 4: that no common independent set has more elements than the last rung's. The only error is
/// want of memory.
pub fn verify(
    alloc: Global,
    problem: &Problem,
    answer: &Answer,
    k: u32,
    witness: &Witness,
) -> Result<Option<u32>, AllocError>
    requires valid { IsValid (instance_of problem.now) }
    requires witnessed { is_witnessed_pair (instance_of problem.now) ≡ true }
    requires ranged { IsRanged (certificate_of answer.now) }
    requires rung { has_rung (certificate_of answer.now) k ≡ true }
    requires witness { IsWitnessFor (instance_of problem.now) (certificate_of answer.now) k (witness_parts witness.now) }
    ensures { IfOk result (λ part. part ≡ failing_part (instance_of problem.now) (certificate_of answer.now) k (witness_parts witness.now)) }
{
    match (problem, answer) {
        (
            Problem::Pair {
                weights,
                first,
                second,
            },
            Answer::Intersect { count, rungs, cut },
        ) => failing_part(
            alloc,
            weights.as_slice(),
            first,
            second,
            *count,
            rungs.as_slice(),
            cut,
            k,
            witness,
        ),
        _ => Ok(Some(1)),
    }
}
