//! The clauses of a union of matroids.

ghost use Rattle.std.specs.Prelude.{◌≡◌, ◌≤◌, ◌∷◌, [], All, length, map, IfOk};
ghost use Rattle.mat_sets.specs.{
  Limits.{most_elements, largest_number, most_matroids},
  Sets.{IsSet},
  Weights.{AreWeightsWithin, is_same, weight},
  FallingWeights.{falling_weights},
};
ghost use Rattle.mat_union.specs.{GrownParts.{AreSound}, Unions.{test_at}};
ghost use Rattle.mat_cert.specs.Certificates.{IsRangedUnion};
ghost use Rattle.mat_check.specs.{Clauses.{first_failure, numbered_clauses}, SetClauses.{independent_clause, union_clauses}};

use crate::reason::{Failure, Reason};
use crate::sets::families::{dependent_failure, overlap_failure};
use crate::sets::levels::{Joined, levels_failure};
use mat_cert::LevelLine;
use mat_laws::Matroid;
use mat_sets::{ElemSet, Weight, weigh};
use mat_union::members_of;
use std::alloc::{AllocError, Global};

// The first part that is dependent in its matroid, as the failure that it is.
fn parts_failure<M: Matroid>(
    alloc: Global,
    matroids: &[M],
    _size: u32,
    parts: &[ElemSet],
) -> Result<Option<Failure>, AllocError>
    requires sound { AreSound M.ground_size M.sound _size matroids.now }
    requires one_each { length parts.now ≡ length matroids.now }
    requires few { length parts.now ≤ most_matroids }
    requires parts { All (IsSet _size) parts.now }
    ensures { IfOk result (λ found. found
        ≡ first_failure (numbered_clauses (λ i part. independent_clause (test_at (map M.indep matroids.now) i) i part ∷ []) 0 parts.now)) }
{
    for i in 0..parts.len() {
        if let Some(failure) = dependent_failure(alloc, &matroids[i], i as u32, &parts[i])? {
            return Ok(Some(failure));
        }
    }
    Ok(None)
}

// Whether a printed weight is that of a set.
fn is_weight_of(weights: &[Weight], all: &ElemSet, printed: Weight) -> bool
    requires few { length weights.now ≤ most_elements }
    requires small { AreWeightsWithin largest_number weights.now }
    requires set { IsSet (length weights.now) all.now }
    ensures { result ≡ is_same printed (weight weights.now all.now) }
{
    printed == weigh(all, weights)
}

/// The first clause of a union of matroids that fails: a question of independence for each part, and for each level a rank in each
/// matroid. The only error is want of memory.
pub(crate) fn union_failure<M: Matroid>(
    alloc: Global,
    matroids: &[M],
    weights: &[Weight],
    printed: Weight,
    parts: &[ElemSet],
    levels: &[LevelLine],
) -> Result<Option<Failure>, AllocError>
    requires sound { AreSound M.ground_size M.sound (length weights.now) matroids.now }
    requires small { AreWeightsWithin largest_number weights.now }
    requires ranged { IsRangedUnion (length weights.now) printed parts.now levels.now }
    requires one_each { length parts.now ≡ length matroids.now }
    requires levels { length levels.now ≡ length (falling_weights weights.now) }
    ensures { IfOk result (λ found. found
        ≡ first_failure (union_clauses (length weights.now) (map M.indep matroids.now) weights.now printed parts.now levels.now)) }
{
    let n = weights.len() as u32;
    if let Some(failure) = overlap_failure(n, parts) {
        return Ok(Some(failure));
    }
    if let Some(failure) = parts_failure(alloc, matroids, n, parts)? {
        return Ok(Some(failure));
    }
    let all = members_of(alloc, parts)?;
    if !is_weight_of(weights, &all, printed) {
        return Ok(Some(Reason::Weight.at(0, 0)));
    }
    let joined = Joined {
        matroids,
        weights,
        parts,
        all: &all,
    };
    levels_failure(alloc, &joined, levels)
}
