//! The clauses of answers about matroids: about a pair, about a list, and about a list of one.

ghost use Rattle.std.specs.Prelude.{◌≡◌, ◌∷◌, [], true, false, map, IfOk};
ghost use Rattle.mat_any.specs.Views.{tree_of};
ghost use Rattle.mat_work.specs.Workers.{AreWorkers};
ghost use Rattle.mat_cert.specs.{Certificates.{IsRanged}, Views.{certificate_of}};
ghost use Rattle.mat_check.specs.{AnswerClauses.{answer_clauses, has_header}, Clauses.{first_failure}, Fitting.{is_union}};
ghost use Rattle.mat_problem.specs.{Validity.{IsValid}, Instances.{pair, list}, Soundness.{IsSoundInstance}};

use crate::ladder::rung::WeightedPair;
use crate::ladder::{best_failure, ladder_failure};
use crate::reason::Failure;
use crate::sets::coverings::{cover_failure, loop_failure};
use crate::sets::packings::{no_rank_failure, pack_failure};
use crate::sets::unions::union_failure;
use crate::workers::CheckWorkers;
use mat_any::AnyMatroid;
use mat_cert::Answer;
use mat_sets::Weight;
use std::alloc::{AllocError, Global};

/// The first clause behind the header of an answer about a pair of matroids that fails. The only error is want of memory.
pub(crate) fn pair_failure<R: CheckWorkers>(
    rt: &R,
    alloc: Global,
    both: &WeightedPair,
    answer: &Answer,
    workers: u32,
) -> Result<Option<Failure>, AllocError>
    requires shared { R.shared rt.now }
    requires valid { IsValid (pair both.now.weights.now (tree_of both.now.first.now) (tree_of both.now.second.now)) }
    requires sound { IsSoundInstance (pair both.now.weights.now (tree_of both.now.first.now) (tree_of both.now.second.now)) }
    requires ranged { IsRanged (certificate_of answer.now) }
    requires header { has_header (pair both.now.weights.now (tree_of both.now.first.now) (tree_of both.now.second.now)) (certificate_of answer.now)
        ≡ true }
    requires workers { AreWorkers workers }
    ensures { IfOk result (λ found. found ≡ first_failure (answer_clauses
        (pair both.now.weights.now (tree_of both.now.first.now) (tree_of both.now.second.now)) (certificate_of answer.now))) }
{
    match answer {
        Answer::Intersect { rungs, cut, .. } => {
            ladder_failure(rt, alloc, both, rungs, cut, workers)
        }
        _ => unreachable!(),
    }
}

// The first clause behind the header of an answer about one matroid that fails.
fn single_failure<R: CheckWorkers>(
    rt: &R,
    alloc: Global,
    weights: &[Weight],
    m: &AnyMatroid,
    answer: &Answer,
    workers: u32,
) -> Result<Option<Failure>, AllocError>
    requires shared { R.shared rt.now }
    requires valid { IsValid (list weights.now (tree_of m.now ∷ [])) }
    requires sound { IsSoundInstance (list weights.now (tree_of m.now ∷ [])) }
    requires ranged { IsRanged (certificate_of answer.now) }
    requires header { has_header (list weights.now (tree_of m.now ∷ [])) (certificate_of answer.now) ≡ true }
    requires workers { AreWorkers workers }
    requires one { is_union (certificate_of answer.now) ≡ false }
    ensures { IfOk result (λ found. found ≡ first_failure (answer_clauses (list weights.now (tree_of m.now ∷ [])) (certificate_of answer.now))) }
{
    match answer {
        Answer::Best { rungs, .. } => best_failure(rt, alloc, m, weights, rungs, workers),
        Answer::PackAny { .. } => no_rank_failure(alloc, m),
        Answer::Pack { bases, cut, .. } => pack_failure(alloc, m, bases.as_slice(), cut),
        Answer::CoverNever { loop_at, .. } => loop_failure(alloc, m, *loop_at),
        Answer::Cover { sets, cut, .. } => cover_failure(alloc, m, sets.as_slice(), cut),
        _ => unreachable!(),
    }
}

/// The first clause behind the header of an answer about a list of matroids that fails. The only error is want of memory.
pub(crate) fn list_failure<R: CheckWorkers>(
    rt: &R,
    alloc: Global,
    weights: &[Weight],
    matroids: &[AnyMatroid],
    answer: &Answer,
    workers: u32,
) -> Result<Option<Failure>, AllocError>
    requires shared { R.shared rt.now }
    requires valid { IsValid (list weights.now (map tree_of matroids.now)) }
    requires sound { IsSoundInstance (list weights.now (map tree_of matroids.now)) }
    requires ranged { IsRanged (certificate_of answer.now) }
    requires header { has_header (list weights.now (map tree_of matroids.now)) (certificate_of answer.now) ≡ true }
    requires workers { AreWorkers workers }
    ensures { IfOk result (λ found. found ≡ first_failure (answer_clauses (list weights.now (map tree_of matroids.now)) (certificate_of answer.now))) }
{
    match answer {
        Answer::UnionOf {
            weight,
            parts,
            levels,
            ..
        } => union_failure(alloc, matroids, weights, *weight, parts.as_slice(), levels),
        _ => match matroids {
            [m] => single_failure(rt, alloc, weights, m, answer, workers),
            _ => unreachable!(),
        },
    }
}
