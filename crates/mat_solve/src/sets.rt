//! Disjoint and covering sets: unions, packings and coverings.

ghost use Rattle.std.specs.Prelude.{◌≡◌, true, map, IfOk};
ghost use Rattle.mat_problem.specs.{Views.{instance_of}, Validity.{IsValid}, Soundness.{IsSoundInstance}};
ghost use Rattle.mat_cert.specs.Views.{certificate_of};
ghost use Rattle.mat_right.specs.Right.{level_of};
ghost use Rattle.mat_check.specs.Fitting.{is_list, is_single};
ghost use Rattle.mat_solve.specs.{Answers.{IsSolution}, Queries.{IsAnswerOf}};

use crate::forms::only_matroid;
use crate::query::Query;
use mat_cert::{Answer, LevelLine};
use mat_packing::{Covering, Packing, pack_bases};
use mat_problem::Problem;
use mat_sets::weigh;
use mat_union::{Level, best_union, members_of};
use std::alloc::{AllocError, Global};

// The levels as an answer has them, in their order.
fn level_lines(alloc: Global, levels: Vec<Level>) -> Result<Vec<LevelLine>, AllocError>
    ensures { IfOk result (λ lines. map level_of lines.items ≡ levels.items) }
{
    let mut lines = Vec::with_capacity(alloc, levels.len())?;
    for level in levels {
        lines.push(LevelLine {
            at: level.at,
            cut: level.cut,
        })?;
    }
    Ok(lines)
}

/// Disjoint sets, one for each matroid of a list and independent in it, that hold the most elements and then weigh the most. The only
/// error is want of memory.
pub(crate) fn union(alloc: Global, problem: &Problem) -> Result<Answer, AllocError>
    requires valid { IsValid (instance_of problem.now) }
    requires sound { IsSoundInstance (instance_of problem.now) }
    requires form { is_list (instance_of problem.now) ≡ true }
    ensures of_query { IfOk result (λ answer. IsAnswerOf Query.Union (certificate_of answer)) }
    ensures solution { IfOk result (λ answer. IsSolution (instance_of problem.now) (certificate_of answer)) }
{
    let Problem::List { weights, matroids } = problem else {
        unreachable!()
    };
    let found = best_union(alloc, matroids.as_slice(), weights.as_slice())?;
    let all = members_of(alloc, found.parts.as_slice())?;
    let weight = weigh(&all, weights.as_slice());
    let levels = level_lines(alloc, found.levels)?;
    Ok(Answer::UnionOf {
        count: weights.len() as u32,
        weight,
        parts: found.parts,
        levels,
    })
}

/// As many disjoint bases of one matroid as there are, with a cut. The only error is want of memory.
pub(crate) fn pack(alloc: Global, problem: &Problem) -> Result<Answer, AllocError>
    requires valid { IsValid (instance_of problem.now) }
    requires sound { IsSoundInstance (instance_of problem.now) }
    requires form { is_single (instance_of problem.now) ≡ true }
    ensures of_query { IfOk result (λ answer. IsAnswerOf Query.Pack (certificate_of answer)) }
    ensures solution { IfOk result (λ answer. IsSolution (instance_of problem.now) (certificate_of answer)) }
{
    let (weights, matroid) = only_matroid(problem);
    let count = weights.len() as u32;
    let found = pack_bases(alloc, matroid)?;
    match found {
        Packing::Any => Ok(Answer::PackAny { count }),
        Packing::Most { bases, cut } => Ok(Answer::Pack { count, bases, cut }),
    }
}

/// As few independent sets of one matroid that cover its elements as there are, with a cut, or a loop. The only error is want of memory.
pub(crate) fn cover(alloc: Global, problem: &Problem) -> Result<Answer, AllocError>
    requires valid { IsValid (instance_of problem.now) }
    requires sound { IsSoundInstance (instance_of problem.now) }
    requires form { is_single (instance_of problem.now) ≡ true }
    ensures of_query { IfOk result (λ answer. IsAnswerOf Query.Cover (certificate_of answer)) }
    ensures solution { IfOk result (λ answer. IsSolution (instance_of problem.now) (certificate_of answer)) }
{
    let (weights, matroid) = only_matroid(problem);
    let count = weights.len() as u32;
    let found = mat_packing::cover(alloc, matroid)?;
    match found {
        Covering::Never { loop_at } => Ok(Answer::CoverNever { count, loop_at }),
        Covering::Least { sets, cut } => Ok(Answer::Cover { count, sets, cut }),
    }
}
