//! Checking an answer.

ghost use Rattle.std.specs.Prelude.{◌≡◌, ◌↔◌, true, IfOk};
ghost use Rattle.mat_work.specs.Workers.{AreWorkers};
ghost use Rattle.mat_cert.specs.{Certificates.{IsRanged}, Views.{certificate_of}};
ghost use Rattle.mat_check.specs.{
  AnswerClauses.{answer_clauses, failure_of, has_header},
  Clauses.{first_failure},
  Fitting.{fits},
  Views.{failure_in},
  declared.verdict.Verdict.TheVariants.{Yes},
};
ghost use Rattle.mat_problem.specs.{Validity.{IsValid}, Soundness.{IsSoundInstance}, Views.{instance_of}};
ghost use Rattle.mat_right.specs.Right.{IsRight};

use crate::graph_answers::{coloured_failure, graph_failure, rooted_failure, table_failure};
use crate::headers::has_header;
use crate::ladder::rung::WeightedPair;
use crate::matroid_answers::{list_failure, pair_failure};
use crate::reason::{Failure, Reason};
use crate::verdict::Verdict;
use crate::workers::CheckWorkers;
use mat_cert::Answer;
use mat_problem::Problem;
use std::alloc::{AllocError, Global};

// The first clause behind the header of an answer that fails.
fn answer_failure<R: CheckWorkers>(
    rt: &R,
    alloc: Global,
    problem: &Problem,
    answer: &Answer,
    workers: u32,
) -> Result<Option<Failure>, AllocError>
    requires shared { R.shared rt.now }
    requires valid { IsValid (instance_of problem.now) }
    requires sound { IsSoundInstance (instance_of problem.now) }
    requires ranged { IsRanged (certificate_of answer.now) }
    requires header { has_header (instance_of problem.now) (certificate_of answer.now) ≡ true }
    requires workers { AreWorkers workers }
    ensures { IfOk result (λ found. found ≡ first_failure (answer_clauses (instance_of problem.now) (certificate_of answer.now))) }
{
    match problem {
        Problem::Pair {
            weights,
            first,
            second,
        } => {
            let both = WeightedPair {
                weights: weights.as_slice(),
                first,
                second,
            };
            pair_failure(rt, alloc, &both, answer, workers)
        }
        Problem::List { weights, matroids } => {
            list_failure(rt, alloc, weights.as_slice(), matroids, answer, workers)
        }
        Problem::Graph { vertices, edges } => graph_failure(alloc, *vertices, edges, answer),
        Problem::Rooted {
            vertices,
            root,
            arcs,
            costs,
        } => rooted_failure(alloc, *vertices, *root, arcs, costs.as_slice(), answer),
        Problem::Coloured {
            vertices,
            colours,
            edges,
            colour_of,
            weights,
        } => coloured_failure(
            rt, alloc, *vertices, *colours, edges, colour_of, weights, answer, workers,
        ),
        Problem::Table {
            rows,
            columns,
            cells,
            weights,
        } => table_failure(rt, alloc, *rows, *columns, cells, weights, answer, workers),
    }
}

/// Whether an answer that fits a problem is right, and if not, the first of its clauses that fails, with its places. The clauses and their
/// order are those of docs/FORMATS.md, What is wrong with an answer: first come the numbers of the header, and last what a cut, a level, classes
/// of vertices, a vertex set or a set of colours shows (Schrijver, chapters 40 to 42 and 51 to 53).
///
/// Nothing is solved. For n elements there is one question of independence for each part, base, tree or set of a covering, and for the set of
/// each rung one in each matroid; there are at most n more for each base and for the last set of one matroid, to which no element can be added,
/// and for each rank that a cut, a level or a claim asks for; and there is one run of the greedy algorithm, of at most n questions, for the
/// weights of one matroid, and for each part of a split that isn't that of the rung before. The workers, from 1 to 16, share the runs and then
/// the rungs of a ladder: all rungs are judged, each from its own data, and the first failure in their order is told. The only error is want
/// of memory.
pub fn check<R: CheckWorkers>(
    rt: &R,
    alloc: Global,
    problem: &Problem,
    answer: &Answer,
    workers: u32,
) -> Result<Verdict, AllocError>
    // `rt` may be shared with other threads. This holds of every runtime, and of a worker that starts no thread.
    requires shared { R.shared rt.now }
    requires fits { fits (instance_of problem.now) (certificate_of answer.now) ≡ true }
    requires valid { IsValid (instance_of problem.now) }
    requires ranged { IsRanged (certificate_of answer.now) }
    requires workers { AreWorkers workers }
    ensures failure { IfOk result (λ v. failure_in v ≡ failure_of (instance_of problem.now) (certificate_of answer.now)) }
    ensures yes { IfOk result (λ v. (v ≡ Yes) ↔ IsRight (instance_of problem.now) (certificate_of answer.now)) }
{
    if !has_header(alloc, problem, answer)? {
        return Ok(Verdict::from(Some(Reason::Header.at(0, 0))));
    }
    let found = answer_failure(rt, alloc, problem, answer, workers)?;
    Ok(Verdict::from(found))
}
