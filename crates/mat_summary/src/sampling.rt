//! The summary of a right answer to a problem that is made from a number.

ghost use Rattle.std.specs.Prelude.{◌≡◌, ◌≤◌, true, IfOk};
ghost use Rattle.mat_sets.specs.Limits.{most_elements};
ghost use Rattle.mat_work.specs.Workers.{AreWorkers};
ghost use Rattle.mat_problem.specs.{Validity.{IsValid}, Views.{instance_of}};
ghost use Rattle.mat_cert.specs.{Certificates.{IsRanged}, Views.{certificate_of}};
ghost use Rattle.mat_right.specs.Right.{IsRight};
ghost use Rattle.mat_gen.specs.Samples.{sample_of};
ghost use Rattle.mat_solve.specs.{Answers.{IsSolution}, Queries.{has_form, IsAnswerOf, IsQueryInRange}};
ghost use Rattle.mat_summary.specs.Summaries.{query_of_kind, IsSummary};

use crate::summary::summary_text;
use mat_cert::Answer;
use mat_check::{CheckWorkers, Verdict, check};
use mat_gen::{SampleKind, sample};
use mat_problem::Problem;
use mat_solve::{Query, SolveWorkers, solve};
use std::alloc::{AllocError, Global};

// The query that is answered for a sample of this kind.
fn query_of_kind(kind: SampleKind) -> Query
    ensures query { result ≡ query_of_kind kind }
    ensures range { IsQueryInRange result }
{
    match kind {
        SampleKind::Pair => Query::Intersect,
        SampleKind::List => Query::Union,
        SampleKind::Graph => Query::Trees(2),
        SampleKind::Rooted => Query::Arborescence,
        SampleKind::Table => Query::Assign,
    }
}

// Checks a right answer, by so many workers: it is accepted. The only error is want of memory.
fn accept<R: CheckWorkers>(
    rt: &R,
    alloc: Global,
    problem: &Problem,
    answer: &Answer,
    workers: u32,
) -> Result<(), AllocError>
    requires shared { R.shared rt.now }
    requires valid { IsValid (instance_of problem.now) }
    requires ranged { IsRanged (certificate_of answer.now) }
    requires right { IsRight (instance_of problem.now) (certificate_of answer.now) }
    requires workers { AreWorkers workers }
{
    match check(rt, alloc, problem, answer, workers)? {
        Verdict::Yes => Ok(()),
        Verdict::No { .. } => unreachable!(),
    }
}

// A right answer to the query about a problem of its form, found by so many workers, and then checked. The only error is want of memory.
fn checked_answer<R: SolveWorkers + CheckWorkers>(
    rt: &R,
    alloc: Global,
    problem: &Problem,
    query: Query,
    workers: u32,
) -> Result<Answer, AllocError>
    requires shared { R.shared rt.now }
    requires valid { IsValid (instance_of problem.now) }
    requires range { IsQueryInRange query }
    requires form { has_form query (instance_of problem.now) ≡ true }
    requires workers { AreWorkers workers }
    ensures of_query { IfOk result (λ answer. IsAnswerOf query (certificate_of answer)) }
    ensures solution { IfOk result (λ answer. IsSolution (instance_of problem.now) (certificate_of answer)) }
{
    let answer = solve(rt, alloc, problem, query, workers)?;
    accept(rt, alloc, problem, &answer, workers).and(Ok(answer))
}

// The summary of a right answer to this problem, which is that of this kind, size and seed. The only error is want of memory.
fn summary_of<R: SolveWorkers + CheckWorkers>(
    rt: &R,
    alloc: Global,
    kind: SampleKind,
    size: u32,
    seed: u64,
    problem: &Problem,
    workers: u32,
) -> Result<Vec<u8>, AllocError>
    requires shared { R.shared rt.now }
    requires sample { instance_of problem.now ≡ sample_of kind size seed }
    requires valid { IsValid (instance_of problem.now) }
    requires workers { AreWorkers workers }
    ensures { IfOk result (λ v. IsSummary kind size seed v.items) }
{
    let answer = checked_answer(rt, alloc, problem, query_of_kind(kind), workers)?;
    let text = summary_text(alloc, kind, size, seed, &answer);
    drop(answer);
    text
}

/// The line that sums up a right answer to the problem of this kind, size and seed. The problem is made, it is answered by so many
/// workers, and the answer is checked. The size is from 1 to 500, and the seed from 1 to 2147483646. The only error is want of memory.
pub fn sample_text<R: SolveWorkers + CheckWorkers>(
    rt: &R,
    alloc: Global,
    kind: SampleKind,
    size: u32,
    seed: u64,
    workers: u32,
) -> Result<Vec<u8>, AllocError>
    // `rt` may be shared with other threads. This holds of every runtime, and of a worker that starts no thread.
    requires shared { R.shared rt.now }
    requires some { 1 ≤ size }
    requires few { size ≤ most_elements }
    requires seed_least { 1 ≤ seed }
    requires seed_most { seed ≤ 2147483646 }
    requires workers { AreWorkers workers }
    ensures { IfOk result (λ v. IsSummary kind size seed v.items) }
{
    let problem = sample(alloc, kind, size, seed)?;
    let text = summary_of(rt, alloc, kind, size, seed, &problem, workers);
    drop(problem);
    text
}
