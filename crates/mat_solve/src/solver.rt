//! The answers to queries.

ghost use Rattle.std.specs.Prelude.{◌≡◌, true, IfOk};
ghost use Rattle.mat_work.specs.Workers.{AreWorkers};
ghost use Rattle.mat_cert.specs.Views.{certificate_of};
ghost use Rattle.mat_problem.specs.{Validity.{IsValid}, Views.{instance_of}};
ghost use Rattle.mat_solve.specs.{Answers.{IsSolution}, Queries.{has_form, IsAnswerOf, IsQueryInRange}};

use crate::ladders::{assign, best, intersect, rainbow};
use crate::query::Query;
use crate::sets::{cover, pack, union};
use crate::trees::{arborescence, disjoint, trees};
use crate::workers::SolveWorkers;
use mat_cert::Answer;
use mat_problem::Problem;
use std::alloc::{AllocError, Global};

/// A right answer to the query about a problem of its form. The work is for up to `workers` workers, from 1 to 16; no clause speaks of how many
/// share it. The only error is want of memory.
pub fn solve<R: SolveWorkers>(
    rt: &R,
    alloc: Global,
    problem: &Problem,
    query: Query,
    workers: u32,
) -> Result<Answer, AllocError>
    // `rt` may be shared with other threads. This holds of every runtime, and of a worker that starts no thread.
    requires shared { R.shared rt.now }
    requires valid { IsValid (instance_of problem.now) }
    requires range { IsQueryInRange query }
    requires form { has_form query (instance_of problem.now) ≡ true }
    requires workers { AreWorkers workers }
    ensures of_query { IfOk result (λ answer. IsAnswerOf query (certificate_of answer)) }
    ensures solution { IfOk result (λ answer. IsSolution (instance_of problem.now) (certificate_of answer)) }
{
    match query {
        Query::Best => best(alloc, problem),
        Query::Intersect => intersect(rt, alloc, problem, workers),
        Query::Union => union(alloc, problem),
        Query::Pack => pack(alloc, problem),
        Query::Cover => cover(alloc, problem),
        Query::Trees(k) => trees(alloc, problem, k),
        Query::Arborescence => arborescence(alloc, problem, workers),
        Query::Disjoint(k) => disjoint(alloc, problem, k),
        Query::Rainbow => rainbow(alloc, problem, workers),
        Query::Assign => assign(alloc, problem, workers),
    }
}
