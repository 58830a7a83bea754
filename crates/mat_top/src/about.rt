//! What is asked about the problem that a file describes.

ghost use Rattle.std.specs.Prelude.{◌≡◌, ◌≤◌, ℕ, List, true, IfOk, IfErr};
ghost use Rattle.mat_work.specs.Workers.{AreWorkers};
ghost use Rattle.mat_problem.specs.{Validity.{IsValid}, Views.{instance_of}};
ghost use Rattle.mat_command.specs.{CommandLines.{about}, Commands.{request_of, IsRequestInRange}};
ghost use Rattle.mat_top.specs.{Outcomes.{yes_text}, Refusals.{HasText, HasNoText, HasSolutionText, MayBeWritten, IsRefusal}};
ghost use Rattle.mat_solve.specs.Queries.{has_form, IsQueryInRange};

use crate::cuts_text::{cuts_text, has_payable_costs};
use mat_cert::write_answer;
use mat_check::CheckWorkers;
use mat_command::Request;
use mat_desc::write_problem;
use mat_judge::{Denial, Refusal, judge, problem_in};
use mat_problem::Problem;
use mat_shelf::Shelf;
use mat_solve::{Query, SolveWorkers, has_form, solve};
use mat_verify::{verify_in, witness_text};
use std::alloc::{AllocError, Global};

/// The text of a right answer to the query about a problem of its form. The only error is want of memory.
pub(crate) fn solution_text<R: SolveWorkers>(
    rt: &R,
    alloc: Global,
    problem: &Problem,
    query: Query,
    workers: u32,
) -> Result<Vec<u8>, AllocError>
    requires shared { R.shared rt.now }
    requires valid { IsValid (instance_of problem.now) }
    requires range { IsQueryInRange query }
    requires form { has_form query (instance_of problem.now) ≡ true }
    requires workers { AreWorkers workers }
    ensures { IfOk result (λ v. HasSolutionText query (instance_of problem.now) v.items) }
{
    let answer = solve(rt, alloc, problem, query, workers)?;
    let text = write_answer(alloc, &answer);
    drop(answer);
    text
}

// The text that says that a certificate is right.
fn yes(alloc: Global) -> Result<Vec<u8>, AllocError>
    ensures { IfOk result (λ v. v.items ≡ yes_text) }
{
    b"yes\n".to_vec(alloc)
}

// What the request writes for a problem.
fn text_for<R: SolveWorkers + CheckWorkers, F: Shelf>(
    rt: &R,
    alloc: Global,
    files: &mut F,
    request: Request<'_>,
    problem: &Problem,
    workers: u32,
) -> Result<Vec<u8>, Refusal>
    requires shared { R.shared rt.now }
    requires valid { IsValid (instance_of problem.now) }
    requires range { IsRequestInRange (request_of request) }
    requires workers { AreWorkers workers }
    ensures held { (name : List ℕ) → F.held files.new name ≡ F.held files.old name }
    ensures grows { (name : List ℕ) → F.faults files.old name ≤ F.faults files.new name }
    ensures text { IfOk result (λ v. HasText (F.held files.old) (request_of request.entry) (instance_of problem.now) v.items) }
    ensures refusal { IfErr result (λ e. HasNoText (F.held files.old) (request_of request.entry) (instance_of problem.now)
        (F.faults files.old) (F.faults files.new) e) }
{
    match request {
        Request::Show => Ok(write_problem(alloc, problem)?),
        Request::Solve(query) => {
            if !has_form(query, problem) {
                return Err(Refusal::Denied(Denial::WrongShape));
            }
            Ok(solution_text(rt, alloc, problem, query, workers)?)
        }
        Request::Cuts => {
            // the form that has cuts is that of a problem with an arborescence
            if !has_form(Query::Arborescence, problem) {
                return Err(Refusal::Denied(Denial::WrongShape));
            }
            if !has_payable_costs(problem) {
                return Err(Refusal::Denied(Denial::BadCost));
            }
            Ok(cuts_text(alloc, problem)?)
        }
        Request::Check { certificate } => {
            judge(rt, alloc, files, certificate, problem, workers)?;
            Ok(yes(alloc)?)
        }
        Request::Witness { rung, certificate } => {
            witness_text(rt, alloc, files, certificate, problem, rung)
        }
        Request::Verify {
            rung,
            certificate,
            witness,
        } => {
            verify_in(alloc, files, certificate, witness, problem, rung)?;
            Ok(yes(alloc)?)
        }
    }
}

/// What the request writes for the problem that the file of this name describes. The refusal is that of the first row of the table in
/// docs/PROOFS.md that applies, unless a file could not be read, or memory ran out.
pub(crate) fn text_about<R: SolveWorkers + CheckWorkers, F: Shelf>(
    rt: &R,
    alloc: Global,
    files: &mut F,
    name: &str,
    request: Request<'_>,
    workers: u32,
) -> Result<Vec<u8>, Refusal>
    requires shared { R.shared rt.now }
    requires range { IsRequestInRange (request_of request) }
    requires workers { AreWorkers workers }
    ensures held { (other : List ℕ) → F.held files.new other ≡ F.held files.old other }
    ensures grows { (other : List ℕ) → F.faults files.old other ≤ F.faults files.new other }
    ensures text { IfOk result (λ v. MayBeWritten (F.held files.old) (about name.now (request_of request.entry)) v.items) }
    ensures refusal { IfErr result (λ e. IsRefusal (F.held files.old) (about name.now (request_of request.entry))
        (F.faults files.old) (F.faults files.new) e) }
{
    let problem = problem_in(alloc, files, name)?;
    let text = text_for(rt, alloc, files, request, &problem, workers);
    drop(problem);
    text
}
