//! The texts of right answers to queries about problems, computed by threads that draw them, or in turn.

ghost use Rattle.std.specs.Prelude.{◌≤◌, length, IfOk, All};
ghost use Rattle.mat_work.specs.Workers.{AreWorkers};
ghost use Rattle.mat_problem.specs.Views.{instance_of};
ghost use Rattle.mat_command.specs.JobLists.{most_jobs};
ghost use Rattle.mat_top.specs.{LoadedJobs.{IsAnswerable, HaveTexts}, Refusals.{HasSolutionText}};

use crate::about::solution_text;
use crate::loaded_job::LoadedJob;
use mat_solve::SolveWorkers;
use mat_ticket::ticket_rows;
use mat_work::{RowJob, rows_in_turn};
use std::alloc::{AllocError, Global};
use std::marker::Model;
use std::thread::Threads;

// The text of a right answer to the query about its problem, by one worker.
fn job_text<S: SolveWorkers>(
    solver: &S,
    alloc: Global,
    loaded: &LoadedJob,
) -> Result<Vec<u8>, AllocError>
    requires shared { S.shared solver.now }
    requires answerable { IsAnswerable loaded.now }
    ensures { IfOk result (λ v. HasSolutionText loaded.now.query (instance_of loaded.now.problem) v.items) }
{
    solution_text(solver, alloc, &loaded.problem, loaded.query, 1)
}

/// The texts for queries about problems, each to be computed by one worker. It is seen as the queries with their problems.
#[derive(Drop)]
struct TextRows<'a, S: SolveWorkers + Sync> {
    alloc: Global,
    solver: &'a S,
    jobs: &'a [LoadedJob],
}

impl<'a, S: SolveWorkers + Sync> Model for TextRows<'a, S> {
    ghost use Rattle.std.specs.{Prelude.{List, All}, Coded.{codes}};
    ghost use Rattle.mat_top.specs.contracts.loaded_job.LoadedJob as loaded;
    ghost use Rattle.mat_top.specs.{
      declared.loaded_job.LoadedJob.{LoadedJob},
      LoadedJobs.{IsAnswerable},
    };

    ghost Value = { List LoadedJob };

    ghost coded = { Prim.hlevel (codes, loaded.the_row.coded) };

    ghost view = { λ rows. rows.jobs.now };

    ghost invariant = { λ rows. S.shared rows.solver.now × All IsAnswerable rows.jobs.now };
}

impl<'a, S: SolveWorkers + Sync> RowJob for TextRows<'a, S> {
    type Row = Vec<u8>;

    ghost use Rattle.std.specs.Prelude.{length};
    ghost use Rattle.mat_top.specs.LoadedJobs.{IsTextAt};

    ghost jobs = { length };

    ghost stands = { IsTextAt };

    fn row(&self, i: u32) -> Result<Vec<u8>, AllocError> {
        job_text(self.solver, self.alloc, &self.jobs[i as usize])
    }
}

/// The texts of right answers to the queries about their problems, in their order. So many threads draw the jobs, and each job is computed by
/// the one that drew it. The only error is want of memory.
pub(crate) fn texts_by_threads<R: Threads + Sync, S: SolveWorkers + Sync>(
    rt: &R,
    alloc: Global,
    solver: &S,
    jobs: &[LoadedJob],
    workers: u32,
) -> Result<Vec<Vec<u8>>, AllocError>
    requires shared { S.shared solver.now }
    requires answerable { All IsAnswerable jobs.now }
    requires few { length jobs.now ≤ most_jobs }
    requires workers { AreWorkers workers }
    ensures { IfOk result (λ v. HaveTexts jobs.now v.items) }
{
    let rows = TextRows {
        alloc,
        solver,
        jobs,
    };
    let drawn = ticket_rows(rt, alloc, &rows, jobs.len() as u32, workers)?;
    Ok(drawn.rows)
}

/// The same texts, one after the other. The only error is want of memory.
pub(crate) fn texts_in_turn<S: SolveWorkers + Sync>(
    alloc: Global,
    solver: &S,
    jobs: &[LoadedJob],
) -> Result<Vec<Vec<u8>>, AllocError>
    requires shared { S.shared solver.now }
    requires answerable { All IsAnswerable jobs.now }
    requires few { length jobs.now ≤ most_jobs }
    ensures { IfOk result (λ v. HaveTexts jobs.now v.items) }
{
    let rows = TextRows {
        alloc,
        solver,
        jobs,
    };
    let texts = rows_in_turn(alloc, &rows, 0, jobs.len() as u32)?;
    Ok(texts)
}
