//! Who does what the top call asks for.

ghost use Rattle.std.specs.Prelude.{◌≤◌, length, IfOk, All};
ghost use Rattle.mat_work.specs.Workers.{AreWorkers};
ghost use Rattle.mat_command.specs.JobLists.{most_jobs};
ghost use Rattle.mat_top.specs.LoadedJobs.{IsAnswerable, HaveTexts};

use crate::job_texts::texts_by_threads;
use crate::loaded_job::LoadedJob;
use mat_check::CheckWorkers;
use mat_solve::SolveWorkers;
use std::alloc::{AllocError, Global};
use std::thread::Threads;

/// Who does what the top call asks for: the threads of a runtime, or [`OneWorker`](crate::OneWorker).
pub trait TopWorkers: SolveWorkers + CheckWorkers {
    /// The texts of right answers to the queries about their problems, in their order. The only error is want of memory.
    fn job_texts(
        &self,
        alloc: Global,
        jobs: &[LoadedJob],
        workers: u32,
    ) -> Result<Vec<Vec<u8>>, AllocError>
        requires shared { Self.shared self.now }
        requires answerable { All IsAnswerable jobs.now }
        requires few { length jobs.now ≤ most_jobs }
        requires workers { AreWorkers workers }
        ensures { IfOk result (λ v. HaveTexts jobs.now v.items) };
}

impl<R: Threads + Sync> TopWorkers for R {
    fn job_texts(
        &self,
        alloc: Global,
        jobs: &[LoadedJob],
        workers: u32,
    ) -> Result<Vec<Vec<u8>>, AllocError> {
        texts_by_threads(self, alloc, self, jobs, workers)
    }
}
