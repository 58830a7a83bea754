//! One worker.

use crate::job_texts::texts_in_turn;
use crate::loaded_job::LoadedJob;
use crate::workers::TopWorkers;
use mat_check::CheckWorkers;
use mat_solve::SolveWorkers;
use mat_work::Workers;
use std::alloc::{AllocError, Global};

/// One worker, who computes the rows of each table and the jobs of a list in turn, and starts no thread, however many workers are asked for: for
/// a library or a page that has no threads.
#[derive(Drop)]
pub struct OneWorker;

impl Workers for OneWorker {
    ghost shared = { λ _. Unit {0} };
}

impl SolveWorkers for OneWorker {}

impl CheckWorkers for OneWorker {}

impl TopWorkers for OneWorker {
    fn job_texts(
        &self,
        alloc: Global,
        jobs: &[LoadedJob],
        _workers: u32,
    ) -> Result<Vec<Vec<u8>>, AllocError> {
        texts_in_turn(alloc, self, jobs)
    }
}
