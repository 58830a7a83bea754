//! Jobs whose problems are read.

ghost use Rattle.std.specs.Prelude.{◌≡◌, ◌≤◌, ℕ, List, [], ◌∷◌, ◌++◌, map, OnOk, IfOk, IfErr, All};
ghost use Rattle.mat_top.specs.declared.loading.Unloaded.TheVariants as unloaded;
ghost use Rattle.mat_top.specs.{
  declared.loaded_job.LoadedJob.{LoadedJob},
  LoadedJobs.{refusal_of_unloaded, IsLoaded, AreLoaded, IsAnswerable, IsUnloaded, AreUnloaded},
};
ghost use Rattle.mat_judge.specs.declared.described.Undescribed.TheVariants as undescribed;
ghost use Rattle.mat_judge.specs.declared.reading.Unread.TheVariants.{Memory};
ghost use Rattle.mat_command.specs.Views.{job_of};

use crate::loaded_job::LoadedJob;
use mat_command::Job;
use mat_judge::{Denial, Refusal, Undescribed, Unread, problem_in};
use mat_shelf::Shelf;
use mat_solve::has_form;
use std::alloc::{AllocError, Global};

/// Why a job has no problem of its query's form.
pub(crate) enum Unloaded {
    /// Its file was not read or describes none, or memory ran out.
    Undescribed(Undescribed),
    /// The problem has another form.
    WrongShape,
}

impl From<AllocError> for Unloaded {
    ghost from_gives = { λ _ e. e ≡ unloaded.Undescribed (undescribed.Unread Memory) };

    fn from(_error: AllocError) -> Unloaded {
        Unloaded::Undescribed(Undescribed::Unread(Unread::Memory))
    }
}

impl From<Undescribed> for Unloaded {
    ghost from_gives = { λ why e. e ≡ unloaded.Undescribed why };

    fn from(why: Undescribed) -> Unloaded {
        Unloaded::Undescribed(why)
    }
}

impl From<Unloaded> for Refusal {
    ghost from_gives = { λ why e. e ≡ refusal_of_unloaded why };

    fn from(why: Unloaded) -> Refusal {
        match why {
            Unloaded::Undescribed(why) => Refusal::from(why),
            Unloaded::WrongShape => Refusal::Denied(Denial::WrongShape),
        }
    }
}

// The job with the problem that its file describes, which is read. What refuses the file comes first, and `WrongShape` where the form
// of the problem is not the query's.
fn loaded_job<F: Shelf>(alloc: Global, files: &mut F, job: &Job) -> Result<LoadedJob, Unloaded>
    ensures held { (name : List ℕ) → F.held files.new name ≡ F.held files.old name }
    ensures grows { (name : List ℕ) → F.faults files.old name ≤ F.faults files.new name }
    ensures loaded { IfOk result (λ p. IsLoaded (F.held files.old) (job_of job.now) p) }
    ensures answerable { IfOk result (λ p. IsAnswerable p) }
    ensures refusal { IfErr result (λ e. IsUnloaded (F.held files.old) (job_of job.now) (F.faults files.old) (F.faults files.new) e) }
{
    let problem = problem_in(alloc, files, &job.file)?;
    if !has_form(job.query, &problem) {
        drop(problem);
        return Err(Unloaded::WrongShape);
    }
    Ok(LoadedJob {
        query: job.query,
        problem,
    })
}

// Keeps one job more.
fn keep(loaded: &mut Vec<LoadedJob>, one: LoadedJob) -> Result<(), AllocError>
    ensures { OnOk result (loaded.new.items ≡ loaded.old.items ++ one ∷ []) }
{
    loaded.push(one).map_err(AllocError::from)
}

// Keeps the job with the problem that its file describes, which is read.
fn load_job<F: Shelf>(
    alloc: Global,
    files: &mut F,
    job: &Job,
    loaded: &mut Vec<LoadedJob>,
) -> Result<(), Unloaded>
    ensures held { (name : List ℕ) → F.held files.new name ≡ F.held files.old name }
    ensures grows { (name : List ℕ) → F.faults files.old name ≤ F.faults files.new name }
    ensures added { OnOk result ((one : LoadedJob) × (loaded.new.items ≡ loaded.old.items ++ one ∷ [])
        × IsLoaded (F.held files.old) (job_of job.now) one × IsAnswerable one) }
    ensures refusal { IfErr result (λ e. IsUnloaded (F.held files.old) (job_of job.now) (F.faults files.old) (F.faults files.new) e) }
{
    let one = loaded_job(alloc, files, job)?;
    keep(loaded, one).map_err(Unloaded::from)
}

/// The jobs with their problems, in their order. The files are read one after the other, and the first job that is refused ends it.
pub(crate) fn loaded_jobs<F: Shelf>(
    alloc: Global,
    files: &mut F,
    jobs: &[Job],
) -> Result<Vec<LoadedJob>, Unloaded>
    ensures held { (name : List ℕ) → F.held files.new name ≡ F.held files.old name }
    ensures grows { (name : List ℕ) → F.faults files.old name ≤ F.faults files.new name }
    ensures loaded { IfOk result (λ v. AreLoaded (F.held files.old) (map job_of jobs.now) v.items) }
    ensures answerable { IfOk result (λ v. All IsAnswerable v.items) }
    ensures refusal { IfErr result (λ e. AreUnloaded (F.held files.old) (F.faults files.old) (F.faults files.new) (map job_of jobs.now) e) }
{
    let mut loaded = Vec::with_capacity(alloc, jobs.len())?;
    for job in jobs {
        load_job(alloc, files, job, &mut loaded)?;
    }
    Ok(loaded)
}
