//! The answers to the jobs of a list.

ghost use Rattle.std.specs.Prelude.{◌≡◌, ◌≤◌, ℕ, List, length, map, IfOk, IfErr, IfSome};
ghost use Rattle.mat_work.specs.Workers.{AreWorkers};
ghost use Rattle.mat_command.specs.{CommandLines.{batch}, JobLists.{most_jobs, IsListed}, Views.{job_of}};
ghost use Rattle.mat_top.specs.declared.batch.Unlisted.TheVariants as unlisted;
ghost use Rattle.mat_top.specs.{
  LoadedJobs.{IsUnlisted, unlisted_by, refusal_of_unlisted},
  Refusals.{MayBeWritten, IsRefusal},
};
ghost use Rattle.mat_judge.specs.Texts.{all_texts};

use crate::loading::loaded_jobs;
use crate::workers::TopWorkers;
use mat_command::{Job, ListRefusal, read_jobs};
use mat_judge::{Denial, Refusal, Unread, read_all};
use mat_shelf::Shelf;
use std::alloc::Global;

/// The most bytes that a list may have.
const LIST_LIMIT: usize = 4_194_304;

// Why a file gives no jobs.
enum Unlisted {
    // It was not read, or memory ran out.
    Unread(Unread),
    // The first line that is not the needed one, by its number.
    Line(u32),
}

impl From<Unread> for Unlisted {
    ghost from_gives = { λ unread e. e ≡ unlisted.Unread unread };

    fn from(unread: Unread) -> Unlisted {
        Unlisted::Unread(unread)
    }
}

impl From<ListRefusal> for Unlisted {
    ghost from_gives = { λ refusal e. e ≡ unlisted_by refusal };

    fn from(refusal: ListRefusal) -> Unlisted {
        match refusal {
            ListRefusal::Line(line) => Unlisted::Line(line),
            ListRefusal::Memory => Unlisted::Unread(Unread::Memory),
        }
    }
}

impl From<Unlisted> for Refusal {
    ghost from_gives = { λ why e. e ≡ refusal_of_unlisted why };

    fn from(why: Unlisted) -> Refusal {
        match why {
            Unlisted::Unread(unread) => Refusal::Unread(unread),
            Unlisted::Line(line) => Refusal::Denied(Denial::BadList(line)),
        }
    }
}

// The jobs of the list in the file of this name, of which there are at most 32.
fn listed_jobs<F: Shelf>(alloc: Global, files: &mut F, list: &str) -> Result<Vec<Job>, Unlisted>
    ensures held { (name : List ℕ) → F.held files.new name ≡ F.held files.old name }
    ensures grows { (name : List ℕ) → F.faults files.old name ≤ F.faults files.new name }
    ensures listed { IfOk result (λ v. IfSome (F.held files.old list.now) (λ bytes. IsListed bytes (map job_of v.items))) }
    ensures few { IfOk result (λ v. length v.items ≤ most_jobs) }
    ensures refusal { IfErr result (λ e. IsUnlisted (F.held files.old list.now) (F.faults files.old list.now) (F.faults files.new list.now) e) }
{
    let bytes = read_all(alloc, files, list, LIST_LIMIT)?;
    Ok(read_jobs(alloc, &bytes)?)
}

/// The texts of right answers to the jobs of the list in the file of this name, in the list's order. The list is read, then the file of
/// each job in turn, and the first refusal ends the call; then so many workers draw the jobs, and each is answered by one of them.
pub(crate) fn batch_texts<R: TopWorkers, F: Shelf>(
    rt: &R,
    alloc: Global,
    files: &mut F,
    list: &str,
    workers: u32,
) -> Result<Vec<Vec<u8>>, Refusal>
    requires shared { R.shared rt.now }
    requires workers { AreWorkers workers }
    ensures held { (name : List ℕ) → F.held files.new name ≡ F.held files.old name }
    ensures grows { (name : List ℕ) → F.faults files.old name ≤ F.faults files.new name }
    ensures text { IfOk result (λ v. MayBeWritten (F.held files.old) (batch list.now) (all_texts v.items)) }
    ensures refusal { IfErr result (λ e. IsRefusal (F.held files.old) (batch list.now) (F.faults files.old) (F.faults files.new) e) }
{
    let jobs = listed_jobs(alloc, files, list)?;
    let loaded = loaded_jobs(alloc, files, &jobs)?;
    let texts = rt.job_texts(alloc, &loaded, workers);
    drop(loaded);
    Ok(texts?)
}
