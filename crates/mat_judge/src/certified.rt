//! The certificate in a file, judged against a problem.

ghost use Rattle.std.specs.Prelude.{◌≡◌, ◌≤◌, ℕ, List, true, OnOk, IfOk, IfErr, IfSome};
ghost use Rattle.mat_work.specs.Workers.{AreWorkers};
ghost use Rattle.mat_cert.specs.{Certificates.{IsRanged}, Views.{certificate_of}};
ghost use Rattle.mat_check.specs.Fitting.{fits};
ghost use Rattle.mat_problem.specs.{Validity.{IsValid}, Views.{instance_of}};
ghost use Rattle.mat_right.specs.Right.{IsRight};
ghost use Rattle.mat_judge.specs.declared.certified.Uncertified.TheVariants as uncertified;
ghost use Rattle.mat_judge.specs.declared.certified.NotRight.TheVariants as not_right;
ghost use Rattle.mat_judge.specs.{
  declared.reading.Unread.TheVariants.{Memory},
  Certified.{IsCertified, IsRightAnswer, HasRightAnswer, IsUncertified, IsNotFoundRight, IsNotRight, uncertified_by},
};

use crate::reading::{Unread, read_all};
use mat_cert::{Answer, CertKind, CertRefusal, read_answer};
use mat_check::{CheckWorkers, Reason, Verdict, check, fits};
use mat_problem::Problem;
use mat_shelf::Shelf;
use std::alloc::{AllocError, Global};
use thiserror::Error;

// The most bytes that a certificate may have.
const CERTIFICATE_LIMIT: usize = 67_108_864;

/// Why a file is no certificate.
#[derive(Clone, Copy, Debug, Error)]
pub enum Uncertified {
    /// It was not read, or memory ran out.
    #[error("the certificate was not read: {0}")]
    Unread(Unread),
    /// Its first fault, and the number of its line.
    #[error("line {1} of the certificate: {0:?}")]
    Fault(CertKind, u32),
}

/// Why a file has no right answer to a problem.
#[derive(Clone, Copy, Debug, Error)]
pub enum NotRight {
    /// It is no certificate, or memory ran out.
    #[error("{0}")]
    Uncertified(Uncertified),
    /// The form of the problem is not that of the answer.
    #[error("the form of the problem is not the certificate's")]
    WrongShape,
    /// The first clause of the answer that fails, and its two places: two numbers, whose meaning [`Reason`] gives.
    #[error("the answer isn't right: {0:?} {1} {2}")]
    No(Reason, u32, u32),
}

impl From<Unread> for Uncertified {
    ghost from_gives = { λ unread e. e ≡ uncertified.Unread unread };

    fn from(unread: Unread) -> Uncertified {
        Uncertified::Unread(unread)
    }
}

impl From<CertRefusal> for Uncertified {
    ghost from_gives = { λ refusal e. e ≡ uncertified_by refusal };

    fn from(refusal: CertRefusal) -> Uncertified {
        match refusal {
            CertRefusal::Fault { kind, line } => Uncertified::Fault(kind, line),
            CertRefusal::Memory => Uncertified::Unread(Unread::Memory),
        }
    }
}

impl From<Uncertified> for NotRight {
    ghost from_gives = { λ why e. e ≡ not_right.Uncertified why };

    fn from(why: Uncertified) -> NotRight {
        NotRight::Uncertified(why)
    }
}

impl From<AllocError> for NotRight {
    ghost from_gives = { λ _ e. e ≡ not_right.Uncertified (uncertified.Unread Memory) };

    fn from(_error: AllocError) -> NotRight {
        NotRight::Uncertified(Uncertified::Unread(Unread::Memory))
    }
}

/// The answer that the file of this name has: `Fault` comes where its bytes, at most 67,108,864, are no certificate, and `Unread` where they were
/// not read or memory ran out.
pub fn answer_in<F: Shelf>(alloc: Global, files: &mut F, name: &str) -> Result<Answer, Uncertified>
    ensures held { (other : List ℕ) → F.held files.new other ≡ F.held files.old other }
    ensures grows { (other : List ℕ) → F.faults files.old other ≤ F.faults files.new other }
    ensures ranged { IfOk result (λ a. IsRanged (certificate_of a)) }
    ensures certified { IfOk result (λ a. IfSome (F.held files.old name.now) (λ bytes. IsCertified bytes (certificate_of a))) }
    ensures refusal { IfErr result (λ e. IsUncertified (F.held files.old name.now)
        (F.faults files.old name.now) (F.faults files.new name.now) e) }
{
    let bytes = read_all(alloc, files, name, CERTIFICATE_LIMIT)?;
    Ok(read_answer(alloc, &bytes)?)
}

// Judges an answer to a problem, by so many workers, 1 to 16: `WrongShape` comes where it is to another form of problem, and `No` with the
// first clause that fails where it isn't right.
fn judge_answer<R: CheckWorkers>(
    rt: &R,
    alloc: Global,
    problem: &Problem,
    answer: &Answer,
    workers: u32,
) -> Result<(), NotRight>
    requires shared { R.shared rt.now }
    requires valid { IsValid (instance_of problem.now) }
    requires ranged { IsRanged (certificate_of answer.now) }
    requires workers { AreWorkers workers }
    ensures fitting { OnOk result (fits (instance_of problem.now) (certificate_of answer.now) ≡ true) }
    ensures right { OnOk result (IsRight (instance_of problem.now) (certificate_of answer.now)) }
    ensures refusal { IfErr result (IsNotFoundRight (instance_of problem.now) (certificate_of answer.now)) }
{
    if !fits(problem, answer) {
        return Err(NotRight::WrongShape);
    }
    match check(rt, alloc, problem, answer, workers)? {
        Verdict::Yes => Ok(()),
        Verdict::No { reason, a, b } => Err(NotRight::No(reason, a, b)),
    }
}

/// The right answer to a problem that the file of this name has, judged by so many workers, 1 to 16: `WrongShape` comes where the answer is to
/// another form of problem, and `No` with the first clause that fails where it isn't right.
pub fn right_answer_in<R: CheckWorkers, F: Shelf>(
    rt: &R,
    alloc: Global,
    files: &mut F,
    name: &str,
    problem: &Problem,
    workers: u32,
) -> Result<Answer, NotRight>
    // Other threads may be handed a reference to who works, which is so of every runtime and of a worker that starts no thread.
    requires shared { R.shared rt.now }
    requires valid { IsValid (instance_of problem.now) }
    requires workers { AreWorkers workers }
    ensures held { (other : List ℕ) → F.held files.new other ≡ F.held files.old other }
    ensures grows { (other : List ℕ) → F.faults files.old other ≤ F.faults files.new other }
    ensures ranged { IfOk result (λ a. IsRanged (certificate_of a)) }
    ensures right { IfOk result (λ a. IsRight (instance_of problem.now) (certificate_of a)) }
    ensures answer { IfOk result (λ a. IfSome (F.held files.old name.now)
        (λ bytes. IsRightAnswer (instance_of problem.now) bytes (certificate_of a))) }
    ensures refusal { IfErr result (λ e. IsNotRight (instance_of problem.now) (F.held files.old name.now)
        (F.faults files.old name.now) (F.faults files.new name.now) e) }
{
    let answer = answer_in(alloc, files, name)?;
    judge_answer(rt, alloc, problem, &answer, workers).and(Ok(answer))
}

/// Judges the certificate in the file of this name, by so many workers, 1 to 16: it has a right answer to the problem, or it is told why not, as
/// by `right_answer_in`.
pub fn judge<R: CheckWorkers, F: Shelf>(
    rt: &R,
    alloc: Global,
    files: &mut F,
    name: &str,
    problem: &Problem,
    workers: u32,
) -> Result<(), NotRight>
    // Other threads may be handed a reference to who works, which is so of every runtime and of a worker that starts no thread.
    requires shared { R.shared rt.now }
    requires valid { IsValid (instance_of problem.now) }
    requires workers { AreWorkers workers }
    ensures held { (other : List ℕ) → F.held files.new other ≡ F.held files.old other }
    ensures grows { (other : List ℕ) → F.faults files.old other ≤ F.faults files.new other }
    ensures right { OnOk result (IfSome (F.held files.old name.now) (HasRightAnswer (instance_of problem.now))) }
    ensures refusal { IfErr result (λ e. IsNotRight (instance_of problem.now) (F.held files.old name.now)
        (F.faults files.old name.now) (F.faults files.new name.now) e) }
{
    right_answer_in(rt, alloc, files, name, problem, workers).map(drop)
}
