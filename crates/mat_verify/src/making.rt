//! Making a witness for a rung of the certificate in a file.

ghost use Rattle.std.specs.Prelude.{◌≡◌, ◌≤◌, ℕ, List, true, length, IfOk, IfErr, IfSome};
ghost use Rattle.mat_cert.specs.{Certificates.{IsRanged}, Views.{certificate_of}};
ghost use Rattle.mat_problem.specs.{Validity.{IsValid}, Views.{instance_of}};
ghost use Rattle.mat_right.specs.Right.{IsRight};
ghost use Rattle.mat_witness.specs.{Kinds.{is_witnessed_pair}, Lines.{witness_limit}};
ghost use Rattle.mat_verify.specs.{
  WitnessOutcomes.{IsWitnessFound},
  WitnessRefusals.{HasNoWitness, IsRefusedAnswer},
  Witnessing.{IsShowing, fits_rung},
};

use crate::rung_answer::rung_answer_in;
use mat_cert::Answer;
use mat_check::{CheckWorkers, Verdict, check};
use mat_judge::{Denial, Refusal};
use mat_problem::Problem;
use mat_shelf::Shelf;
use mat_witness::{make_witness, write_witness};
use std::alloc::{AllocError, Global};

// The text of a witness for rung k of a right answer. The only error is want of memory.
fn text_of_witness(
    alloc: Global,
    problem: &Problem,
    answer: &Answer,
    k: u32,
) -> Result<Vec<u8>, AllocError>
    requires valid { IsValid (instance_of problem.now) }
    requires ranged { IsRanged (certificate_of answer.now) }
    requires rung { fits_rung (instance_of problem.now) (certificate_of answer.now) k ≡ true }
    requires witnessed { is_witnessed_pair (instance_of problem.now) ≡ true }
    requires right { IsRight (instance_of problem.now) (certificate_of answer.now) }
    ensures { IfOk result (λ v. IsShowing (instance_of problem.now) (certificate_of answer.now) k v.items) }
{
    let witness = make_witness(alloc, problem, answer, k)?;
    let text = write_witness(alloc, &witness, problem, answer, k);
    drop(witness);
    text
}

// The text of a witness for rung k of an answer, which has to be right: else the first clause that fails is told.
fn text_of_rung<R: CheckWorkers>(
    rt: &R,
    alloc: Global,
    problem: &Problem,
    answer: &Answer,
    k: u32,
) -> Result<Vec<u8>, Refusal>
    requires shared { R.shared rt.now }
    requires valid { IsValid (instance_of problem.now) }
    requires ranged { IsRanged (certificate_of answer.now) }
    requires rung { fits_rung (instance_of problem.now) (certificate_of answer.now) k ≡ true }
    requires witnessed { is_witnessed_pair (instance_of problem.now) ≡ true }
    ensures text { IfOk result (λ v. IsRight (instance_of problem.now) (certificate_of answer.now)
        × IsShowing (instance_of problem.now) (certificate_of answer.now) k v.items) }
    ensures refusal { IfErr result (λ e. IsRefusedAnswer (instance_of problem.now) (certificate_of answer.now) e) }
{
    match check(rt, alloc, problem, answer, 1)? {
        Verdict::Yes => Ok(text_of_witness(alloc, problem, answer, k)?),
        Verdict::No { reason, a, b } => Err(Refusal::Denied(Denial::No(reason, a, b))),
    }
}

/// The text of a witness for rung k of the answer that the certificate in the file of this name has, which has to be right. The refusal is the
/// first of these that applies: `Unread` where the file was not read or has more than 67,108,864 bytes, `BadCertificate` with its first fault
/// where it is no certificate, `WrongShape` where its answer is to another form of problem or has no such rung, `Unwitnessed` where a matroid
/// is not of a kind that has witnesses, and `No` with the first clause that fails where the answer isn't right. Want of memory may come at any
/// time.
pub fn witness_text<R: CheckWorkers, F: Shelf>(
    rt: &R,
    alloc: Global,
    files: &mut F,
    certificate: &str,
    problem: &Problem,
    k: u32,
) -> Result<Vec<u8>, Refusal>
    // `rt` may be shared with other threads. This holds of every runtime, and of a worker that starts no thread.
    requires shared { R.shared rt.now }
    requires valid { IsValid (instance_of problem.now) }
    ensures held { (name : List ℕ) → F.held files.new name ≡ F.held files.old name }
    ensures grows { (name : List ℕ) → F.faults files.old name ≤ F.faults files.new name }
    ensures text { IfOk result (λ v. IfSome (F.held files.old certificate.now)
        (λ bytes. IsWitnessFound (instance_of problem.now) k bytes v.items)) }
    ensures short { IfOk result (λ v. length v.items ≤ witness_limit) }
    ensures refusal { IfErr result (λ e. HasNoWitness (instance_of problem.now) k (F.held files.old certificate.now)
        (F.faults files.old certificate.now) (F.faults files.new certificate.now) e) }
{
    let answer = rung_answer_in(alloc, files, certificate, problem, k)?;
    let text = text_of_rung(rt, alloc, problem, &answer, k);
    drop(answer);
    text
}
