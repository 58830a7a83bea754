//! Verifying the witness in a file for a rung of the certificate in another.

ghost use Rattle.std.specs.Prelude.{◌≡◌, ◌≤◌, ℕ, List, true, length, Some, OnOk, IfErr, IfSome};
ghost use Rattle.mat_cert.specs.{Certificates.{Certificate, IsRanged}, Views.{certificate_of}};
ghost use Rattle.mat_problem.specs.{Validity.{IsValid}, Views.{instance_of}};
ghost use Rattle.mat_witness.specs.{Kinds.{has_rung, is_witnessed_pair}, Lines.{witness_limit}};
ghost use Rattle.mat_verify.specs.{WitnessOutcomes.{IsVerifyOutcome}, WitnessRefusals.{IsUnshown, IsUnverified}, Witnessing.{IsRungAnswer}};

use crate::refusals::Unshown;
use crate::rung_answer::rung_answer_in;
use mat_cert::Answer;
use mat_judge::{Refusal, Status, read_all};
use mat_problem::Problem;
use mat_shelf::Shelf;
use mat_witness::{read_witness, verify};
use std::alloc::Global;

// The most bytes that a witness may have.
const WITNESS_LIMIT: usize = 67_108_864;

// Verifies the witness in these bytes.
fn verify_bytes(
    alloc: Global,
    problem: &Problem,
    answer: &Answer,
    k: u32,
    bytes: &[u8],
) -> Result<(), Unshown>
    requires within { length bytes.now ≤ witness_limit }
    requires valid { IsValid (instance_of problem.now) }
    requires ranged { IsRanged (certificate_of answer.now) }
    requires rung { has_rung (certificate_of answer.now) k ≡ true }
    requires witnessed { is_witnessed_pair (instance_of problem.now) ≡ true }
    ensures shown { OnOk result (IsVerifyOutcome (instance_of problem.now) (certificate_of answer.now) k bytes.now Status.Done) }
    ensures refusal { IfErr result (λ e. IsUnshown (instance_of problem.now) (certificate_of answer.now) k (Some bytes.now) 0 0 e) }
{
    let witness = read_witness(alloc, bytes, problem, answer, k)?;
    let failing = verify(alloc, problem, answer, k, &witness);
    drop(witness);
    match failing? {
        None => Ok(()),
        Some(part) => Err(Unshown::Part(part)),
    }
}

// Verifies the witness in the file of this name for rung k of an answer.
fn verify_file<F: Shelf>(
    alloc: Global,
    files: &mut F,
    name: &str,
    problem: &Problem,
    answer: &Answer,
    k: u32,
) -> Result<(), Unshown>
    requires valid { IsValid (instance_of problem.now) }
    requires ranged { IsRanged (certificate_of answer.now) }
    requires rung { has_rung (certificate_of answer.now) k ≡ true }
    requires witnessed { is_witnessed_pair (instance_of problem.now) ≡ true }
    ensures held { (other : List ℕ) → F.held files.new other ≡ F.held files.old other }
    ensures grows { (other : List ℕ) → F.faults files.old other ≤ F.faults files.new other }
    ensures shown { OnOk result (IfSome (F.held files.old name.now)
        (λ bytes. IsVerifyOutcome (instance_of problem.now) (certificate_of answer.now) k bytes Status.Done)) }
    ensures refusal { IfErr result (λ e. IsUnshown (instance_of problem.now) (certificate_of answer.now) k (F.held files.old name.now)
        (F.faults files.old name.now) (F.faults files.new name.now) e) }
{
    let bytes = read_all(alloc, files, name, WITNESS_LIMIT)?;
    verify_bytes(alloc, problem, answer, k, &bytes)
}

/// Verifies the witness in the file of the second name for rung k of the answer that the certificate in the file of the first has, right or
/// not. The refusal is the first of these that applies: `Unread` where the certificate was not read or has more than 67,108,864 bytes,
/// `BadCertificate` with its first fault where it is none, `WrongShape` where its answer is to another form of problem or has no such rung,
/// `Unwitnessed` where a matroid is not of a kind that has witnesses; then `Unread` for the witness, with the same limit, `BadWitness` with its
/// first fault where it is none, and `NotShown` with its first part that fails. Want of memory may come at any time.
pub fn verify_in<F: Shelf>(
    alloc: Global,
    files: &mut F,
    certificate: &str,
    witness: &str,
    problem: &Problem,
    k: u32,
) -> Result<(), Refusal>
    requires valid { IsValid (instance_of problem.now) }
    ensures held { (name : List ℕ) → F.held files.new name ≡ F.held files.old name }
    ensures grows { (name : List ℕ) → F.faults files.old name ≤ F.faults files.new name }
    ensures shown { OnOk result (IfSome (F.held files.old certificate.now) (λ bytes. (answer : Certificate)
        × IsRungAnswer (instance_of problem.now) k bytes answer
        × IfSome (F.held files.old witness.now) (λ text. IsVerifyOutcome (instance_of problem.now) answer k text Status.Done))) }
    ensures refusal { IfErr result (λ e. IsUnverified (F.held files.old) (instance_of problem.now) k certificate.now witness.now
        (F.faults files.old) (F.faults files.new) e) }
{
    let answer = rung_answer_in(alloc, files, certificate, problem, k)?;
    let shown = verify_file(alloc, files, witness, problem, &answer, k);
    drop(answer);
    Ok(shown?)
}
