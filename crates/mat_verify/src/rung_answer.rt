//! The answer of a certificate, of which a rung can be witnessed.

ghost use Rattle.std.specs.Prelude.{◌≡◌, ◌≤◌, ℕ, List, true, OnOk, IfOk, IfErr, IfSome};
ghost use Rattle.mat_cert.specs.{Certificates.{IsRanged}, Views.{certificate_of}};
ghost use Rattle.mat_problem.specs.Views.{instance_of};
ghost use Rattle.mat_witness.specs.Kinds.{is_witnessed_pair};
ghost use Rattle.mat_verify.specs.{WitnessRefusals.{HasNoRung, IsUnwitnessable}, Witnessing.{IsRungAnswer, fits_rung}};

use crate::refusals::NoRung;
use mat_cert::Answer;
use mat_check::fits;
use mat_judge::answer_in;
use mat_problem::Problem;
use mat_shelf::Shelf;
use mat_witness::{are_witnessed, has_rung};
use std::alloc::Global;

// Whether rung k of an answer can be witnessed: `WrongShape` comes where the answer is to another form of problem or has no such rung, and
// `Unwitnessed` where a matroid is not of a kind that has witnesses.
fn witnessable(problem: &Problem, answer: &Answer, k: u32) -> Result<(), NoRung>
    ensures rung { OnOk result (fits_rung (instance_of problem.now) (certificate_of answer.now) k ≡ true) }
    ensures witnessed { OnOk result (is_witnessed_pair (instance_of problem.now) ≡ true) }
    ensures refusal { IfErr result (IsUnwitnessable (instance_of problem.now) (certificate_of answer.now) k) }
{
    if !fits(problem, answer) || !has_rung(answer, k) {
        return Err(NoRung::WrongShape);
    }
    if !are_witnessed(problem) {
        return Err(NoRung::Unwitnessed);
    }
    Ok(())
}

/// The answer in the certificate of this name, which fits the problem and has rung k, over matroids of witnessed kinds. `Uncertified` comes
/// where the file was not read, is no certificate, or memory ran out, `WrongShape` where the answer is to another form of problem or has no
/// such rung, and `Unwitnessed` where a matroid is of another kind.
pub(crate) fn rung_answer_in<F: Shelf>(
    alloc: Global,
    files: &mut F,
    name: &str,
    problem: &Problem,
    k: u32,
) -> Result<Answer, NoRung>
    ensures held { (other : List ℕ) → F.held files.new other ≡ F.held files.old other }
    ensures grows { (other : List ℕ) → F.faults files.old other ≤ F.faults files.new other }
    ensures answer { IfOk result (λ a. IfSome (F.held files.old name.now)
        (λ bytes. IsRungAnswer (instance_of problem.now) k bytes (certificate_of a))) }
    ensures ranged { IfOk result (λ a. IsRanged (certificate_of a)) }
    ensures rung { IfOk result (λ a. fits_rung (instance_of problem.now) (certificate_of a) k ≡ true) }
    ensures witnessed { IfOk result (λ a. is_witnessed_pair (instance_of problem.now) ≡ true) }
    ensures refusal { IfErr result (λ e. HasNoRung (instance_of problem.now) k (F.held files.old name.now)
        (F.faults files.old name.now) (F.faults files.new name.now) e) }
{
    let answer = answer_in(alloc, files, name)?;
    witnessable(problem, &answer, k).and(Ok(answer))
}
