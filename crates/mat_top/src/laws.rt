//! What holds of every solution.

ghost use Rattle.std.specs.Prelude.{◌≡◌, ◌<◌, ℕ, List, length, Option, Some};
ghost use Rattle.mat_problem.specs.{Validity.{IsValid}, Instances.{Instance}};
ghost use Rattle.mat_cert.specs.Certificates.{Certificate, certificate_text};
ghost use Rattle.mat_solve.specs.Answers.{IsSolution, IsSolutionText};
ghost use Rattle.mat_command.specs.CommandLines.{about, check};
ghost use Rattle.mat_judge.specs.Described.{IsDescribed};
ghost use Rattle.mat_top.specs.Outcomes.{IsCertificateOutcome, IsOutcome};

use mat_judge::Status;
use mat_solve::Query;

/// What holds of every solution. The text of one to a problem in range, which is what is printed, has less than 24,000,000 bytes. The
/// text of each is accepted; so, where a file has it, `check` over the same description says yes.
pub fn solution_laws()
    ensures short { (instance : Instance) (certificate : Certificate) → IsValid instance → IsSolution instance certificate
        → length (certificate_text certificate) < 24000000 }
    ensures accepted { (instance : Instance) (certificate : Certificate) → IsSolution instance certificate
        → IsCertificateOutcome instance (certificate_text certificate) Status.Done }
    ensures checked { (held : List ℕ → Option (List ℕ)) (query : Query) (file other bytes text : List ℕ) (instance : Instance)
        → held file ≡ Some bytes → IsDescribed bytes instance → IsSolutionText query instance text → held other ≡ Some text
        → IsOutcome held (Some (about file (check other))) Status.Done }
{}
