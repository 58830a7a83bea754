//! What a right answer is worth. Each law is the contract of a function that does nothing.

ghost use Rattle.std.specs.Prelude.{◌≡◌, ◌↔◌, true, None};
ghost use Rattle.mat_cert.specs.Certificates.{Certificate, IsRanged};
ghost use Rattle.mat_check.specs.{AnswerClauses.{failure_of}, Fitting.{fits}, Optimal.{IsOptimal}};
ghost use Rattle.mat_problem.specs.{Validity.{IsValid}, Instances.{Instance}};
ghost use Rattle.mat_right.specs.Right.{IsRight};

/// An answer in range to a problem that it fits is right exactly where none of its clauses fails.
pub fn right_has_no_failure()
    ensures { (instance : Instance) (answer : Certificate) → IsValid instance → IsRanged answer
        → fits instance answer ≡ true → IsRight instance answer ↔ (failure_of instance answer ≡ None) }
{}

/// No better answer of the command exists than a right one (Frank 1981; the bound by the cut is Edmonds').
pub fn right_is_optimal()
    ensures { (instance : Instance) (answer : Certificate) → IsValid instance → IsRight instance answer
        → IsOptimal instance answer }
{}
