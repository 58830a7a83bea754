//! What a witness is worth. Each law is the contract of a function that does nothing.

ghost use Rattle.std.specs.Prelude.{◌≡◌, ℕ, true};
ghost use Rattle.mat_cert.specs.Certificates.{Certificate, IsRanged};
ghost use Rattle.mat_problem.specs.{Validity.{IsValid}, Instances.{Instance}};
ghost use Rattle.mat_witness.specs.{Kinds.{has_rung, is_witnessed_pair}, Parts.{WitnessParts}, Shown.{IsProvedRung, IsShown, IsWitnessFor}};

/// Where a witness shows rung k, the weight of the rung is that of its set, its halves add up to the weights and its set is heaviest of its
/// size under each; so it is a heaviest common independent set of k elements, and no common independent set has more elements than the last
/// rung's (Frank 1981; the bound is Edmonds').
pub fn shown_is_best()
    ensures { (instance : Instance) (answer : Certificate) (k : ℕ) (witness : WitnessParts) → IsValid instance
        → is_witnessed_pair instance ≡ true → IsRanged answer → has_rung answer k ≡ true → IsWitnessFor instance answer k witness
        → IsShown instance answer k witness → IsProvedRung instance answer k }
{}
