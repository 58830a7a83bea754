//! What holds of every text of a witness.

ghost use Rattle.std.specs.Prelude.{◌≡◌, ◌≤◌, ◌↔◌, ℕ, List, true, length, Ok};
ghost use Rattle.mat_cert.specs.Certificates.{Certificate, IsRanged};
ghost use Rattle.mat_problem.specs.{Validity.{IsValid}, Instances.{Instance}};
ghost use Rattle.mat_witness.specs.{
  Kinds.{has_rung, is_witnessed_pair},
  Lines.{witness_limit, witness_text},
  Parts.{WitnessParts},
  Reading.{read_of},
  Shown.{IsShown, IsWitnessFor},
};

/// The reading of a text gives exactly the witness for the rung whose text it is. The text of a witness that shows the rung has at most 2^26
/// bytes, and no two witnesses have one text.
pub fn witness_laws()
    ensures exact { (instance : Instance) (answer : Certificate) (k : ℕ) → IsValid instance → is_witnessed_pair instance ≡ true
        → IsRanged answer → has_rung answer k ≡ true → (text : List ℕ) (witness : WitnessParts)
        → (read_of instance answer k text ≡ Ok witness) ↔ (IsWitnessFor instance answer k witness × (text ≡ witness_text instance answer k witness)) }
    ensures short { (instance : Instance) (answer : Certificate) (k : ℕ) (witness : WitnessParts) → IsValid instance
        → is_witnessed_pair instance ≡ true → IsRanged answer → has_rung answer k ≡ true → IsWitnessFor instance answer k witness
        → IsShown instance answer k witness → length (witness_text instance answer k witness) ≤ witness_limit }
    ensures one_witness { (instance : Instance) (answer : Certificate) (k : ℕ) (first second : WitnessParts) → IsValid instance
        → is_witnessed_pair instance ≡ true → IsRanged answer → has_rung answer k ≡ true
        → IsWitnessFor instance answer k first → IsWitnessFor instance answer k second
        → witness_text instance answer k first ≡ witness_text instance answer k second → first ≡ second }
{}
