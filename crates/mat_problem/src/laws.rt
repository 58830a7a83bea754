//! What holds of every problem in range.

ghost use Rattle.mat_problem.specs.{Instances.{Instance}, Soundness.{IsSoundInstance}, Validity.{IsValid}};

/// Each matroid of a problem in range is sound, and on as many elements as the problem has weights.
pub fn soundness_laws()
    ensures { (instance : Instance) → IsValid instance → IsSoundInstance instance }
{}
