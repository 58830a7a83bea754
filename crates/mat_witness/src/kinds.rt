//! Which problems and answers have witnesses.

ghost use Rattle.std.specs.Prelude.{◌≡◌};
ghost use Rattle.mat_any.specs.Views.{tree_of};
ghost use Rattle.mat_cert.specs.Views.{certificate_of};
ghost use Rattle.mat_problem.specs.Views.{instance_of};
ghost use Rattle.mat_witness.specs.Kinds.{has_rung, is_witnessed, is_witnessed_pair};

use mat_any::AnyMatroid;
use mat_cert::Answer;
use mat_problem::Problem;

// Whether a matroid is of a witnessed kind.
fn is_witnessed(matroid: &AnyMatroid) -> bool
    ensures { result ≡ is_witnessed (tree_of matroid.now) }
{
    match matroid {
        AnyMatroid::Uniform(_)
        | AnyMatroid::Partition(_)
        | AnyMatroid::Laminar(_)
        | AnyMatroid::Graphic(_)
        | AnyMatroid::Gammoid(_)
        | AnyMatroid::Gf2(_) => true,
        AnyMatroid::Transversal(_)
        | AnyMatroid::Dual(_)
        | AnyMatroid::Truncate { .. }
        | AnyMatroid::Restrict { .. }
        | AnyMatroid::Contract { .. }
        | AnyMatroid::Union { .. } => false,
    }
}

/// Whether a problem is one of two matroids that are each uniform, partition, laminar or graphic matroids, gammoids or linear over the field
/// of two elements: those that witnesses are for.
pub fn are_witnessed(problem: &Problem) -> bool
    ensures { result ≡ is_witnessed_pair (instance_of problem.now) }
{
    match problem {
        Problem::Pair { first, second, .. } => is_witnessed(first) && is_witnessed(second),
        _ => false,
    }
}

/// Whether an answer is one to `intersect` with a rung of this number.
pub fn has_rung(answer: &Answer, k: u32) -> bool
    ensures { result ≡ has_rung (certificate_of answer.now) k }
{
    match answer {
        Answer::Intersect { rungs, .. } => (k as usize) < rungs.len(),
        _ => false,
    }
}
