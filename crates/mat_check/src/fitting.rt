//! Which answers fit which problems.

ghost use Rattle.std.specs.Prelude.{◌≡◌};
ghost use Rattle.mat_cert.specs.Views.{certificate_of};
ghost use Rattle.mat_check.specs.Fitting.{fits, is_single};
ghost use Rattle.mat_problem.specs.Views.{instance_of};

use mat_cert::Answer;
use mat_problem::Problem;

/// Whether the form of the problem is the one that the answer's command takes.
pub fn fits(problem: &Problem, answer: &Answer) -> bool
    ensures { result ≡ fits (instance_of problem.now) (certificate_of answer.now) }
{
    match answer {
        Answer::Intersect { .. } => matches!(problem, Problem::Pair { .. }),
        Answer::UnionOf { .. } => matches!(problem, Problem::List { .. }),
        Answer::Best { .. }
        | Answer::PackAny { .. }
        | Answer::Pack { .. }
        | Answer::CoverNever { .. }
        | Answer::Cover { .. } => is_single_list(problem),
        Answer::Trees { .. } | Answer::TreesNone { .. } => matches!(problem, Problem::Graph { .. }),
        Answer::Arbor { .. }
        | Answer::Unreached { .. }
        | Answer::Disjoint { .. }
        | Answer::DisjointNone { .. } => matches!(problem, Problem::Rooted { .. }),
        Answer::Rainbow { .. } => matches!(problem, Problem::Coloured { .. }),
        Answer::Assign { .. } => matches!(problem, Problem::Table { .. }),
    }
}

/// Whether the problem's form is a list of one matroid.
pub fn is_single_list(problem: &Problem) -> bool
    ensures { result ≡ is_single (instance_of problem.now) }
{
    match problem {
        Problem::List { matroids, .. } => matroids.len() == 1,
        _ => false,
    }
}
