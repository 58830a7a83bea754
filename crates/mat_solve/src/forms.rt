//! The forms of the problems that queries are about.

ghost use Rattle.std.specs.Prelude.{◌≡◌, ◌∷◌, [], true};
ghost use Rattle.mat_any.specs.Views.{tree_of};
ghost use Rattle.mat_check.specs.Fitting.{is_single};
ghost use Rattle.mat_problem.specs.{Instances.{list}, Views.{instance_of}};
ghost use Rattle.mat_solve.specs.Queries.{has_form};

use crate::query::Query;
use mat_any::AnyMatroid;
use mat_check::is_single_list;
use mat_problem::Problem;
use mat_sets::PairWeights;

/// Whether the form of the problem is that of the query. It takes no memory.
pub fn has_form(query: Query, problem: &Problem) -> bool
    ensures { result ≡ has_form query (instance_of problem.now) }
{
    match query {
        Query::Best | Query::Pack | Query::Cover => is_single_list(problem),
        Query::Intersect => matches!(problem, Problem::Pair { .. }),
        Query::Union => matches!(problem, Problem::List { .. }),
        Query::Trees(_) => matches!(problem, Problem::Graph { .. }),
        Query::Arborescence | Query::Disjoint(_) => matches!(problem, Problem::Rooted { .. }),
        Query::Rainbow => matches!(problem, Problem::Coloured { .. }),
        Query::Assign => matches!(problem, Problem::Table { .. }),
    }
}

/// The only matroid of the list that the problem is, behind the weights.
pub(crate) fn only_matroid(problem: &Problem) -> (&PairWeights, &AnyMatroid)
    requires { is_single (instance_of problem.now) ≡ true }
    ensures { instance_of problem.now ≡ list result.0.now (tree_of result.1.now ∷ []) }
{
    let Problem::List { weights, matroids } = problem else {
        unreachable!()
    };
    let [matroid] = matroids.as_slice() else {
        unreachable!()
    };
    (weights, matroid)
}
