//! Trees: spanning trees and arborescences.

ghost use Rattle.std.specs.Prelude.{◌≡◌, ◌≤◌, true, IfOk};
ghost use Rattle.mat_sets.specs.Limits.{most_trees};
ghost use Rattle.mat_work.specs.Workers.{AreWorkers};
ghost use Rattle.mat_problem.specs.{Views.{instance_of}, Validity.{IsValid}};
ghost use Rattle.mat_cert.specs.Views.{certificate_of};
ghost use Rattle.mat_check.specs.Fitting.{is_graph, is_rooted};
ghost use Rattle.mat_solve.specs.{Answers.{IsSolution}, Queries.{IsAnswerOf}};

use crate::query::Query;
use mat_arbor::{Arbor, least_arborescence};
use mat_branch::Branch;
use mat_cert::Answer;
use mat_flow::Digraph;
use mat_packing::pack_trees;
use mat_problem::Problem;
use mat_sets::weigh;
use std::alloc::{AllocError, Global};

/// So many disjoint spanning trees, or a partition of the vertices that allows no so many. The only error is want of memory.
pub(crate) fn trees(alloc: Global, problem: &Problem, k: u32) -> Result<Answer, AllocError>
    requires valid { IsValid (instance_of problem.now) }
    requires form { is_graph (instance_of problem.now) ≡ true }
    requires range { (1 ≤ k) × (k ≤ most_trees) }
    ensures of_query { IfOk result (λ answer. IsAnswerOf (Query.Trees k) (certificate_of answer)) }
    ensures solution { IfOk result (λ answer. IsSolution (instance_of problem.now) (certificate_of answer)) }
{
    let Problem::Graph { vertices, edges } = problem else {
        unreachable!()
    };
    let count = edges.len() as u32;
    let found = pack_trees(alloc, *vertices, edges, k)?;
    match found {
        mat_packing::Trees::Trees(trees) => Ok(Answer::Trees { count, trees }),
        mat_packing::Trees::Partition(classes) => {
            // (the list tells the proof that each of its sets rises)
            let _classes = classes.as_slice();
            Ok(Answer::TreesNone {
                count,
                k,
                vertices: *vertices,
                classes,
            })
        }
    }
}

/// A cheapest spanning arborescence with its cost, or the vertices that the root does not reach. No thread is started, whatever the number of
/// workers. The only error is want of memory.
pub(crate) fn arborescence(
    alloc: Global,
    problem: &Problem,
    workers: u32,
) -> Result<Answer, AllocError>
    requires valid { IsValid (instance_of problem.now) }
    requires form { is_rooted (instance_of problem.now) ≡ true }
    requires workers { AreWorkers workers }
    ensures of_query { IfOk result (λ answer. IsAnswerOf Query.Arborescence (certificate_of answer)) }
    ensures solution { IfOk result (λ answer. IsSolution (instance_of problem.now) (certificate_of answer)) }
{
    let Problem::Rooted {
        vertices,
        root,
        arcs,
        costs,
    } = problem
    else {
        unreachable!()
    };
    let count = arcs.len() as u32;
    let found = least_arborescence(alloc, *vertices, arcs, costs.as_slice(), *root, workers)?;
    match found {
        Arbor::Tree {
            arcs,
            first,
            second,
        } => {
            let cost = weigh(&arcs, costs.as_slice());
            Ok(Answer::Arbor {
                count,
                cost,
                arcs,
                first,
                second,
            })
        }
        Arbor::Unreached(set) => Ok(Answer::Unreached {
            count,
            vertices: *vertices,
            set,
        }),
    }
}

/// So many disjoint spanning arborescences, or a vertex set that fewer arcs enter, whatever the arcs cost. The only error is want of memory.
pub(crate) fn disjoint(alloc: Global, problem: &Problem, k: u32) -> Result<Answer, AllocError>
    requires valid { IsValid (instance_of problem.now) }
    requires form { is_rooted (instance_of problem.now) ≡ true }
    requires range { (1 ≤ k) × (k ≤ most_trees) }
    ensures of_query { IfOk result (λ answer. IsAnswerOf (Query.Disjoint k) (certificate_of answer)) }
    ensures solution { IfOk result (λ answer. IsSolution (instance_of problem.now) (certificate_of answer)) }
{
    let Problem::Rooted {
        vertices,
        root,
        arcs,
        ..
    } = problem
    else {
        unreachable!()
    };
    let count = arcs.len() as u32;
    let graph = Digraph::new(alloc, *vertices, arcs.copy(alloc)?)?;
    let found = mat_branch::disjoint(alloc, &graph, *root, k)?;
    match found {
        Branch::All(trees) => Ok(Answer::Disjoint { count, trees }),
        Branch::Cut(set) => Ok(Answer::DisjointNone {
            count,
            k,
            vertices: *vertices,
            set,
        }),
    }
}
