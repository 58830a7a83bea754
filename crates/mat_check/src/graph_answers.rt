//! The clauses of answers about graphs and tables.

ghost use Rattle.std.specs.Prelude.{◌≡◌, true, IfOk};
ghost use Rattle.mat_work.specs.Workers.{AreWorkers};
ghost use Rattle.mat_cert.specs.{Certificates.{IsRanged}, Views.{certificate_of}};
ghost use Rattle.mat_check.specs.{AnswerClauses.{answer_clauses, has_header}, Clauses.{first_failure}};
ghost use Rattle.mat_problem.specs.{Validity.{IsValid}, Instances.{coloured, graph, rooted, table}};

use crate::graphs::arborescence::least_failure;
use crate::graphs::disjoint_arborescences::{disjoint_failure, seldom_entered_failure};
use crate::graphs::trees::{partition_failure, trees_failure};
use crate::ladder::fronts::{assign_failure, rainbow_failure};
use crate::reason::Failure;
use crate::workers::CheckWorkers;
use mat_cert::Answer;
use mat_sets::{PairWeights, Pairs, Weight};
use std::alloc::{AllocError, Global};

/// The first clause behind the header of an answer about a graph that fails. The only error is want of memory.
pub(crate) fn graph_failure(
    alloc: Global,
    vertices: u32,
    edges: &Pairs,
    answer: &Answer,
) -> Result<Option<Failure>, AllocError>
    requires valid { IsValid (graph vertices edges.now) }
    requires ranged { IsRanged (certificate_of answer.now) }
    requires header { has_header (graph vertices edges.now) (certificate_of answer.now) ≡ true }
    ensures { IfOk result (λ found. found ≡ first_failure (answer_clauses (graph vertices edges.now) (certificate_of answer.now))) }
{
    match answer {
        Answer::Trees { trees, .. } => trees_failure(alloc, vertices, edges, trees.as_slice()),
        Answer::TreesNone { k, classes, .. } => {
            Ok(partition_failure(vertices, edges, *k, classes.as_slice()))
        }
        _ => unreachable!(),
    }
}

/// The first clause behind the header of an answer about a directed graph that fails. The only error is want of memory.
pub(crate) fn rooted_failure(
    alloc: Global,
    vertices: u32,
    root: u32,
    arcs: &Pairs,
    costs: &[Weight],
    answer: &Answer,
) -> Result<Option<Failure>, AllocError>
    requires valid { IsValid (rooted vertices root arcs.now costs.now) }
    requires ranged { IsRanged (certificate_of answer.now) }
    requires header { has_header (rooted vertices root arcs.now costs.now) (certificate_of answer.now) ≡ true }
    ensures { IfOk result (λ found. found ≡ first_failure (answer_clauses (rooted vertices root arcs.now costs.now) (certificate_of answer.now))) }
{
    match answer {
        Answer::Arbor {
            cost,
            arcs: tree,
            first,
            second,
            ..
        } => least_failure(
            alloc,
            vertices,
            arcs,
            costs,
            root,
            *cost,
            tree,
            first.as_slice(),
            second.as_slice(),
        ),
        Answer::Unreached { set, .. } => Ok(seldom_entered_failure(arcs, root, 1, set)),
        Answer::Disjoint { trees, .. } => {
            disjoint_failure(alloc, vertices, arcs, root, trees.as_slice())
        }
        Answer::DisjointNone { k, set, .. } => Ok(seldom_entered_failure(arcs, root, *k, set)),
        _ => unreachable!(),
    }
}

/// The first clause behind the header of an answer about a graph with colours that fails. The only error is want of memory.
pub(crate) fn coloured_failure<R: CheckWorkers>(
    rt: &R,
    alloc: Global,
    vertices: u32,
    colours: u32,
    edges: &Pairs,
    colour_of: &[u32],
    weights: &PairWeights,
    answer: &Answer,
    workers: u32,
) -> Result<Option<Failure>, AllocError>
    requires shared { R.shared rt.now }
    requires valid { IsValid (coloured vertices colours edges.now colour_of.now weights.now) }
    requires ranged { IsRanged (certificate_of answer.now) }
    requires header { has_header (coloured vertices colours edges.now colour_of.now weights.now) (certificate_of answer.now) ≡ true }
    requires workers { AreWorkers workers }
    ensures { IfOk result (λ found. found ≡ first_failure (answer_clauses
        (coloured vertices colours edges.now colour_of.now weights.now) (certificate_of answer.now))) }
{
    match answer {
        Answer::Rainbow {
            rungs,
            cut,
            missing,
            ..
        } => rainbow_failure(
            rt,
            alloc,
            vertices,
            edges,
            colours,
            colour_of,
            weights.as_slice(),
            rungs,
            cut,
            missing,
            workers,
        ),
        _ => unreachable!(),
    }
}

/// The first clause behind the header of an answer about a table that fails. The only error is want of memory.
pub(crate) fn table_failure<R: CheckWorkers>(
    rt: &R,
    alloc: Global,
    rows: u32,
    columns: u32,
    cells: &Pairs,
    weights: &PairWeights,
    answer: &Answer,
    workers: u32,
) -> Result<Option<Failure>, AllocError>
    requires shared { R.shared rt.now }
    requires valid { IsValid (table rows columns cells.now weights.now) }
    requires ranged { IsRanged (certificate_of answer.now) }
    requires header { has_header (table rows columns cells.now weights.now) (certificate_of answer.now) ≡ true }
    requires workers { AreWorkers workers }
    ensures { IfOk result (λ found. found ≡ first_failure (answer_clauses (table rows columns cells.now weights.now) (certificate_of answer.now))) }
{
    match answer {
        Answer::Assign { rungs, cut, .. } => assign_failure(
            rt,
            alloc,
            rows,
            columns,
            cells,
            weights.as_slice(),
            rungs,
            cut,
            workers,
        ),
        _ => unreachable!(),
    }
}
