//! The header of an answer: whether it has the problem's numbers.

ghost use Rattle.std.specs.Prelude.{◌≡◌, ℕ, List, length, map, IfOk};
ghost use Rattle.mat_sets.specs.declared.weight.Weight.{Weight};
ghost use Rattle.mat_any.specs.Views.{tree_of};
ghost use Rattle.mat_cert.specs.Views.{certificate_of};
ghost use Rattle.mat_check.specs.AnswerClauses.{has_header};
ghost use Rattle.mat_problem.specs.{Instances.{list, graph, rooted}, Views.{instance_of}};

use mat_any::AnyMatroid;
use mat_cert::Answer;
use mat_problem::Problem;
use mat_sets::{Weight, falling_weights};
use std::alloc::{AllocError, Global};

// Whether the header of an answer about a list of matroids has its numbers.
fn has_list_header(
    alloc: Global,
    weights: &[Weight],
    matroids: &[AnyMatroid],
    answer: &Answer,
) -> Result<bool, AllocError>
    ensures { IfOk result (λ same. same ≡ has_header (list weights.now (map tree_of matroids.now)) (certificate_of answer.now)) }
{
    match answer {
        Answer::UnionOf {
            count,
            parts,
            levels,
            ..
        } => {
            let falling = falling_weights(alloc, weights)?;
            Ok(
                *count as usize == weights.len()
                    && parts.len() == matroids.len()
                    && levels.len() == falling.len(),
            )
        }
        Answer::Best { count, .. }
        | Answer::PackAny { count }
        | Answer::Pack { count, .. }
        | Answer::CoverNever { count, .. }
        | Answer::Cover { count, .. } => {
            Ok(matroids.len() == 1 && *count as usize == weights.len())
        }
        _ => Ok(false),
    }
}

// Whether the header of an answer about a graph of so many vertices and edges has its numbers.
fn has_graph_header(vertices: u32, edges: usize, answer: &Answer) -> bool
    ensures { (ends : List (ℕ × ℕ)) → length ends ≡ edges → result ≡ has_header (graph vertices ends) (certificate_of answer.now) }
{
    match answer {
        Answer::Trees { count, .. } => *count as usize == edges,
        Answer::TreesNone {
            count,
            vertices: told,
            ..
        } => *count as usize == edges && *told == vertices,
        _ => false,
    }
}

// Whether the header of an answer about a directed graph of so many vertices and arcs has its numbers.
fn has_rooted_header(vertices: u32, arcs: usize, answer: &Answer) -> bool
    ensures { (root : ℕ) (ends : List (ℕ × ℕ)) (costs : List Weight) → length ends ≡ arcs
        → result ≡ has_header (rooted vertices root ends costs) (certificate_of answer.now) }
{
    match answer {
        Answer::Arbor { count, .. } | Answer::Disjoint { count, .. } => *count as usize == arcs,
        Answer::Unreached {
            count,
            vertices: told,
            ..
        }
        | Answer::DisjointNone {
            count,
            vertices: told,
            ..
        } => *count as usize == arcs && *told == vertices,
        _ => false,
    }
}

/// Whether the header of an answer has the numbers of the problem. The only error is want of memory.
pub(crate) fn has_header(
    alloc: Global,
    problem: &Problem,
    answer: &Answer,
) -> Result<bool, AllocError>
    ensures { IfOk result (λ same. same ≡ has_header (instance_of problem.now) (certificate_of answer.now)) }
{
    match problem {
        Problem::Pair { weights, .. } => match answer {
            Answer::Intersect { count, .. } => Ok(*count as usize == weights.len()),
            _ => Ok(false),
        },
        Problem::List { weights, matroids } => {
            has_list_header(alloc, weights.as_slice(), matroids.as_slice(), answer)
        }
        Problem::Graph { vertices, edges } => Ok(has_graph_header(*vertices, edges.len(), answer)),
        Problem::Rooted { vertices, arcs, .. } => {
            Ok(has_rooted_header(*vertices, arcs.len(), answer))
        }
        Problem::Coloured {
            vertices,
            colours,
            edges,
            ..
        } => match answer {
            Answer::Rainbow {
                count,
                vertices: told,
                colours: told_colours,
                ..
            } => Ok(
                *count as usize == edges.len() && *told == *vertices && *told_colours == *colours,
            ),
            _ => Ok(false),
        },
        Problem::Table {
            rows,
            columns,
            cells,
            ..
        } => match answer {
            Answer::Assign {
                count,
                rows: told,
                columns: told_columns,
                ..
            } => Ok(*count as usize == cells.len() && *told == *rows && *told_columns == *columns),
            _ => Ok(false),
        },
    }
}
