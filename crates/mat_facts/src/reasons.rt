//! The reason that a right answer gives.

ghost use Rattle.std.specs.Prelude.{◌≡◌, ℕ, Bool, ◌∷◌, [], false, map, All, IfOk};
ghost use Rattle.mat_any.specs.Views.{tree_of};
ghost use Rattle.mat_cert.specs.{Certificates.{IsRanged}, Views.{certificate_of}};
ghost use Rattle.mat_check.specs.Fitting.{is_union};
ghost use Rattle.mat_problem.specs.{
  Instances.{coloured, graph, list, pair, rooted, table},
  Soundness.{IsSoundInstance},
  Validity.{IsValid},
  Views.{instance_of},
};
ghost use Rattle.mat_right.specs.Right.{IsRight};
ghost use Rattle.mat_facts.specs.{
  Holding.{Holds},
  Reasons.{reason_of},
  Sufficing.{Suffice},
  Views.{facts_of, is_told},
  declared.told.ToldSizes.TheVariants.{Each},
};

use crate::costs::least_reason;
use crate::fact::Fact;
use crate::fronts::{assign_reason, rainbow_reason};
use crate::graphs::{entered_reason, groups_reason};
use crate::ladders::{best_reason, intersect_reason};
use crate::sets::{cover_reason, kind_reason, loop_reason, no_rank_reason, pack_reason};
use crate::told::ToldSizes;
use crate::unions::union_reason;
use mat_any::AnyMatroid;
use mat_cert::Answer;
use mat_problem::Problem;
use mat_sets::{Pairs, Weight};
use std::alloc::{AllocError, Global};

// The facts that a right answer about a pair of matroids gives.
fn pair_reason<'a>(
    alloc: Global,
    weights: &[Weight],
    first: &AnyMatroid,
    second: &AnyMatroid,
    answer: &'a Answer,
    told: ToldSizes,
) -> Result<Vec<Fact<'a>>, AllocError>
    requires sound { IsSoundInstance (pair weights.now (tree_of first.now) (tree_of second.now)) }
    requires ranged { IsRanged (certificate_of answer.now) }
    requires right { IsRight (pair weights.now (tree_of first.now) (tree_of second.now)) (certificate_of answer.now) }
    ensures { IfOk result (λ facts. facts_of facts.items
        ≡ reason_of (is_told told) (pair weights.now (tree_of first.now) (tree_of second.now)) (certificate_of answer.now)) }
{
    match answer {
        Answer::Intersect { rungs, cut, .. } => {
            intersect_reason(alloc, weights, first, second, rungs, cut, told)
        }
        _ => unreachable!(),
    }
}

// The facts that a right answer about one matroid gives.
fn single_reason<'a>(
    alloc: Global,
    weights: &'a [Weight],
    m: &AnyMatroid,
    answer: &'a Answer,
    told: ToldSizes,
) -> Result<Vec<Fact<'a>>, AllocError>
    requires valid { IsValid (list weights.now (tree_of m.now ∷ [])) }
    requires sound { IsSoundInstance (list weights.now (tree_of m.now ∷ [])) }
    requires ranged { IsRanged (certificate_of answer.now) }
    requires right { IsRight (list weights.now (tree_of m.now ∷ [])) (certificate_of answer.now) }
    requires one { is_union (certificate_of answer.now) ≡ false }
    ensures { IfOk result (λ facts. facts_of facts.items ≡ reason_of (is_told told) (list weights.now (tree_of m.now ∷ [])) (certificate_of answer.now)) }
{
    match answer {
        Answer::Best { rungs, .. } => best_reason(alloc, weights, rungs, told),
        Answer::PackAny { .. } => no_rank_reason(alloc, weights.len() as u32),
        Answer::Pack { bases, cut, .. } => pack_reason(alloc, m, bases, cut),
        Answer::CoverNever { loop_at, .. } => loop_reason(alloc, *loop_at),
        Answer::Cover { cut, .. } => cover_reason(alloc, m, cut),
        _ => unreachable!(),
    }
}

// The facts that a right answer about a list of matroids gives.
fn list_reason<'a>(
    alloc: Global,
    weights: &'a [Weight],
    matroids: &[AnyMatroid],
    answer: &'a Answer,
    told: ToldSizes,
) -> Result<Vec<Fact<'a>>, AllocError>
    requires valid { IsValid (list weights.now (map tree_of matroids.now)) }
    requires sound { IsSoundInstance (list weights.now (map tree_of matroids.now)) }
    requires ranged { IsRanged (certificate_of answer.now) }
    requires right { IsRight (list weights.now (map tree_of matroids.now)) (certificate_of answer.now) }
    ensures { IfOk result (λ facts. facts_of facts.items
        ≡ reason_of (is_told told) (list weights.now (map tree_of matroids.now)) (certificate_of answer.now)) }
{
    match answer {
        Answer::UnionOf { parts, levels, .. } => {
            union_reason(alloc, matroids, weights, parts.as_slice(), levels)
        }
        _ => match matroids {
            [m] => single_reason(alloc, weights, m, answer, told),
            _ => unreachable!(),
        },
    }
}

// The facts that a right answer about a graph gives.
fn graph_reason<'a>(
    alloc: Global,
    vertices: u32,
    edges: &Pairs,
    answer: &'a Answer,
) -> Result<Vec<Fact<'a>>, AllocError>
    requires valid { IsValid (graph vertices edges.now) }
    requires right { IsRight (graph vertices edges.now) (certificate_of answer.now) }
    ensures { (told : ℕ → Bool) → IfOk result (λ facts. facts_of facts.items ≡ reason_of told (graph vertices edges.now) (certificate_of answer.now)) }
{
    match answer {
        Answer::Trees { .. } => kind_reason(alloc),
        Answer::TreesNone { classes, .. } => groups_reason(alloc, edges, classes.as_slice()),
        _ => unreachable!(),
    }
}

// The facts that a right answer about a directed graph gives.
fn rooted_reason<'a>(
    alloc: Global,
    vertices: u32,
    root: u32,
    arcs: &Pairs,
    costs: &[Weight],
    answer: &'a Answer,
) -> Result<Vec<Fact<'a>>, AllocError>
    requires valid { IsValid (rooted vertices root arcs.now costs.now) }
    requires ranged { IsRanged (certificate_of answer.now) }
    requires right { IsRight (rooted vertices root arcs.now costs.now) (certificate_of answer.now) }
    ensures { (told : ℕ → Bool) → IfOk result (λ facts. facts_of facts.items
        ≡ reason_of told (rooted vertices root arcs.now costs.now) (certificate_of answer.now)) }
{
    match answer {
        Answer::Arbor {
            arcs: tree,
            first,
            second,
            ..
        } => least_reason(alloc, costs, tree, first.as_slice(), second.as_slice()),
        Answer::Unreached { set, .. } => entered_reason(alloc, arcs, set),
        Answer::Disjoint { .. } => kind_reason(alloc),
        Answer::DisjointNone { set, .. } => entered_reason(alloc, arcs, set),
        _ => unreachable!(),
    }
}

// The facts that a right answer about a graph with coloured edges gives.
fn coloured_reason<'a>(
    alloc: Global,
    vertices: u32,
    colours: u32,
    edges: &Pairs,
    colour_of: &[u32],
    weights: &[Weight],
    answer: &'a Answer,
    told: ToldSizes,
) -> Result<Vec<Fact<'a>>, AllocError>
    requires valid { IsValid (coloured vertices colours edges.now colour_of.now weights.now) }
    requires ranged { IsRanged (certificate_of answer.now) }
    requires right { IsRight (coloured vertices colours edges.now colour_of.now weights.now) (certificate_of answer.now) }
    ensures { IfOk result (λ facts. facts_of facts.items
        ≡ reason_of (is_told told) (coloured vertices colours edges.now colour_of.now weights.now) (certificate_of answer.now)) }
{
    match answer {
        Answer::Rainbow {
            rungs,
            cut,
            missing,
            ..
        } => rainbow_reason(
            alloc, vertices, edges, colours, colour_of, rungs, cut, missing, told,
        ),
        _ => unreachable!(),
    }
}

// The facts that a right answer about a table gives.
fn table_reason<'a>(
    alloc: Global,
    rows: u32,
    columns: u32,
    cells: &Pairs,
    weights: &[Weight],
    answer: &'a Answer,
    told: ToldSizes,
) -> Result<Vec<Fact<'a>>, AllocError>
    requires valid { IsValid (table rows columns cells.now weights.now) }
    requires ranged { IsRanged (certificate_of answer.now) }
    requires right { IsRight (table rows columns cells.now weights.now) (certificate_of answer.now) }
    ensures { IfOk result (λ facts. facts_of facts.items
        ≡ reason_of (is_told told) (table rows columns cells.now weights.now) (certificate_of answer.now)) }
{
    match answer {
        Answer::Assign { rungs, cut, .. } => {
            assign_reason(alloc, rows, columns, cells, rungs, cut, told)
        }
        _ => unreachable!(),
    }
}

// The facts that a right answer gives.
fn facts_for<'a>(
    alloc: Global,
    problem: &'a Problem,
    answer: &'a Answer,
    told: ToldSizes,
) -> Result<Vec<Fact<'a>>, AllocError>
    requires valid { IsValid (instance_of problem.now) }
    requires sound { IsSoundInstance (instance_of problem.now) }
    requires ranged { IsRanged (certificate_of answer.now) }
    requires right { IsRight (instance_of problem.now) (certificate_of answer.now) }
    ensures { IfOk result (λ facts. facts_of facts.items ≡ reason_of (is_told told) (instance_of problem.now) (certificate_of answer.now)) }
{
    match problem {
        Problem::Pair {
            weights,
            first,
            second,
        } => pair_reason(alloc, weights.as_slice(), first, second, answer, told),
        Problem::List { weights, matroids } => {
            list_reason(alloc, weights.as_slice(), matroids, answer, told)
        }
        Problem::Graph { vertices, edges } => graph_reason(alloc, *vertices, edges, answer),
        Problem::Rooted {
            vertices,
            root,
            arcs,
            costs,
        } => rooted_reason(alloc, *vertices, *root, arcs, costs.as_slice(), answer),
        Problem::Coloured {
            vertices,
            colours,
            edges,
            colour_of,
            weights,
        } => coloured_reason(
            alloc,
            *vertices,
            *colours,
            edges,
            colour_of,
            weights.as_slice(),
            answer,
            told,
        ),
        Problem::Table {
            rows,
            columns,
            cells,
            weights,
        } => table_reason(
            alloc,
            *rows,
            *columns,
            cells,
            weights.as_slice(),
            answer,
            told,
        ),
    }
}

/// Why a right answer is best: facts that hold and suffice, each counted from the problem and the answer. Of an answer that has a set of each
/// size they speak of the sizes that are told. For each rule there is one rank for each set that its facts bound, and the members of a set are
/// put into the order of their shares. The only error is want of memory.
pub fn reasons_for<'a>(
    alloc: Global,
    problem: &'a Problem,
    answer: &'a Answer,
    told: ToldSizes,
) -> Result<Vec<Fact<'a>>, AllocError>
    requires valid { IsValid (instance_of problem.now) }
    requires ranged { IsRanged (certificate_of answer.now) }
    requires right { IsRight (instance_of problem.now) (certificate_of answer.now) }

    // The facts are those that the definitions of this crate list for the form of the answer, in this order.
    ensures exact { IfOk result (λ facts. facts_of facts.items ≡ reason_of (is_told told) (instance_of problem.now) (certificate_of answer.now)) }

    // Each of them holds.
    ensures hold { IfOk result (λ facts. All (Holds (instance_of problem.now) (certificate_of answer.now)) (facts_of facts.items)) }

    // Those of each size suffice.
    ensures suffice { told ≡ Each → IfOk result (λ facts. Suffice (instance_of problem.now) (certificate_of answer.now) (facts_of facts.items)) }
{
    let facts = facts_for(alloc, problem, answer, told)?;
    Ok(facts)
}
