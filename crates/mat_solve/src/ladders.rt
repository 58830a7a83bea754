//! Ladders: heaviest sets of each size.

ghost use Rattle.std.specs.Prelude.{◌≡◌, ◌≤◌, ◌||◌, if◌then◌else◌, true, length, map, IfOk};
ghost use Rattle.mat_sets.specs.{Limits.{most_elements, largest_number}, Sets.{AllBelow}, Weights.{AreWeightsWithin}};
ghost use Rattle.mat_work.specs.Workers.{AreWorkers};
ghost use Rattle.mat_any.specs.Views.{tree_of};
ghost use Rattle.mat_check.specs.Fitting.{is_single, is_pair, is_coloured, is_table};
ghost use Rattle.mat_problem.specs.{Views.{instance_of}, Validity.{IsValid}, Soundness.{IsSoundInstance}};
ghost use Rattle.mat_cert.specs.Views.{certificate_of};
ghost use Rattle.mat_solve.specs.{
  Answers.{IsSolution},
  CostlyRows.{is_worth_threads},
  PricedRungs.{priced_rung, plain_rung, HaveFewElements, AreSmallSets},
  Queries.{IsAnswerOf},
};

use crate::costly_rows::has_costly_rows;
use crate::forms::only_matroid;
use crate::query::Query;
use crate::workers::SolveWorkers;
use mat_any::{AnyMatroid, has_union};
use mat_cert::{Answer, PlainRung, PricedRung};
use mat_greedy::heaviest_each;
use mat_laws::Matroid;
use mat_problem::Problem;
use mat_sets::{ElemSet, Weight, weigh};
use mat_split::Rung;
use std::alloc::{AllocError, Global};

// The rung with the weight of its set.
fn priced(rung: Rung, weights: &[Weight]) -> PricedRung
    requires inside { AllBelow (length weights.now) rung.set }
    requires few { length rung.set ≤ most_elements }
    requires small { AreWeightsWithin largest_number weights.now }
    ensures { result ≡ priced_rung weights.now rung }
{
    let weight = weigh(&rung.set, weights);
    PricedRung {
        weight,
        set: rung.set,
        first: rung.first,
        second: rung.second,
    }
}

// The rungs with the weights of their sets, in their order.
fn priced_rungs(
    alloc: Global,
    rungs: Vec<Rung>,
    weights: &[Weight],
) -> Result<Vec<PricedRung>, AllocError>
    requires rungs { HaveFewElements (length weights.now) rungs.items }
    requires small { AreWeightsWithin largest_number weights.now }
    ensures { IfOk result (λ all. all.items ≡ map (priced_rung weights.now) rungs.items) }
{
    let mut all = Vec::with_capacity(alloc, rungs.len())?;
    for rung in rungs {
        all.push(priced(rung, weights))?;
    }
    Ok(all)
}

// The sets with their weights, in their order.
fn plain_rungs(
    alloc: Global,
    sets: Vec<ElemSet>,
    weights: &[Weight],
) -> Result<Vec<PlainRung>, AllocError>
    requires sets { AreSmallSets (length weights.now) sets.items }
    requires small { AreWeightsWithin largest_number weights.now }
    ensures { IfOk result (λ all. all.items ≡ map (plain_rung weights.now) sets.items) }
{
    let mut all = Vec::with_capacity(alloc, sets.len())?;
    for set in sets {
        let weight = weigh(&set, weights);
        all.push(PlainRung { weight, set })?;
    }
    Ok(all)
}

/// A heaviest independent set of one matroid for each size. The only error is want of memory.
pub(crate) fn best(alloc: Global, problem: &Problem) -> Result<Answer, AllocError>
    requires valid { IsValid (instance_of problem.now) }
    requires sound { IsSoundInstance (instance_of problem.now) }
    requires form { is_single (instance_of problem.now) ≡ true }
    ensures of_query { IfOk result (λ answer. IsAnswerOf Query.Best (certificate_of answer)) }
    ensures solution { IfOk result (λ answer. IsSolution (instance_of problem.now) (certificate_of answer)) }
{
    let (weights, matroid) = only_matroid(problem);
    matroid.lawful();
    let sets = heaviest_each(alloc, matroid, weights.as_slice())?;
    let rungs = plain_rungs(alloc, sets.into_vec(), weights.as_slice())?;
    Ok(Answer::Best {
        count: weights.len() as u32,
        rungs,
    })
}

// Whether the rows of a matroid are worth threads: those of a union, each of which takes a search, where they are costly.
fn is_worth_threads(matroid: &AnyMatroid) -> bool
    ensures { result ≡ is_worth_threads (tree_of matroid.now) }
{
    has_union(matroid) && has_costly_rows(matroid)
}

// How many of the workers pay where rows of two matroids are made: all where those of one of them are worth threads, and else one, since all rows
// of a size take less time than threads take to start.
fn worthwhile_workers(first: &AnyMatroid, second: &AnyMatroid, workers: u32) -> u32
    requires { AreWorkers workers }
    ensures count { result ≡ (if is_worth_threads (tree_of first.now) || is_worth_threads (tree_of second.now) then workers else 1) }
    ensures range { AreWorkers result }
{
    if is_worth_threads(first) || is_worth_threads(second) {
        workers
    } else {
        1
    }
}

/// A heaviest common independent set of two matroids for each size. The work is for up to so many workers; no clause speaks of how many share it.
/// The only error is want of memory.
pub(crate) fn intersect<R: SolveWorkers>(
    rt: &R,
    alloc: Global,
    problem: &Problem,
    workers: u32,
) -> Result<Answer, AllocError>
    requires shared { R.shared rt.now }
    requires valid { IsValid (instance_of problem.now) }
    requires sound { IsSoundInstance (instance_of problem.now) }
    requires form { is_pair (instance_of problem.now) ≡ true }
    requires workers { AreWorkers workers }
    ensures of_query { IfOk result (λ answer. IsAnswerOf Query.Intersect (certificate_of answer)) }
    ensures solution { IfOk result (λ answer. IsSolution (instance_of problem.now) (certificate_of answer)) }
{
    let Problem::Pair {
        weights,
        first,
        second,
    } = problem
    else {
        unreachable!()
    };
    first.lawful();
    second.lawful();
    let workers = worthwhile_workers(first, second, workers);
    let ladder = rt.ladder_of(alloc, first, second, weights.as_slice(), workers)?;
    let rungs = priced_rungs(alloc, ladder.rungs, weights.as_slice())?;
    Ok(Answer::Intersect {
        count: weights.len() as u32,
        rungs,
        cut: ladder.cut,
    })
}

/// A heaviest forest for each size, of edges with pairwise different colours. No thread is started, whatever the number of workers. The only
/// error is want of memory.
pub(crate) fn rainbow(alloc: Global, problem: &Problem, workers: u32) -> Result<Answer, AllocError>
    requires valid { IsValid (instance_of problem.now) }
    requires form { is_coloured (instance_of problem.now) ≡ true }
    requires workers { AreWorkers workers }
    ensures of_query { IfOk result (λ answer. IsAnswerOf Query.Rainbow (certificate_of answer)) }
    ensures solution { IfOk result (λ answer. IsSolution (instance_of problem.now) (certificate_of answer)) }
{
    let Problem::Coloured {
        vertices,
        colours,
        edges,
        colour_of,
        weights,
    } = problem
    else {
        unreachable!()
    };
    let found = mat_fronts::rainbow(
        alloc,
        *vertices,
        edges,
        *colours,
        colour_of,
        weights.as_slice(),
        workers,
    )?;
    let ladder = found.ladder;
    let rungs = priced_rungs(alloc, ladder.rungs, weights.as_slice())?;
    Ok(Answer::Rainbow {
        count: edges.len() as u32,
        vertices: *vertices,
        colours: *colours,
        rungs,
        cut: ladder.cut,
        missing: found.missing,
    })
}

/// A heaviest assignment in a table for each size. No thread is started, whatever the number of workers. The only error is want of memory.
pub(crate) fn assign(alloc: Global, problem: &Problem, workers: u32) -> Result<Answer, AllocError>
    requires valid { IsValid (instance_of problem.now) }
    requires form { is_table (instance_of problem.now) ≡ true }
    requires workers { AreWorkers workers }
    ensures of_query { IfOk result (λ answer. IsAnswerOf Query.Assign (certificate_of answer)) }
    ensures solution { IfOk result (λ answer. IsSolution (instance_of problem.now) (certificate_of answer)) }
{
    let Problem::Table {
        rows,
        columns,
        cells,
        weights,
    } = problem
    else {
        unreachable!()
    };
    let ladder = mat_fronts::assign(alloc, *rows, *columns, cells, weights.as_slice(), workers)?;
    let rungs = priced_rungs(alloc, ladder.rungs, weights.as_slice())?;
    Ok(Answer::Assign {
        count: cells.len() as u32,
        rows: *rows,
        columns: *columns,
        rungs,
        cut: ladder.cut,
    })
}
