//! Disjoint paths in graphs of some hundred vertices, which descriptions give as gammoids.

ghost use Rattle.std.specs.Prelude.{IfOk, IfSome};
ghost use Rattle.mat_problem.specs.{Soundness.{IsSoundInstance}, Views.{instance_of}};
ghost use Rattle.mat_sets.specs.Sets.{AllBelow};
ghost use Rattle.mat_linked.specs.Gammoids.{IsGammoid};
ghost use Rattle.mat_any.specs.{Trees.{IsSound}, Views.{tree_of}};

use crate::DESCRIPTION_LIMIT;
use mat_any::AnyMatroid;
use mat_desc::read_problem;
use mat_flow::linked;
use mat_laws::{Matroid, rank_of};
use mat_linked::Gammoid;
use mat_problem::Problem;
use mat_sets::ElemSet;
use std::alloc::{AllocError, Global};

/// The files of the graphs.
pub(crate) const ROUTES: [&str; 10] = [
    "routes_0.txt",
    "routes_1.txt",
    "routes_2.txt",
    "routes_3.txt",
    "routes_4.txt",
    "routes_5.txt",
    "routes_6.txt",
    "routes_7.txt",
    "routes_8.txt",
    "routes_9.txt",
];

/// The set of these members, each of which is below n.
pub(crate) fn set_below(alloc: Global, n: u32, members: &[u32]) -> Result<ElemSet, AllocError>
    requires { AllBelow n members.now }
    ensures { IfOk result (λ s. AllBelow n s) }
{
    let mut set = ElemSet::new(alloc);
    for x in members {
        let _ = set.add(*x)?;
    }
    Ok(set)
}

/// The set of the elements below n that these bits name, the lowest bit element 0.
pub(crate) fn set_of_bits(alloc: Global, n: u32, bits: u32) -> Result<ElemSet, AllocError>
    ensures { IfOk result (λ s. AllBelow n s) }
{
    let mut set = ElemSet::new(alloc);
    let mut rest = bits;
    for x in 0..n {
        if rest % 2 == 1 {
            let _ = set.add(x)?;
        }
        rest /= 2;
    }
    Ok(set)
}

// How many disjoint paths lead to the targets, and how many vertices separate these from the sources.
fn linking_of(alloc: Global, gammoid: &Gammoid) -> Result<String, AllocError>
    requires { IsGammoid gammoid.now.vertices gammoid.now.arcs gammoid.now.sources gammoid.now.targets }
{
    let graph = gammoid.graph();
    let targets = set_below(alloc, graph.vertices(), gammoid.targets())?;
    let linking = linked(alloc, graph, gammoid.sources(), &targets)?;
    let paths = linking.paths.len();
    let separator = linking.separator.len();
    format!(in alloc; "paths {paths} separator {separator}")
}

// What is told of a gammoid.
fn numbers_of(alloc: Global, gammoid: &Gammoid) -> Result<String, AllocError>
    requires { IsGammoid gammoid.now.vertices gammoid.now.arcs gammoid.now.sources gammoid.now.targets }
{
    let linking = linking_of(alloc, gammoid)?;
    let all = ElemSet::all_below(alloc, gammoid.size())?;
    let rank = rank_of(alloc, gammoid, &all)?;
    format!(in alloc; "{linking} rank {rank}")
}

// The first matroid of a pair.
fn first_of(problem: &Problem) -> Option<&AnyMatroid>
    requires { IsSoundInstance (instance_of problem.now) }
    ensures { IfSome result (λ m. IsSound (tree_of m.now)) }
{
    match problem {
        Problem::Pair { first, .. } => Some(first),
        _ => None,
    }
}

// Whether all elements of a matroid are independent, by one question.
fn answer_of(alloc: Global, matroid: &AnyMatroid) -> Result<String, AllocError>
    requires { IsSound (tree_of matroid.now) }
{
    let all = ElemSet::all_below(alloc, matroid.size())?;
    let answer = matroid.independent(alloc, &all)?;
    format!(in alloc; "independent {answer}")
}

// What is told of a matroid.
fn told_of_first(alloc: Global, matroid: &AnyMatroid, ranked: bool) -> Result<String, AllocError>
    requires { IsSound (tree_of matroid.now) }
{
    match matroid {
        AnyMatroid::Gammoid(gammoid) if ranked => numbers_of(alloc, gammoid),
        AnyMatroid::Gammoid(gammoid) => linking_of(alloc, gammoid),
        _ => answer_of(alloc, matroid),
    }
}

// What is told of a problem.
fn told_of(alloc: Global, problem: &Problem, ranked: bool) -> Result<String, AllocError>
    requires { IsSoundInstance (instance_of problem.now) }
{
    match first_of(problem) {
        Some(matroid) => told_of_first(alloc, matroid, ranked),
        None => String::from_str(alloc, "no pair"),
    }
}

// What is told of a problem, which is dropped.
fn told_of_owned(alloc: Global, problem: Problem, ranked: bool) -> Result<String, AllocError>
    requires { IsSoundInstance (instance_of problem) }
{
    let told = told_of(alloc, &problem, ranked);
    drop(problem);
    told
}

/// What is told of the first matroid of a description. Of a gammoid: how many disjoint paths there are, how many vertices separate the
/// targets from the sources, and, where that is asked for, its rank. Of another: whether all elements are independent.
pub(crate) fn route_report(alloc: Global, text: &[u8], ranked: bool) -> Result<String, AllocError> {
    if text.len() > DESCRIPTION_LIMIT {
        return String::from_str(alloc, "too long");
    }
    match read_problem(alloc, text) {
        Ok(problem) => told_of_owned(alloc, problem, ranked),
        Err(_) => String::from_str(alloc, "no problem"),
    }
}
