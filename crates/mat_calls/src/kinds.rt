//! Matroids of each kind on four elements, which a description gives: of each the run along an order and all independent sets, by the calls of
//! its own type where it is made of no others, and by those of a matroid of any kind. `kinds.py` finds what is printed by trying all sets.

ghost use Rattle.std.specs.Prelude.{◌≡◌, All};
ghost use Rattle.mat_problem.specs.{Soundness.{IsSoundInstance}, Views.{instance_of}};
ghost use Rattle.mat_any.specs.{Trees.{element_count, IsSound}, Views.{tree_of}};

use crate::DESCRIPTION_LIMIT;
use crate::known::told;
use mat_any::AnyMatroid;
use mat_desc::read_problem;
use mat_laws::Matroid;
use mat_problem::Problem;
use std::alloc::{AllocError, Global};

// What is told of a matroid of four elements.
fn told_four<M: Matroid>(alloc: Global, name: &str, m: &M) -> Result<String, AllocError>
    requires sound { M.sound m.now }
    requires four { M.ground_size m.now ≡ 4 }
{
    told(alloc, name, m, &[2, 0, 3, 1])
}

// What is told of a matroid of four elements, by the calls of its own type where it is made of no others.
fn told_kind(alloc: Global, matroid: &AnyMatroid) -> Result<String, AllocError>
    requires sound { IsSound (tree_of matroid.now) }
    requires four { element_count (tree_of matroid.now) ≡ 4 }
{
    match matroid {
        AnyMatroid::Uniform(uniform) => told_four(alloc, "uniform", uniform),
        AnyMatroid::Partition(partition) => told_four(alloc, "partition", partition),
        AnyMatroid::Laminar(laminar) => told_four(alloc, "laminar", laminar),
        AnyMatroid::Graphic(graphic) => told_four(alloc, "graphic", graphic),
        AnyMatroid::Transversal(transversal) => told_four(alloc, "transversal", transversal),
        AnyMatroid::Gammoid(gammoid) => told_four(alloc, "gammoid", gammoid),
        AnyMatroid::Gf2(gf2) => told_four(alloc, "gf2", gf2),
        _ => String::from_str(alloc, "made of others\n"),
    }
}

// What is told of a matroid that has four elements, as one of its kind and as one of any kind.
fn told_both(alloc: Global, matroid: &AnyMatroid) -> Result<String, AllocError>
    requires { IsSound (tree_of matroid.now) }
{
    if matroid.size() != 4 {
        return String::from_str(alloc, "not four elements\n");
    }
    let own = told_kind(alloc, matroid)?;
    let any = told_four(alloc, "any", matroid)?;
    format!(in alloc; "{own}{any}")
}

// What is told of each of these matroids.
fn told_each(alloc: Global, matroids: &[AnyMatroid]) -> Result<String, AllocError>
    requires { All (λ m. IsSound (tree_of m)) matroids.now }
{
    let mut text = String::new(alloc);
    for i in 0..matroids.len() {
        let told = told_both(alloc, &matroids[i])?;
        text = format!(in alloc; "{text}{told}")?;
    }
    Ok(text)
}

// What is told of each matroid of a list.
fn told_list(alloc: Global, problem: &Problem) -> Result<String, AllocError>
    requires { IsSoundInstance (instance_of problem.now) }
{
    match problem {
        Problem::List { matroids, .. } => told_each(alloc, matroids),
        _ => String::from_str(alloc, "no list\n"),
    }
}

// What is told of a problem, which is dropped.
fn told_of_owned(alloc: Global, problem: Problem) -> Result<String, AllocError>
    requires { IsSoundInstance (instance_of problem) }
{
    let told = told_list(alloc, &problem);
    drop(problem);
    told
}

/// What is told of the matroids that a description lists.
pub(crate) fn kinds_report(alloc: Global, text: &[u8]) -> Result<String, AllocError> {
    if text.len() > DESCRIPTION_LIMIT {
        return String::from_str(alloc, "too long\n");
    }
    match read_problem(alloc, text) {
        Ok(problem) => told_of_owned(alloc, problem),
        Err(_) => String::from_str(alloc, "no problem\n"),
    }
}
