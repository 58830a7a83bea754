//! Problems with names for their elements and their vertices.

ghost use Rattle.std.specs.Prelude.{◌≡◌, ◌<◌, ◌≤◌, ◌^◌, true, [], ◌∷◌, length, IfOk};
ghost use Rattle.mat_problem.specs.{Validity.{IsValid}, Views.{instance_of}};
ghost use Rattle.mat_desc.specs.{
  Grammar.{SpellsNamed},
  Limits.{description_limit},
  Notations.{IsNotationFor, NamedInstance, count_of_elements, count_of_vertices, named_by, names, numbered, numbers},
  Reading.{named_of},
  Views.{notation_of, named_instance, named_with},
};
ghost use Rattle.mat_words.specs.{NameLists.{names_of}, Words.{is_letter}, Reading.{Gives}};

use crate::read::{Notation, read_description};
use crate::refusal::DescRefusal;
use mat_problem::{Named, Problem};
use mat_words::{Names, put_number};
use std::alloc::{AllocError, Global};

/// A letter with each number below `count`, as `e0`, `e1` and so on. The only error is want of memory.
fn numbered_names(alloc: Global, letter: u8, count: usize) -> Result<Names, AllocError>
    requires letter { is_letter letter ≡ true }
    requires few { count < 2 ^ 32 }
    ensures { IfOk result (λ listed. names_of listed ≡ numbered (letter ∷ []) count) }
{
    let mut names = Names::new(alloc);
    for i in 0..count {
        let mut name = Vec::new(alloc);
        name.push(letter)?;
        put_number(&mut name, i as i128)?;
        names.add(&name)?;
    }
    Ok(names)
}

/// How many elements a problem has: edges, arcs or cells where its form has these.
fn element_count(problem: &Problem) -> usize
    ensures { result ≡ count_of_elements (instance_of problem.now) }
{
    match problem {
        Problem::Pair { weights, .. } | Problem::List { weights, .. } => weights.len(),
        Problem::Graph { edges, .. } | Problem::Coloured { edges, .. } => edges.len(),
        Problem::Rooted { arcs, .. } => arcs.len(),
        Problem::Table { cells, .. } => cells.len(),
    }
}

/// How many vertices the form of a problem has: 0 where it has none.
fn vertex_count(problem: &Problem) -> usize
    ensures { result ≡ count_of_vertices (instance_of problem.now) }
{
    match problem {
        Problem::Graph { vertices, .. }
        | Problem::Rooted { vertices, .. }
        | Problem::Coloured { vertices, .. } => *vertices as usize,
        Problem::Pair { .. } | Problem::List { .. } | Problem::Table { .. } => 0,
    }
}

/// Numbered names for the elements and for the vertices of a problem: `e0`, `e1` and so on, and `v0`, `v1` and so on. The only error is want
/// of memory.
fn all_numbered_names(alloc: Global, problem: &Problem) -> Result<(Names, Names), AllocError>
    requires { IsValid (instance_of problem.now) }
    ensures { IfOk result (λ listed. named_with listed (instance_of problem.now) ≡ named_by numbers (instance_of problem.now)) }
{
    let elements = numbered_names(alloc, b'e', element_count(problem))?;
    match numbered_names(alloc, b'v', vertex_count(problem)) {
        Ok(vertices) => Ok((elements, vertices)),
        Err(error) => {
            drop(elements);
            Err(error)
        }
    }
}

/// The names of the elements and of the vertices of a problem: those that its description gives, or else numbered ones. The only error is
/// want of memory.
fn names_by(
    alloc: Global,
    notation: Notation,
    problem: &Problem,
) -> Result<(Names, Names), AllocError>
    requires { IsValid (instance_of problem.now) }
    ensures { IfOk result (λ listed. named_with listed (instance_of problem.now)
        ≡ named_by (notation_of notation) (instance_of problem.now)) }
{
    match notation {
        Notation::Numbers => all_numbered_names(alloc, problem),
        Notation::Names { elements, vertices } => Ok((elements, vertices)),
    }
}

/// The problem that a text states, with the names that the text lists, or else with numbered ones.
fn named_problem(alloc: Global, text: &[u8]) -> Result<Named, DescRefusal>
    requires { length text.now ≤ description_limit }
    ensures { Gives named_instance result (named_of text.now) }
{
    let (problem, notation) = read_description(alloc, text)?;
    match names_by(alloc, notation, &problem) {
        Ok((elements, vertices)) => Ok(Named {
            problem,
            elements,
            vertices,
        }),
        Err(error) => {
            drop(problem);
            Err(error.into())
        }
    }
}

/// The problem that a text of at most 4194304 bytes spells, with the names of its elements and of its vertices: those that the text
/// lists, or else `e0`, `e1` and so on, and `v0`, `v1` and so on.
///
/// The errors are those of [`read_problem`](crate::read_problem).
pub fn read_named(alloc: Global, text: &[u8]) -> Result<Named, DescRefusal>
    requires { length text.now ≤ description_limit }

    // The answer is what the reading of the text gives: its problem with the names, or its first fault.
    ensures exact { Gives named_instance result (named_of text.now) }

    // What is read is spelled by the text, and what is spelled is read.
    ensures found { IfOk result (λ named. SpellsNamed text.now (named_instance named)) }
    ensures only { (named : NamedInstance) → SpellsNamed text.now named → Gives named_instance result (Ok named) }

    // The problem is in range, and so its matroids are sound, and it has a name for each element and each vertex.
    ensures valid { IfOk result (λ named. IsValid (instance_of named.problem)) }
    ensures notated { IfOk result (λ named. IsNotationFor (instance_of named.problem) (names (names_of named.elements) (names_of named.vertices))) }
{
    named_problem(alloc, text)
}
