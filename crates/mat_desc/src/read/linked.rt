//! Reading transversal matroids and gammoids.

ghost use Rattle.std.specs.Prelude.{◌≡◌, [], codes, IfOk};
ghost use Rattle.mat_desc.specs.{
  Notations.{IsNaming},
  Views.{naming},
  Reading.{ends_line_at, set_line_at, distinct_at, targets_at, transversal_at, gammoid_at},
};
ghost use Rattle.mat_any.specs.Views.{tree_of};
ghost use Rattle.mat_words.specs.{Steps.{repeat_at}, Cursors.{lines_left, words_left}, Reading.{Gives}};

use crate::limits::{MOST_ARCS, MOST_SETS, MOST_VERTICES};
use crate::read::items::ends_lines;
use crate::read::lines::{elements_alone, ended};
use crate::read::{Found, Read};
use crate::refusal::{DescKind, DescRefusal};
use mat_any::AnyMatroid;
use mat_flow::Digraph;
use mat_linked::{Gammoid, Transversal};
use mat_sets::{ElemSet, SetList};
use mat_words::{LineCursor, Names, WordCursor, fault, keyed_line, next_below, next_size};
use std::alloc::Global;

/// A line of this keyword and a set of numbers below `count`.
#[tactic(auto, unfolding(crate::specs::Reading::set_line_at))]
fn set_line<'a>(
    alloc: Global,
    names: Option<&Names>,
    key: &[u8],
    count: u32,
    lines: LineCursor<'a>,
) -> Read<'a, ElemSet>
    ensures { Gives (λ x. (x.0, lines_left x.1)) result (set_line_at (naming names.entry) key.now count (lines_left lines.entry)) }
{
    let (words, rest) = keyed_line(lines, key)?;
    let set = elements_alone(alloc, words, names, count)?;
    Ok((set, rest))
}

/// As many lines of this keyword and a set of numbers below `count`.
fn set_lines<'a>(
    alloc: Global,
    names: Option<&Names>,
    key: &[u8],
    count: u32,
    many: u32,
    lines: LineCursor<'a>,
) -> Read<'a, SetList>
    ensures { Gives (λ x. (x.0, lines_left x.1)) result
        (repeat_at (set_line_at (naming names.entry) key.now count) many (lines_left lines.entry)) }
{
    let mut sets = Vec::new(alloc);
    let mut rest = lines;
    for _ in 0..many {
        let (set, after) = set_line(alloc, names, key, count, rest)?;
        sets.push(set)?;
        rest = after;
    }
    Ok((SetList::new(sets), rest))
}

/// As many numbers below the bound, no two of them equal.
fn distinct_numbers<'a>(
    alloc: Global,
    bound: u32,
    many: u32,
    words: WordCursor<'a>,
) -> Result<(Vec<u32>, WordCursor<'a>), DescRefusal>
    ensures { Gives (λ x. (x.0.items, words_left x.1)) result (distinct_at bound many [] (words_left words.entry)) }
{
    let mut numbers = Vec::new(alloc);
    let mut taken = ElemSet::new(alloc);
    let mut rest = words;
    for _ in 0..many {
        let (number, after) = next_below(rest, bound)?;
        if !taken.add(number)? {
            return Err(fault(DescKind::Repeated, rest.line));
        }
        numbers.push(number)?;
        rest = after;
    }
    Ok((numbers, rest))
}

/// The line of the vertices of `count` elements, no two of which have the same vertex.
#[tactic(auto, unfolding(crate::specs::Reading::targets_at))]
fn targets_line<'a>(
    alloc: Global,
    vertices: u32,
    count: u32,
    lines: LineCursor<'a>,
) -> Read<'a, Vec<u32>>
    ensures { Gives (λ x. (x.0.items, lines_left x.1)) result (targets_at vertices count (lines_left lines.entry)) }
{
    let (words, rest) = keyed_line(lines, b"targets")?;
    let (targets, words) = distinct_numbers(alloc, vertices, count, words)?;
    ended(words).and(Ok((targets, rest)))
}

/// A transversal matroid, from the words behind its keyword on.
#[tactic(auto, using(crate::proofs::SetLineLaws::family_building), unfolding(crate::specs::Reading::transversal_at))]
pub(crate) fn transversal<'a>(
    alloc: Global,
    names: Option<&Names>,
    count: u32,
    words: WordCursor<'a>,
    lines: LineCursor<'a>,
) -> Found<'a>
    requires { IsNaming count (naming names) }
    ensures { Gives (λ x. (tree_of x.0, lines_left x.1)) result
        (transversal_at (naming names.entry) count (words_left words.entry) (lines_left lines.entry)) }
{
    let (many, words) = next_size(words, 0, MOST_SETS)?;
    ended(words)?;
    let (family, rest) = set_lines(alloc, names, b"set", count, many, lines)?;
    let matroid = Transversal::new(alloc, count, family)?;
    Ok((AnyMatroid::Transversal(matroid), rest))
}

/// As many arc lines of a graph with so many vertices.
#[tactic(auto, using(crate::proofs::ItemLaws::ends_lines_sound))]
fn graph_lines<'a>(
    alloc: Global,
    vertices: u32,
    many: u32,
    lines: LineCursor<'a>,
) -> Read<'a, Digraph>
    ensures arcs { Gives (λ x. (x.0.arcs, lines_left x.1)) result
        (repeat_at (ends_line_at None (codes "arc") vertices) many (lines_left lines.entry)) }
    ensures vertices { IfOk result (λ x. x.0.vertices ≡ vertices) }
{
    let (arcs, rest) = ends_lines(alloc, None, b"arc", vertices, many, lines)?;
    let graph = Digraph::new(alloc, vertices, arcs)?;
    Ok((graph, rest))
}

/// A gammoid, from the words behind its keyword on.
#[tactic(auto, using(crate::proofs::TargetLaws::gammoid_building), unfolding(crate::specs::Reading::gammoid_at))]
pub(crate) fn gammoid<'a>(
    alloc: Global,
    count: u32,
    words: WordCursor<'a>,
    lines: LineCursor<'a>,
) -> Found<'a>
    ensures { Gives (λ x. (tree_of x.0, lines_left x.1)) result
        (gammoid_at count (words_left words.entry) (lines_left lines.entry)) }
{
    let (vertices, words) = next_size(words, 1, MOST_VERTICES)?;
    let (many, words) = next_size(words, 0, MOST_ARCS)?;
    ended(words)?;
    let (sources, rest) = set_line(alloc, None, b"sources", vertices, lines)?;
    let (targets, rest) = targets_line(alloc, vertices, count, rest)?;
    let (graph, rest) = graph_lines(alloc, vertices, many, rest)?;
    let matroid = Gammoid::new(alloc, graph, sources, targets)?;
    Ok((AnyMatroid::Gammoid(matroid), rest))
}
