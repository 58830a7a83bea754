//! Reading a problem of each form, from the words behind the form's word on.

ghost use Rattle.mat_desc.specs.{
  Reading.{pair_at, list_at, graph_at, rooted_at, coloured_at, table_at},
  Views.{written_instance},
};
ghost use Rattle.mat_words.specs.{Cursors.{lines_left, words_left}, Reading.{Gives}};

use crate::limits::{MOST_ELEMENTS, MOST_MATROIDS, MOST_SETS, MOST_VERTICES};
use crate::read::Written;
use crate::read::items::{coloured_edge_lines, ends_lines, weighted_lines};
use crate::read::keywords::Version;
use crate::read::lines::{ended, weights_line};
use crate::read::matroids::{next_matroids, two_matroids};
use crate::read::notation::{header_root, read_notation, root_line};
use mat_problem::Problem;
use mat_words::{LineCursor, WordCursor, next_size};
use std::alloc::Global;

/// Two weighted matroids, from the words behind the form's word on.
#[tactic(auto, unfolding(crate::specs::Reading::pair_at))]
pub(crate) fn pair<'a>(
    alloc: Global,
    version: Version,
    words: WordCursor<'a>,
    lines: LineCursor<'a>,
) -> Written<'a>
    ensures { Gives (λ x. (written_instance x.0 x.1, lines_left x.2)) result
        (pair_at version (words_left words.entry) (lines_left lines.entry)) }
{
    let (count, words) = next_size(words, 0, MOST_ELEMENTS)?;
    ended(words)?;
    let (notation, lines) = read_notation(alloc, version, count, 0, lines)?;
    let (weights, lines) = weights_line(alloc, count, lines)?;
    let (first, second, lines) = two_matroids(alloc, notation.element_names(), count, lines)?;
    let problem = Problem::Pair {
        weights,
        first,
        second,
    };
    Ok((problem, notation, lines))
}

/// A list of matroids, from the words behind the form's word on.
#[tactic(auto, unfolding(crate::specs::Reading::list_at))]
pub(crate) fn list<'a>(
    alloc: Global,
    version: Version,
    words: WordCursor<'a>,
    lines: LineCursor<'a>,
) -> Written<'a>
    ensures { Gives (λ x. (written_instance x.0 x.1, lines_left x.2)) result
        (list_at version (words_left words.entry) (lines_left lines.entry)) }
{
    let (count, words) = next_size(words, 0, MOST_ELEMENTS)?;
    let (many, words) = next_size(words, 1, MOST_MATROIDS)?;
    ended(words)?;
    let (notation, lines) = read_notation(alloc, version, count, 0, lines)?;
    let (weights, lines) = weights_line(alloc, count, lines)?;
    let (matroids, lines) = next_matroids(alloc, notation.element_names(), count, many, lines)?;
    Ok((Problem::List { weights, matroids }, notation, lines))
}

/// A graph, from the words behind the form's word on.
#[tactic(auto, unfolding(crate::specs::Reading::graph_at))]
pub(crate) fn graph<'a>(
    alloc: Global,
    version: Version,
    words: WordCursor<'a>,
    lines: LineCursor<'a>,
) -> Written<'a>
    ensures { Gives (λ x. (written_instance x.0 x.1, lines_left x.2)) result
        (graph_at version (words_left words.entry) (lines_left lines.entry)) }
{
    let (vertices, words) = next_size(words, 1, MOST_VERTICES)?;
    let (many, words) = next_size(words, 0, MOST_ELEMENTS)?;
    ended(words)?;
    let (notation, lines) = read_notation(alloc, version, many, vertices, lines)?;
    let names = notation.vertex_names();
    let (edges, lines) = ends_lines(alloc, names, b"edge", vertices, many, lines)?;
    Ok((Problem::Graph { vertices, edges }, notation, lines))
}

/// A directed graph with a root, from the words behind the form's word on.
#[tactic(auto, using(crate::proofs::Columns::columns), unfolding(crate::specs::Reading::rooted_at))]
pub(crate) fn rooted<'a>(
    alloc: Global,
    version: Version,
    words: WordCursor<'a>,
    lines: LineCursor<'a>,
) -> Written<'a>
    ensures { Gives (λ x. (written_instance x.0 x.1, lines_left x.2)) result
        (rooted_at version (words_left words.entry) (lines_left lines.entry)) }
{
    let (vertices, words) = next_size(words, 1, MOST_VERTICES)?;
    let (many, words) = next_size(words, 0, MOST_ELEMENTS)?;
    let (known, words) = header_root(version, vertices, words)?;
    ended(words)?;
    let (notation, lines) = read_notation(alloc, version, many, vertices, lines)?;
    let names = notation.vertex_names();
    let (root, lines) = root_line(names, vertices, known, lines)?;
    let (items, lines) = weighted_lines(alloc, names, b"arc", vertices, vertices, many, lines)?;
    let problem = Problem::Rooted {
        vertices,
        root,
        arcs: items.pairs,
        costs: items.weights,
    };
    Ok((problem, notation, lines))
}

/// A graph with coloured edges, from the words behind the form's word on.
#[tactic(auto, using(crate::proofs::Columns::columns), unfolding(crate::specs::Reading::coloured_at))]
pub(crate) fn coloured<'a>(
    alloc: Global,
    version: Version,
    words: WordCursor<'a>,
    lines: LineCursor<'a>,
) -> Written<'a>
    ensures { Gives (λ x. (written_instance x.0 x.1, lines_left x.2)) result
        (coloured_at version (words_left words.entry) (lines_left lines.entry)) }
{
    let (vertices, words) = next_size(words, 1, MOST_VERTICES)?;
    let (many, words) = next_size(words, 0, MOST_ELEMENTS)?;
    let (colours, words) = next_size(words, 0, MOST_SETS)?;
    ended(words)?;
    let (notation, lines) = read_notation(alloc, version, many, vertices, lines)?;
    let names = notation.vertex_names();
    let (items, lines) = coloured_edge_lines(alloc, names, vertices, colours, many, lines)?;
    let problem = Problem::Coloured {
        vertices,
        colours,
        edges: items.edges,
        colour_of: items.colour_of,
        weights: items.weights,
    };
    Ok((problem, notation, lines))
}

/// A table of cells, from the words behind the form's word on.
#[tactic(auto, using(crate::proofs::Columns::columns), unfolding(crate::specs::Reading::table_at))]
pub(crate) fn table<'a>(
    alloc: Global,
    version: Version,
    words: WordCursor<'a>,
    lines: LineCursor<'a>,
) -> Written<'a>
    ensures { Gives (λ x. (written_instance x.0 x.1, lines_left x.2)) result
        (table_at version (words_left words.entry) (lines_left lines.entry)) }
{
    let (rows, words) = next_size(words, 0, MOST_SETS)?;
    let (columns, words) = next_size(words, 0, MOST_SETS)?;
    let (many, words) = next_size(words, 0, MOST_ELEMENTS)?;
    ended(words)?;
    let (notation, lines) = read_notation(alloc, version, many, 0, lines)?;
    let (items, lines) = weighted_lines(alloc, None, b"cell", rows, columns, many, lines)?;
    let problem = Problem::Table {
        rows,
        columns,
        cells: items.pairs,
        weights: items.weights,
    };
    Ok((problem, notation, lines))
}
