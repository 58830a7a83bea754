//! Reading the parts of a witness.

ghost use Rattle.std.specs.Prelude.{◌≡◌, ◌≤◌, length, map};
ghost use Rattle.mat_sets.specs.Limits.{most_elements};
ghost use Rattle.mat_words.specs.{Cursors.{lines_left, words_left}, Reading.{Gives}, Steps.{repeat_at}};
ghost use Rattle.mat_witness.specs.{
  BoundRows.{behind},
  Kinds.{listed_sets},
  Reading.{binary_line_at, bound_at, free_at, pair_at, path_at},
  Views.{bound_part, free_part},
};
ghost use Rattle.mat_any.specs.Views.{tree_of};
ghost use Rattle.mat_cert.specs.LineReading.{below_at};
ghost use Rattle.mat_problem.specs.Validity.{IsValidTree};

use crate::witness::{Free, Most};
use mat_any::AnyMatroid;
use mat_cert::{CertRefusal, counted_line, set_line};
use mat_flow::Walk;
use mat_sets::Pairs;
use mat_words::{LineCursor, WordCursor, keyed_line, next_below, next_binary, next_size};
use std::alloc::Global;

// ---- lines

/// A line of this word and a number of so many binary digits.
#[tactic(auto, unfolding(crate::specs::Reading::binary_line_at))]
fn binary_line<'a>(
    lines: LineCursor<'a>,
    key: &[u8],
    digits: u32,
) -> Result<(u128, LineCursor<'a>), CertRefusal>
    requires { digits ≤ 128 }
    ensures { Gives (λ x. (x.0, lines_left x.1)) result (binary_line_at key.now digits (lines_left lines.entry)) }
{
    let (words, rest) = counted_line(lines, key, 1)?;
    let (number, _) = next_binary(words, digits)?;
    Ok((number, rest))
}

/// `many` lines, each of this word and a number of so many binary digits.
fn binary_lines<'a>(
    alloc: Global,
    lines: LineCursor<'a>,
    key: &[u8],
    digits: u32,
    many: u32,
) -> Result<(Vec<u128>, LineCursor<'a>), CertRefusal>
    requires { digits ≤ 128 }
    ensures { Gives (λ x. (x.0.items, lines_left x.1)) result (repeat_at (binary_line_at key.now digits) many (lines_left lines.entry)) }
{
    let mut numbers = Vec::new(alloc);
    let mut rest = lines;
    for _ in 0..many {
        let (number, after) = binary_line(rest, key, digits)?;
        numbers.push(number)?;
        rest = after;
    }
    Ok((numbers, rest))
}

/// The next words of a line as that many numbers below the bound.
fn next_numbers<'a>(
    alloc: Global,
    words: WordCursor<'a>,
    bound: u32,
    many: u32,
) -> Result<(Vec<u32>, WordCursor<'a>), CertRefusal>
    ensures { Gives (λ x. (x.0.items, words_left x.1)) result (repeat_at (below_at bound) many (words_left words.entry)) }
{
    let mut numbers = Vec::new(alloc);
    let mut rest = words;
    for _ in 0..many {
        let (number, after) = next_below(rest, bound)?;
        numbers.push(number)?;
        rest = after;
    }
    Ok((numbers, rest))
}

/// All words that are left of a line as numbers below the bound, behind those of a list.
fn all_numbers<'a>(
    front: Vec<u32>,
    words: WordCursor<'a>,
    bound: u32,
) -> Result<(Vec<u32>, WordCursor<'a>), CertRefusal>
    ensures { Gives (λ x. (x.0.items, words_left x.1)) result
        (behind front.items (repeat_at (below_at bound) (length (words_left words.entry).words) (words_left words.entry))) }
{
    let mut numbers = front;
    let mut rest = words;
    while rest.left.is_some() {
        let (number, after) = next_below(rest, bound)?;
        numbers.push(number)?;
        rest = after;
    }
    Ok((numbers, rest))
}

// ---- what shows independence

/// The next two words of a line as an edge and a vertex.
#[tactic(auto, unfolding(crate::specs::Reading::pair_at))]
fn next_pair<'a>(
    words: WordCursor<'a>,
    count: u32,
    vertices: u32,
) -> Result<((u32, u32), WordCursor<'a>), CertRefusal>
    ensures { Gives (λ x. (x.0, words_left x.1)) result (pair_at count vertices (words_left words.entry)) }
{
    let (edge, words) = next_below(words, count)?;
    let (vertex, words) = next_below(words, vertices)?;
    Ok(((edge, vertex), words))
}

/// The next words of a line as that many pairs of an edge and a vertex.
fn next_pairs<'a>(
    alloc: Global,
    words: WordCursor<'a>,
    count: u32,
    vertices: u32,
    many: u32,
) -> Result<(Pairs, WordCursor<'a>), CertRefusal>
    ensures { Gives (λ x. (x.0, words_left x.1)) result (repeat_at (pair_at count vertices) many (words_left words.entry)) }
{
    let mut pairs = Vec::new(alloc);
    let mut rest = words;
    for _ in 0..many {
        let (pair, after) = next_pair(rest, count, vertices)?;
        pairs.push(pair)?;
        rest = after;
    }
    Ok((Pairs::new(pairs), rest))
}

/// A line of at least one vertex.
#[tactic(auto, unfolding(crate::specs::Reading::path_at))]
fn path_line<'a>(
    alloc: Global,
    lines: LineCursor<'a>,
    vertices: u32,
) -> Result<(Walk, LineCursor<'a>), CertRefusal>
    ensures { Gives (λ x. (x.0, lines_left x.1)) result (path_at vertices (lines_left lines.entry)) }
{
    let (words, rest) = keyed_line(lines, b"path")?;
    let (first, words) = next_below(words, vertices)?;
    let mut path = Vec::new(alloc);
    path.push(first)?;
    let (path, _) = all_numbers(path, words, vertices)?;
    Ok((Walk::new(path), rest))
}

/// `many` lines of at least one vertex each.
fn path_lines<'a>(
    alloc: Global,
    lines: LineCursor<'a>,
    vertices: u32,
    many: u32,
) -> Result<(Vec<Walk>, LineCursor<'a>), CertRefusal>
    ensures { Gives (λ x. (x.0.items, lines_left x.1)) result (repeat_at (path_at vertices) many (lines_left lines.entry)) }
{
    let mut paths = Vec::new(alloc);
    let mut rest = lines;
    for _ in 0..many {
        let (path, after) = path_line(alloc, rest, vertices)?;
        paths.push(path)?;
        rest = after;
    }
    Ok((paths, rest))
}

/// What shows a set of k members independent in a matroid on `count` elements.
#[tactic(auto, unfolding(crate::specs::Reading::free_at))]
pub(crate) fn free_lines<'a>(
    alloc: Global,
    lines: LineCursor<'a>,
    count: u32,
    k: u32,
    matroid: &AnyMatroid,
) -> Result<(Free, LineCursor<'a>), CertRefusal>
    requires few { k ≤ most_elements }
    requires valid { IsValidTree count (tree_of matroid.now) }
    ensures { Gives (λ x. (free_part x.0, lines_left x.1)) result (free_at count k (tree_of matroid.now) (lines_left lines.entry)) }
{
    match matroid {
        AnyMatroid::Graphic(graphic) => {
            let (words, rest) = counted_line(lines, b"forest", 2 * k)?;
            let (pairs, _) = next_pairs(alloc, words, count, graphic.vertices(), k)?;
            Ok((Free::Forest(pairs), rest))
        }
        AnyMatroid::Gammoid(gammoid) => {
            let (paths, rest) = path_lines(alloc, lines, gammoid.graph().vertices(), k)?;
            Ok((Free::Paths(paths), rest))
        }
        AnyMatroid::Gf2(gf2) => {
            let (numbers, rest) = binary_lines(alloc, lines, b"probe", gf2.dim(), k)?;
            Ok((Free::Probes(numbers), rest))
        }
        _ => {
            let (_, rest) = counted_line(lines, b"count", 0)?;
            Ok((Free::Count, rest))
        }
    }
}

// ---- bounds

/// How many sets a counted matroid lists, and none where it is no counted one.
fn listed_count(matroid: &AnyMatroid) -> usize
    ensures { result ≡ length (listed_sets (tree_of matroid.now)) }
{
    match matroid {
        AnyMatroid::Uniform(_) => 1,
        AnyMatroid::Partition(partition) => partition.classes().as_slice().len(),
        AnyMatroid::Laminar(laminar) => laminar.sets().as_slice().len(),
        _ => 0,
    }
}

/// A bound of the rank of a set in a matroid on `count` elements.
#[tactic(auto, unfolding(crate::specs::Reading::bound_at))]
pub(crate) fn bound_lines<'a>(
    alloc: Global,
    lines: LineCursor<'a>,
    count: u32,
    matroid: &AnyMatroid,
) -> Result<(Most, LineCursor<'a>), CertRefusal>
    requires valid { IsValidTree count (tree_of matroid.now) }
    ensures { Gives (λ x. (bound_part x.0, lines_left x.1)) result (bound_at count (tree_of matroid.now) (lines_left lines.entry)) }
{
    match matroid {
        AnyMatroid::Graphic(graphic) => {
            let vertices = graphic.vertices();
            let (words, rest) = counted_line(lines, b"labels", vertices)?;
            let (labels, _) = next_numbers(alloc, words, vertices, vertices)?;
            Ok((Most::Labels(labels), rest))
        }
        AnyMatroid::Gammoid(gammoid) => {
            let vertices = gammoid.graph().vertices();
            let (reach, rest) = set_line(alloc, lines, b"reach", vertices)?;
            let (gate, rest) = set_line(alloc, rest, b"gate", vertices)?;
            Ok((Most::Gate { reach, gate }, rest))
        }
        AnyMatroid::Gf2(gf2) => {
            let (words, rest) = counted_line(lines, b"zeros", 1)?;
            let (many, _) = next_size(words, 0, gf2.dim())?;
            let (numbers, rest) = binary_lines(alloc, rest, b"zero", gf2.dim(), many)?;
            Ok((Most::Zeros(numbers), rest))
        }
        _ => {
            let (spent, rest) = set_line(alloc, lines, b"spent", count)?;
            let (sets, rest) = set_line(alloc, rest, b"sets", listed_count(matroid) as u32)?;
            Ok((Most::Spent { spent, sets }, rest))
        }
    }
}

/// `many` bounds of ranks in a matroid on `count` elements, behind those of `front`.
pub(crate) fn more_bounds<'a>(
    alloc: Global,
    front: Vec<Most>,
    lines: LineCursor<'a>,
    count: u32,
    matroid: &AnyMatroid,
    many: usize,
) -> Result<(Vec<Most>, LineCursor<'a>), CertRefusal>
    requires valid { IsValidTree count (tree_of matroid.now) }
    ensures { Gives (λ x. (map bound_part x.0.items, lines_left x.1)) result
        (behind (map bound_part front.items) (repeat_at (bound_at count (tree_of matroid.now)) many (lines_left lines.entry))) }
{
    let mut bounds = front;
    let mut rest = lines;
    for _ in 0..many {
        let (bound, after) = bound_lines(alloc, rest, count, matroid)?;
        bounds.push(bound)?;
        rest = after;
    }
    Ok((bounds, rest))
}
