//! Reading a line for each edge, arc, cell or column.

ghost use Rattle.std.specs.{Prelude.{◌≡◌, ◌≤◌, length, IfOk}, List.{zip}};
ghost use Rattle.mat_problem.specs.Limits.{most_digits};
ghost use Rattle.mat_desc.specs.{Reading.{ends_at, ends_line_at, column_at, weighted_at, coloured_edge_at}, Views.{naming}};
ghost use Rattle.mat_words.specs.{Steps.{repeat_at}, Cursors.{lines_left, words_left}, Reading.{Gives}};

use crate::limits::{LARGEST_WEIGHT, SMALLEST_WEIGHT};
use crate::read::Read;
use crate::read::lines::ended;
use crate::read::notation::next_member;
use crate::refusal::DescRefusal;
use mat_sets::{PairWeights, Pairs, Weight};
use mat_words::{LineCursor, Names, WordCursor, keyed_line, next_below, next_binary, next_weight};
use std::alloc::Global;

/// Two numbers with a weight: an arc with its cost, or a cell with its weight.
#[derive(Clone, Copy)]
struct WeightedPair {
    /// The two numbers.
    ends: (u32, u32),
    /// The cost or the weight.
    weight: Weight,
}

/// An edge with a colour and a weight.
#[derive(Clone, Copy)]
struct ColouredEdge {
    /// The two ends.
    ends: (u32, u32),
    /// The colour.
    colour: u32,
    /// The weight.
    weight: Weight,
}

/// Pairs of numbers, each with a weight.
#[derive(Drop)]
pub(crate) struct WeightedPairs {
    /// The pairs.
    pub(crate) pairs: Pairs,
    /// The weight of each.
    pub(crate) weights: PairWeights,
}

/// Edges, each with a colour and a weight.
#[derive(Drop)]
pub(crate) struct ColouredEdges {
    /// The ends of each.
    pub(crate) edges: Pairs,
    /// The colour of each.
    pub(crate) colour_of: Vec<u32>,
    /// The weight of each.
    pub(crate) weights: PairWeights,
}

/// The words for two numbers, the first below the first bound and the second below the second.
#[tactic(auto, unfolding(crate::specs::Reading::ends_at))]
fn next_ends<'a>(
    words: WordCursor<'a>,
    names: Option<&Names>,
    first_bound: u32,
    second_bound: u32,
) -> Result<((u32, u32), WordCursor<'a>), DescRefusal>
    ensures { Gives (λ x. (x.0, words_left x.1)) result
        (ends_at (naming names.entry) first_bound second_bound (words_left words.entry)) }
{
    let (first, words) = next_member(words, names, first_bound)?;
    let (second, words) = next_member(words, names, second_bound)?;
    Ok(((first, second), words))
}

/// A line of this keyword with the two ends of an edge or of an arc.
#[tactic(auto, unfolding(crate::specs::Reading::ends_line_at))]
fn ends_line<'a>(
    names: Option<&Names>,
    key: &[u8],
    vertices: u32,
    lines: LineCursor<'a>,
) -> Read<'a, (u32, u32)>
    ensures { Gives (λ x. (x.0, lines_left x.1)) result (ends_line_at (naming names.entry) key.now vertices (lines_left lines.entry)) }
{
    let (words, rest) = keyed_line(lines, key)?;
    let (ends, words) = next_ends(words, names, vertices, vertices)?;
    ended(words).and(Ok((ends, rest)))
}

/// A column line.
#[tactic(auto, unfolding(crate::specs::Reading::column_at))]
fn column_line<'a>(dim: u32, lines: LineCursor<'a>) -> Read<'a, u128>
    requires { dim ≤ most_digits }
    ensures { Gives (λ x. (x.0, lines_left x.1)) result (column_at dim (lines_left lines.entry)) }
{
    let (words, rest) = keyed_line(lines, b"column")?;
    let (column, words) = next_binary(words, dim)?;
    ended(words).and(Ok((column, rest)))
}

/// A line of this keyword with two numbers and a weight.
#[tactic(auto, unfolding(crate::specs::Reading::weighted_at))]
fn weighted_line<'a>(
    names: Option<&Names>,
    key: &[u8],
    first_bound: u32,
    second_bound: u32,
    lines: LineCursor<'a>,
) -> Read<'a, WeightedPair>
    ensures { Gives (λ x. ((x.0.ends, x.0.weight), lines_left x.1)) result
        (weighted_at (naming names.entry) key.now first_bound second_bound (lines_left lines.entry)) }
{
    let (words, rest) = keyed_line(lines, key)?;
    let (ends, words) = next_ends(words, names, first_bound, second_bound)?;
    let (weight, words) = next_weight(words, SMALLEST_WEIGHT, LARGEST_WEIGHT)?;
    ended(words).and(Ok((WeightedPair { ends, weight }, rest)))
}

/// An edge line with a colour and a weight.
#[tactic(auto, unfolding(crate::specs::Reading::coloured_edge_at))]
fn coloured_edge_line<'a>(
    names: Option<&Names>,
    vertices: u32,
    colours: u32,
    lines: LineCursor<'a>,
) -> Read<'a, ColouredEdge>
    ensures { Gives (λ x. ((x.0.ends, (x.0.colour, x.0.weight)), lines_left x.1)) result
        (coloured_edge_at (naming names.entry) vertices colours (lines_left lines.entry)) }
{
    let (words, rest) = keyed_line(lines, b"edge")?;
    let (ends, words) = next_ends(words, names, vertices, vertices)?;
    let (colour, words) = next_below(words, colours)?;
    let (weight, words) = next_weight(words, SMALLEST_WEIGHT, LARGEST_WEIGHT)?;
    let edge = ColouredEdge {
        ends,
        colour,
        weight,
    };
    ended(words).and(Ok((edge, rest)))
}

/// As many lines of this keyword with the two ends of an edge or of an arc.
pub(crate) fn ends_lines<'a>(
    alloc: Global,
    names: Option<&Names>,
    key: &[u8],
    vertices: u32,
    many: u32,
    lines: LineCursor<'a>,
) -> Read<'a, Pairs>
    ensures { Gives (λ x. (x.0, lines_left x.1)) result
        (repeat_at (ends_line_at (naming names.entry) key.now vertices) many (lines_left lines.entry)) }
{
    let mut pairs = Vec::new(alloc);
    let mut rest = lines;
    for _ in 0..many {
        let (ends, after) = ends_line(names, key, vertices, rest)?;
        pairs.push(ends)?;
        rest = after;
    }
    Ok((Pairs::new(pairs), rest))
}

/// As many column lines.
pub(crate) fn column_lines<'a>(
    alloc: Global,
    dim: u32,
    many: u32,
    lines: LineCursor<'a>,
) -> Read<'a, Vec<u128>>
    requires { dim ≤ most_digits }
    ensures { Gives (λ x. (x.0.items, lines_left x.1)) result
        (repeat_at (column_at dim) many (lines_left lines.entry)) }
{
    let mut columns = Vec::new(alloc);
    let mut rest = lines;
    for _ in 0..many {
        let (column, after) = column_line(dim, rest)?;
        columns.push(column)?;
        rest = after;
    }
    Ok((columns, rest))
}

/// As many lines of this keyword with two numbers and a weight.
pub(crate) fn weighted_lines<'a>(
    alloc: Global,
    names: Option<&Names>,
    key: &[u8],
    first_bound: u32,
    second_bound: u32,
    many: u32,
    lines: LineCursor<'a>,
) -> Read<'a, WeightedPairs>
    ensures value { Gives (λ x. (zip x.0.pairs x.0.weights, lines_left x.1)) result
        (repeat_at (weighted_at (naming names.entry) key.now first_bound second_bound) many (lines_left lines.entry)) }
    ensures as_many { IfOk result (λ x. length x.0.weights ≡ length x.0.pairs) }
{
    let mut pairs = Vec::new(alloc);
    let mut weights = Vec::new(alloc);
    let mut rest = lines;
    for _ in 0..many {
        let (item, after) = weighted_line(names, key, first_bound, second_bound, rest)?;
        pairs.push(item.ends)?;
        weights.push(item.weight)?;
        rest = after;
    }
    let items = WeightedPairs {
        pairs: Pairs::new(pairs),
        weights: PairWeights::new(weights),
    };
    Ok((items, rest))
}

/// As many edge lines with a colour and a weight.
pub(crate) fn coloured_edge_lines<'a>(
    alloc: Global,
    names: Option<&Names>,
    vertices: u32,
    colours: u32,
    many: u32,
    lines: LineCursor<'a>,
) -> Read<'a, ColouredEdges>
    ensures value { Gives (λ x. (zip x.0.edges (zip x.0.colour_of.items x.0.weights), lines_left x.1)) result
        (repeat_at (coloured_edge_at (naming names.entry) vertices colours) many (lines_left lines.entry)) }
    ensures coloured { IfOk result (λ x. length x.0.colour_of.items ≡ length x.0.edges) }
    ensures as_many { IfOk result (λ x. length x.0.weights ≡ length x.0.edges) }
{
    let mut edges = Vec::new(alloc);
    let mut colour_of = Vec::new(alloc);
    let mut weights = Vec::new(alloc);
    let mut rest = lines;
    for _ in 0..many {
        let (edge, after) = coloured_edge_line(names, vertices, colours, rest)?;
        edges.push(edge.ends)?;
        colour_of.push(edge.colour)?;
        weights.push(edge.weight)?;
        rest = after;
    }
    let items = ColouredEdges {
        edges: Pairs::new(edges),
        colour_of,
        weights: PairWeights::new(weights),
    };
    Ok((items, rest))
}
