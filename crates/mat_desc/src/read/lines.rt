//! Reading the end of a line, a line of weights, and a line of elements.

ghost use Rattle.std.specs.Prelude.{[]};
ghost use Rattle.mat_words.specs.{Cursors.{lines_left, words_left}, Reading.{Gives}};
ghost use Rattle.mat_desc.specs.{Reading.{ended_at, elements_at, weights_at}, Views.{naming}};

use crate::limits::{LARGEST_WEIGHT, SMALLEST_WEIGHT};
use crate::read::Read;
use crate::read::notation::next_member;
use crate::refusal::{DescKind, DescRefusal};
use mat_sets::{BitSet, ElemSet, PairWeights};
use mat_words::{LineCursor, Names, WordCursor, fault, keyed_line, next_weights};
use std::alloc::Global;

/// The end of a line.
#[tactic(auto, using(mat_words::proofs::Splitting::some_parts), unfolding(crate::specs::Reading::ended_at))]
pub(crate) fn ended(words: WordCursor<'_>) -> Result<(), DescRefusal>
    ensures { Gives (λ x. x) result (ended_at (words_left words.entry)) }
{
    match words.left {
        None => Ok(()),
        Some(_) => Err(fault(DescKind::TooManyWords, words.line)),
    }
}

/// The weights line of `count` elements.
#[tactic(auto, unfolding(crate::specs::Reading::weights_at))]
pub(crate) fn weights_line<'a>(
    alloc: Global,
    count: u32,
    lines: LineCursor<'a>,
) -> Read<'a, PairWeights>
    ensures { Gives (λ x. (x.0, lines_left x.1)) result (weights_at count (lines_left lines.entry)) }
{
    let (words, rest) = keyed_line(lines, b"weights")?;
    let (weights, words) = next_weights(alloc, words, count, SMALLEST_WEIGHT, LARGEST_WEIGHT)?;
    ended(words).and(Ok((PairWeights::new(weights), rest)))
}

/// The set of the elements below `count` that are left of a line, each put among the taken ones. [`DescKind::Repeated`] where one is taken
/// already.
pub(crate) fn elements_line(
    alloc: Global,
    words: WordCursor<'_>,
    names: Option<&Names>,
    count: u32,
    taken: &mut ElemSet,
) -> Result<ElemSet, DescRefusal>
    ensures { Gives (λ set. (set, taken.new)) result (elements_at (naming names.entry) count taken.old (words_left words.entry)) }
{
    let mut set = ElemSet::new(alloc);
    let mut rest = words;
    while rest.left.is_some() {
        let (element, after) = next_member(rest, names, count)?;
        if !taken.add(element)? {
            return Err(fault(DescKind::Repeated, rest.line));
        }
        let _ = set.add(element)?;
        rest = after;
    }
    Ok(set)
}

/// The set of the elements below `count` that are left of a line, as bits, so that an element is looked up and put in without a search.
/// [`DescKind::Repeated`] where one stands twice.
pub(crate) fn element_bits(
    alloc: Global,
    words: WordCursor<'_>,
    names: Option<&Names>,
    count: u32,
) -> Result<BitSet, DescRefusal>
    ensures { Gives (λ set. (set, set)) result (elements_at (naming names.entry) count [] (words_left words.entry)) }
{
    let mut set = BitSet::with_capacity(alloc, count)?;
    let mut rest = words;
    while rest.left.is_some() {
        let (element, after) = next_member(rest, names, count)?;
        if set.contains(element) {
            return Err(fault(DescKind::Repeated, rest.line));
        }
        set.insert(element)?;
        rest = after;
    }
    Ok(set)
}

/// The set of the elements below `count` that are left of a line, with no others taken.
pub(crate) fn elements_alone(
    alloc: Global,
    words: WordCursor<'_>,
    names: Option<&Names>,
    count: u32,
) -> Result<ElemSet, DescRefusal>
    ensures { Gives (λ set. (set, set)) result (elements_at (naming names.entry) count [] (words_left words.entry)) }
{
    let bits = element_bits(alloc, words, names, count)?;
    let set = ElemSet::from_bits(alloc, &bits)?;
    Ok(set)
}
