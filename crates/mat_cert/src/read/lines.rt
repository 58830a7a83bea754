//! The lines of a certificate that hold no set.

ghost use Rattle.mat_words.specs.{Cursors.{lines_left, words_left}, Reading.{Gives}};
ghost use Rattle.mat_cert.specs.{LineReading.{counted_at, all_weights_at, version_at, part_at, end_at, closed_at}};

use crate::limits::LARGEST_NUMBER;
use crate::read::Read;
use crate::read::words::{fixed_word, has_this_many};
use crate::refusal::{CertKind, CertRefusal};
use mat_sets::PairWeights;
use mat_words::{LineCursor, WordCursor, fault, keyed_line, next_weights, nothing_left};
use std::alloc::Global;

/// The words of the next line that follow its first word, and the lines behind that line. The first word has to be `key`, and `many` others
/// have to follow it.
///
/// [`CertKind::EndsEarly`] where no byte 10 is left, [`CertKind::BadByte`] where the line isn't well spaced, [`CertKind::UnknownWord`]
/// where its first word is another, and [`CertKind::WrongCount`] where it has another number of words.
#[tactic(auto, unfolding(crate::specs::LineReading::counted_at))]
pub fn counted_line<'a>(
    lines: LineCursor<'a>,
    key: &[u8],
    many: u32,
) -> Result<(WordCursor<'a>, LineCursor<'a>), CertRefusal>
    ensures { Gives (λ x. (words_left x.0, lines_left x.1)) result (counted_at key.now many (lines_left lines.entry)) }
{
    let (words, rest) = keyed_line(lines, key)?;
    has_this_many(words, many)?;
    Ok((words, rest))
}

/// The first line, which names the version.
#[tactic(auto, unfolding(crate::specs::LineReading::version_at))]
pub(crate) fn version_line<'a>(lines: LineCursor<'a>) -> Result<LineCursor<'a>, CertRefusal>
    ensures { Gives lines_left result (version_at (lines_left lines.entry)) }
{
    let (words, rest) = counted_line(lines, b"certificate", 1)?;
    fixed_word(words, b"1")?;
    Ok(rest)
}

// The words that are left of a line as `count` weights, of which there have to be as many: [`CertKind::WrongCount`] where there are not,
// also where one of them is no weight. The words are counted only where the weights are not all found.
fn all_weights(alloc: Global, words: WordCursor<'_>, count: u32) -> Result<PairWeights, CertRefusal>
    ensures { Gives (λ x. x) result (all_weights_at count (words_left words.entry)) }
{
    match next_weights(alloc, words, count, -LARGEST_NUMBER, LARGEST_NUMBER) {
        Ok((weights, after)) => {
            if after.left.is_some() {
                return Err(fault(CertKind::WrongCount, words.line));
            }
            Ok(PairWeights::new(weights))
        }
        Err(refusal) => {
            has_this_many(words, count)?;
            Err(CertRefusal::from(refusal))
        }
    }
}

/// A line of this word and one part of a split of `count` weights.
#[tactic(auto, using(crate::proofs::CountedLast::part_is))]
pub(crate) fn part_line<'a>(
    alloc: Global,
    lines: LineCursor<'a>,
    key: &[u8],
    count: u32,
) -> Read<'a, PairWeights>
    ensures { Gives (λ x. (x.0, lines_left x.1)) result (part_at key.now count (lines_left lines.entry)) }
{
    let (words, rest) = keyed_line(lines, key)?;
    let weights = all_weights(alloc, words, count)?;
    Ok((weights, rest))
}

/// The last line: the word `end` alone. The faults are those of [`counted_line`].
#[tactic(auto, unfolding(crate::specs::LineReading::end_at))]
pub fn last_line<'a>(lines: LineCursor<'a>) -> Result<LineCursor<'a>, CertRefusal>
    ensures { Gives lines_left result (end_at (lines_left lines.entry)) }
{
    let (_, rest) = counted_line(lines, b"end", 0)?;
    Ok(rest)
}

/// The end of the text. A byte that is left is [`CertKind::AfterEnd`].
#[tactic(auto, unfolding(crate::specs::LineReading::closed_at))]
pub fn closed(lines: LineCursor<'_>) -> Result<(), CertRefusal>
    ensures { Gives (λ x. x) result (closed_at (lines_left lines.entry)) }
{
    if nothing_left(lines) {
        Ok(())
    } else {
        Err(fault(CertKind::AfterEnd, lines.line))
    }
}
