//! The words of a line.

ghost use Rattle.std.specs.Prelude.{◌≡◌, ◌==◌, length};
ghost use Rattle.mat_words.specs.{Cursors.{words_left}, Reading.{Gives}};
ghost use Rattle.mat_cert.specs.{LineReading.{fixed_at, has_words, weight_at, members_from}};

use crate::limits::LARGEST_NUMBER;
use crate::refusal::{CertKind, CertRefusal};
use mat_sets::{ElemSet, Weight};
use mat_words::{WordCursor, fault, next_below, next_weight, next_word, split_word};
use std::alloc::Global;

/// Whether exactly so many words are left of a line.
pub(crate) fn are_this_many(words: WordCursor<'_>, many: u32) -> bool
    ensures { result ≡ (length (words_left words.entry).words == many) }
{
    let mut rest = words.left;
    for _ in 0..many {
        match rest {
            None => return false,
            Some(left) => rest = split_word(left).1,
        }
    }
    match rest {
        None => true,
        Some(_) => false,
    }
}

/// Exactly so many words have to be left of a line: else it is [`CertKind::WrongCount`].
#[tactic(auto, unfolding(crate::specs::LineReading::has_words))]
pub(crate) fn has_this_many(words: WordCursor<'_>, many: u32) -> Result<(), CertRefusal>
    ensures { Gives (λ x. x) result (has_words many (words_left words.entry)) }
{
    if are_this_many(words, many) {
        Ok(())
    } else {
        Err(fault(CertKind::WrongCount, words.line))
    }
}

/// What is left of a line behind its next word, which has to be this one. [`CertKind::UnknownWord`] where it is another, and
/// [`CertKind::WrongCount`] where none is left.
#[tactic(auto, unfolding(crate::specs::LineReading::fixed_at))]
pub fn fixed_word<'a>(words: WordCursor<'a>, word: &[u8]) -> Result<WordCursor<'a>, CertRefusal>
    ensures { Gives words_left result (fixed_at word.now (words_left words.entry)) }
{
    let line = words.line;
    let (next, rest) = next_word(words)?;
    if next == word {
        Ok(rest)
    } else {
        Err(fault(CertKind::UnknownWord, line))
    }
}

/// The next word of a line as a weight.
pub(crate) fn weight_word<'a>(
    words: WordCursor<'a>,
) -> Result<(Weight, WordCursor<'a>), CertRefusal>
    ensures { Gives (λ x. (x.0, words_left x.1)) result (weight_at (words_left words.entry)) }
{
    Ok(next_weight(words, -LARGEST_NUMBER, LARGEST_NUMBER)?)
}

/// The set of the numbers below the bound that are left of a line, in rising order.
pub(crate) fn next_members(
    alloc: Global,
    words: WordCursor<'_>,
    bound: u32,
) -> Result<ElemSet, CertRefusal>
    ensures { Gives (λ set. set) result (members_from bound words.entry.line 0 (words_left words.entry).words) }
{
    let mut set = ElemSet::new(alloc);
    let mut least = 0;
    let mut rest = words;
    while rest.left.is_some() {
        let (member, after) = next_below(rest, bound)?;
        if member < least {
            return Err(fault(CertKind::NotRising, rest.line));
        }
        let _ = set.add(member)?;
        least = member + 1;
        rest = after;
    }
    Ok(set)
}
