//! Sets on lines of their own, one or many, and levels.

ghost use Rattle.mat_words.specs.{Cursors.{lines_left, words_left}, Reading.{Gives}, Steps.{repeat_at}};
ghost use Rattle.mat_cert.specs.{LineReading.{set_at, option_at, all_members_at, counted_set_at, sets_at, level_at}};

use crate::answer::LevelLine;
use crate::read::Read;
use crate::read::words::{has_this_many, next_members, weight_word};
use crate::refusal::{CertKind, CertRefusal};
use mat_sets::{ElemSet, SetList};
use mat_words::{LineCursor, WordCursor, fault, keyed_line};
use std::alloc::Global;

/// A line of this word and a set of numbers below the bound, in rising order.
///
/// The faults are of these kinds of [`CertKind`](crate::CertKind): `EndsEarly` where no byte 10 is left, `BadByte` where the line isn't
/// well spaced, `WrongCount` where it is empty, `UnknownWord` where its first word is another, `NumberSpelling` where a word behind that is
/// no number, `NumberRange` where it is one out of range, and `NotRising` where it isn't above the one before it. [`CertRefusal::Memory`]
/// is want of memory.
#[tactic(auto, unfolding(crate::specs::LineReading::set_at))]
pub fn set_line<'a>(
    alloc: Global,
    lines: LineCursor<'a>,
    key: &[u8],
    bound: u32,
) -> Result<(ElemSet, LineCursor<'a>), CertRefusal>
    ensures { Gives (λ x. (x.0, lines_left x.1)) result (set_at key.now bound (lines_left lines.entry)) }
{
    let (words, rest) = keyed_line(lines, key)?;
    let set = next_members(alloc, words, bound)?;
    Ok((set, rest))
}

/// A line of this word and a set of numbers below the bound where it is needed, and no line where it isn't.
#[tactic(auto, unfolding(crate::specs::LineReading::option_at))]
pub(crate) fn option_line<'a>(
    alloc: Global,
    lines: LineCursor<'a>,
    key: &[u8],
    bound: u32,
    needed: bool,
) -> Read<'a, Option<ElemSet>>
    ensures { Gives (λ x. (x.0, lines_left x.1)) result (option_at key.now bound needed (lines_left lines.entry)) }
{
    if needed {
        let (set, rest) = set_line(alloc, lines, key, bound)?;
        Ok((Some(set), rest))
    } else {
        Ok((None, lines))
    }
}

// The set of the numbers below the bound that are left of a line, in rising order, of which there have to be as many:
// [`CertKind::WrongCount`] where there are not, also where one of them is no such number. The words are counted only where the set isn't
// found.
fn all_members(
    alloc: Global,
    words: WordCursor<'_>,
    bound: u32,
    many: u32,
) -> Result<ElemSet, CertRefusal>
    ensures { Gives (λ set. set) result (all_members_at bound many (words_left words.entry)) }
{
    match next_members(alloc, words, bound) {
        Ok(set) => {
            if set.len() != many as usize {
                return Err(fault(CertKind::WrongCount, words.line));
            }
            Ok(set)
        }
        Err(refusal) => {
            has_this_many(words, many)?;
            Err(refusal)
        }
    }
}

/// A `set` line with as many numbers below the bound.
#[tactic(auto, using(crate::proofs::CountedLast::counted_set_is))]
pub(crate) fn counted_set_line<'a>(
    alloc: Global,
    lines: LineCursor<'a>,
    bound: u32,
    many: u32,
) -> Read<'a, ElemSet>
    ensures { Gives (λ x. (x.0, lines_left x.1)) result (counted_set_at bound many (lines_left lines.entry)) }
{
    let (words, rest) = keyed_line(lines, b"set")?;
    let set = all_members(alloc, words, bound, many)?;
    Ok((set, rest))
}

/// As many lines of this word, each with a set of numbers below the bound.
pub(crate) fn set_lines<'a>(
    alloc: Global,
    lines: LineCursor<'a>,
    key: &[u8],
    bound: u32,
    many: u32,
) -> Read<'a, SetList>
    ensures { Gives (λ x. (x.0, lines_left x.1)) result (sets_at key.now bound many (lines_left lines.entry)) }
{
    let mut sets = Vec::new(alloc);
    let mut rest = lines;
    for _ in 0..many {
        let (set, after) = set_line(alloc, rest, key, bound)?;
        sets.push(set)?;
        rest = after;
    }
    Ok((SetList::new(sets), rest))
}

/// A level of `count` elements.
#[tactic(auto, unfolding(crate::specs::LineReading::level_at))]
fn level_line<'a>(alloc: Global, lines: LineCursor<'a>, count: u32) -> Read<'a, LevelLine>
    ensures { Gives (λ x. (x.0, lines_left x.1)) result (level_at count (lines_left lines.entry)) }
{
    let (words, rest) = keyed_line(lines, b"level")?;
    let line = words.line;
    let (at, after) = weight_word(words)?;
    let left = after.left;
    let cut = next_members(alloc, WordCursor { line, left }, count)?;
    Ok((LevelLine { at, cut }, rest))
}

/// As many levels of `count` elements.
pub(crate) fn level_lines<'a>(
    alloc: Global,
    lines: LineCursor<'a>,
    count: u32,
    many: u32,
) -> Read<'a, Vec<LevelLine>>
    ensures { Gives (λ x. (x.0.items, lines_left x.1)) result (repeat_at (level_at count) many (lines_left lines.entry)) }
{
    let mut levels = Vec::new(alloc);
    let mut rest = lines;
    for _ in 0..many {
        let (level, after) = level_line(alloc, rest, count)?;
        levels.push(level)?;
        rest = after;
    }
    Ok((levels, rest))
}
