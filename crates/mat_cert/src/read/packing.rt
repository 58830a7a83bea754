//! Unions, packings and covers: sets of a list of matroids, or of one.

ghost use Rattle.mat_words.specs.{Cursors.{lines_left, words_left}, Reading.{Gives}};
ghost use Rattle.mat_cert.specs.{
  Reading.{union_at, bases_at, pack_at, never_at, covering_at, cover_at},
  Views.{certificate_of},
};

use crate::answer::Answer;
use crate::read::Found;
use crate::read::headers::{element_count, ladder_header, never_header, union_header};
use crate::read::sets::{level_lines, option_line, set_line, set_lines};
use crate::read::words::{are_this_many, has_this_many};
use mat_words::{LineCursor, WordCursor, next_size, next_word};
use std::alloc::Global;

/// A `union` answer, from the words behind its command on.
#[tactic(auto, unfolding(crate::specs::Reading::union_at))]
pub(crate) fn union<'a>(alloc: Global, words: WordCursor<'a>, lines: LineCursor<'a>) -> Found<'a>
    ensures { Gives (λ x. (certificate_of x.0, lines_left x.1)) result
        (union_at (words_left words.entry) (lines_left lines.entry)) }
{
    let (count, many, few, weight) = union_header(words)?;
    let (parts, lines) = set_lines(alloc, lines, b"part", count, many)?;
    let (levels, lines) = level_lines(alloc, lines, count, few)?;
    let answer = Answer::UnionOf {
        count,
        weight,
        parts,
        levels,
    };
    Ok((answer, lines))
}

/// A `pack` answer with a number of bases, from that number on.
#[tactic(auto, unfolding(crate::specs::Reading::bases_at))]
fn bases<'a>(alloc: Global, count: u32, words: WordCursor<'a>, lines: LineCursor<'a>) -> Found<'a>
    ensures { Gives (λ x. (certificate_of x.0, lines_left x.1)) result
        (bases_at count (words_left words.entry) (lines_left lines.entry)) }
{
    let (many, _) = next_size(words, 0, count)?;
    let (bases, lines) = set_lines(alloc, lines, b"base", count, many)?;
    let (cut, lines) = set_line(alloc, lines, b"cut", count)?;
    Ok((Answer::Pack { count, bases, cut }, lines))
}

/// A `pack` answer, from the words behind its command on.
#[tactic(auto, unfolding(crate::specs::Reading::pack_at))]
pub(crate) fn pack<'a>(alloc: Global, words: WordCursor<'a>, lines: LineCursor<'a>) -> Found<'a>
    ensures { Gives (λ x. (certificate_of x.0, lines_left x.1)) result
        (pack_at (words_left words.entry) (lines_left lines.entry)) }
{
    has_this_many(words, 2)?;
    let (count, words) = element_count(words)?;
    let (word, _) = next_word(words)?;
    if word == b"any".as_slice() {
        Ok((Answer::PackAny { count }, lines))
    } else {
        bases(alloc, count, words, lines)
    }
}

/// A `cover` answer that says `never`, from the words behind its command on.
#[tactic(auto, unfolding(crate::specs::Reading::never_at))]
fn never<'a>(words: WordCursor<'a>, lines: LineCursor<'a>) -> Found<'a>
    ensures { Gives (λ x. (certificate_of x.0, lines_left x.1)) result
        (never_at (words_left words.entry) (lines_left lines.entry)) }
{
    let (count, loop_at) = never_header(words)?;
    Ok((Answer::CoverNever { count, loop_at }, lines))
}

/// A `cover` answer with sets, from the words behind its command on.
#[tactic(auto, unfolding(crate::specs::Reading::covering_at))]
fn covering<'a>(alloc: Global, words: WordCursor<'a>, lines: LineCursor<'a>) -> Found<'a>
    ensures { Gives (λ x. (certificate_of x.0, lines_left x.1)) result
        (covering_at (words_left words.entry) (lines_left lines.entry)) }
{
    let (count, many) = ladder_header(words)?;
    let (sets, lines) = set_lines(alloc, lines, b"part", count, many)?;
    let (cut, lines) = option_line(alloc, lines, b"cut", count, many > 0)?;
    Ok((Answer::Cover { count, sets, cut }, lines))
}

/// A `cover` answer, from the words behind its command on.
#[tactic(auto, unfolding(crate::specs::Reading::cover_at))]
pub(crate) fn cover<'a>(alloc: Global, words: WordCursor<'a>, lines: LineCursor<'a>) -> Found<'a>
    ensures { Gives (λ x. (certificate_of x.0, lines_left x.1)) result
        (cover_at (words_left words.entry) (lines_left lines.entry)) }
{
    if are_this_many(words, 3) {
        never(words, lines)
    } else {
        covering(alloc, words, lines)
    }
}
