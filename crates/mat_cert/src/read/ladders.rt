//! Ladders: rungs of growing sets, and the answers that are made of them.

ghost use Rattle.std.specs.Prelude.{◌≤◌};
ghost use Rattle.mat_words.specs.{Cursors.{lines_left, words_left}, Reading.{Gives}};
ghost use Rattle.mat_cert.specs.{
  Reading.{rung_at, plain_rung_at, priced_rung_at, rungs_at, ladder_at, intersect_at, best_at, rainbow_at, assign_at},
  Views.{certificate_of},
};
ghost use Rattle.mat_sets.specs.Limits.{most_elements};

use crate::answer::{Answer, PlainRung, PricedRung};
use crate::read::headers::{assign_header, ladder_header, rainbow_header};
use crate::read::lines::{counted_line, part_line};
use crate::read::sets::{counted_set_line, option_line, set_line};
use crate::read::words::weight_word;
use crate::read::{Found, Read};
use crate::refusal::CertRefusal;
use mat_sets::{ElemSet, Weight};
use mat_words::{LineCursor, WordCursor, next_number};
use std::alloc::Global;

/// The first line of rung k, with its weight.
#[tactic(auto, unfolding(crate::specs::Reading::rung_at))]
fn rung_line<'a>(lines: LineCursor<'a>, k: u32) -> Read<'a, Weight>
    ensures { Gives (λ x. (x.0, lines_left x.1)) result (rung_at k (lines_left lines.entry)) }
{
    let (words, rest) = counted_line(lines, b"rung", 2)?;
    let (_, words) = next_number(words, k as i128, k as i128)?;
    let (weight, _) = weight_word(words)?;
    Ok((weight, rest))
}

/// Rung k of `count` elements without a split.
#[tactic(auto, unfolding(crate::specs::Reading::plain_rung_at))]
fn plain_rung<'a>(alloc: Global, lines: LineCursor<'a>, count: u32, k: u32) -> Read<'a, PlainRung>
    ensures { Gives (λ x. (x.0, lines_left x.1)) result (plain_rung_at count k (lines_left lines.entry)) }
{
    let (weight, lines) = rung_line(lines, k)?;
    let (set, lines) = counted_set_line(alloc, lines, count, k)?;
    Ok((PlainRung { weight, set }, lines))
}

/// Rung k of `count` elements with a split.
#[tactic(auto, unfolding(crate::specs::Reading::priced_rung_at))]
fn priced_rung<'a>(alloc: Global, lines: LineCursor<'a>, count: u32, k: u32) -> Read<'a, PricedRung>
    ensures { Gives (λ x. (x.0, lines_left x.1)) result (priced_rung_at count k (lines_left lines.entry)) }
{
    let (weight, lines) = rung_line(lines, k)?;
    let (set, lines) = counted_set_line(alloc, lines, count, k)?;
    let (first, lines) = part_line(alloc, lines, b"first", count)?;
    let (second, lines) = part_line(alloc, lines, b"second", count)?;
    let rung = PricedRung {
        weight,
        set,
        first,
        second,
    };
    Ok((rung, lines))
}

/// The rungs from 0 on of `count` elements without a split.
fn plain_rungs<'a>(
    alloc: Global,
    lines: LineCursor<'a>,
    count: u32,
    many: u32,
) -> Read<'a, Vec<PlainRung>>
    ensures { Gives (λ x. (x.0.items, lines_left x.1)) result
        (rungs_at (plain_rung_at count) 0 many (lines_left lines.entry)) }
{
    let mut rungs = Vec::new(alloc);
    let mut rest = lines;
    for k in 0..many {
        let (rung, after) = plain_rung(alloc, rest, count, k)?;
        rungs.push(rung)?;
        rest = after;
    }
    Ok((rungs, rest))
}

/// The rungs from 0 on of `count` elements with a split.
fn priced_rungs<'a>(
    alloc: Global,
    lines: LineCursor<'a>,
    count: u32,
    many: u32,
) -> Read<'a, Vec<PricedRung>>
    ensures { Gives (λ x. (x.0.items, lines_left x.1)) result
        (rungs_at (priced_rung_at count) 0 many (lines_left lines.entry)) }
{
    let mut rungs = Vec::new(alloc);
    let mut rest = lines;
    for k in 0..many {
        let (rung, after) = priced_rung(alloc, rest, count, k)?;
        rungs.push(rung)?;
        rest = after;
    }
    Ok((rungs, rest))
}

/// The rungs from 0 to `last` of `count` elements with a split, and their cut.
#[tactic(auto, unfolding(crate::specs::Reading::ladder_at))]
fn ladder<'a>(
    alloc: Global,
    lines: LineCursor<'a>,
    count: u32,
    last: u32,
) -> Result<(Vec<PricedRung>, ElemSet, LineCursor<'a>), CertRefusal>
    requires { last ≤ most_elements }
    ensures { Gives (λ x. (x.0.items, x.1, lines_left x.2)) result (ladder_at count last (lines_left lines.entry)) }
{
    let (rungs, lines) = priced_rungs(alloc, lines, count, last + 1)?;
    let (cut, lines) = set_line(alloc, lines, b"cut", count)?;
    Ok((rungs, cut, lines))
}

/// An `intersect` answer, from the words behind its command on.
#[tactic(auto, unfolding(crate::specs::Reading::intersect_at))]
pub(crate) fn intersect<'a>(
    alloc: Global,
    words: WordCursor<'a>,
    lines: LineCursor<'a>,
) -> Found<'a>
    ensures { Gives (λ x. (certificate_of x.0, lines_left x.1)) result
        (intersect_at (words_left words.entry) (lines_left lines.entry)) }
{
    let (count, last) = ladder_header(words)?;
    let (rungs, cut, lines) = ladder(alloc, lines, count, last)?;
    Ok((Answer::Intersect { count, rungs, cut }, lines))
}

/// A `best` answer, from the words behind its command on.
#[tactic(auto, unfolding(crate::specs::Reading::best_at))]
pub(crate) fn best<'a>(alloc: Global, words: WordCursor<'a>, lines: LineCursor<'a>) -> Found<'a>
    ensures { Gives (λ x. (certificate_of x.0, lines_left x.1)) result
        (best_at (words_left words.entry) (lines_left lines.entry)) }
{
    let (count, last) = ladder_header(words)?;
    let (rungs, lines) = plain_rungs(alloc, lines, count, last + 1)?;
    Ok((Answer::Best { count, rungs }, lines))
}

/// A `rainbow` answer, from the words behind its command on.
#[tactic(auto, unfolding(crate::specs::Reading::rainbow_at))]
pub(crate) fn rainbow<'a>(alloc: Global, words: WordCursor<'a>, lines: LineCursor<'a>) -> Found<'a>
    ensures { Gives (λ x. (certificate_of x.0, lines_left x.1)) result
        (rainbow_at (words_left words.entry) (lines_left lines.entry)) }
{
    let (count, last, vertices, colours) = rainbow_header(words)?;
    let (rungs, cut, lines) = ladder(alloc, lines, count, last)?;
    let short = last < vertices - 1;
    let (missing, lines) = option_line(alloc, lines, b"colours", colours, short)?;
    let answer = Answer::Rainbow {
        count,
        vertices,
        colours,
        rungs,
        cut,
        missing,
    };
    Ok((answer, lines))
}

/// An `assign` answer, from the words behind its command on.
#[tactic(auto, unfolding(crate::specs::Reading::assign_at))]
pub(crate) fn assign<'a>(alloc: Global, words: WordCursor<'a>, lines: LineCursor<'a>) -> Found<'a>
    ensures { Gives (λ x. (certificate_of x.0, lines_left x.1)) result
        (assign_at (words_left words.entry) (lines_left lines.entry)) }
{
    let (count, last, rows, columns) = assign_header(words)?;
    let (rungs, cut, lines) = ladder(alloc, lines, count, last)?;
    let answer = Answer::Assign {
        count,
        rows,
        columns,
        rungs,
        cut,
    };
    Ok((answer, lines))
}
