//! Spanning trees and arborescences, and sets of vertices that exclude them.

ghost use Rattle.mat_words.specs.{Cursors.{lines_left, words_left}, Reading.{Gives}};
ghost use Rattle.mat_cert.specs.{
  Reading.{found_trees_at, classes_at, trees_at, arbor_at, unreached_at, arborescence_at, entered_at, disjoint_at},
  Views.{certificate_of},
};

use crate::answer::Answer;
use crate::limits::MOST_VERTICES;
use crate::read::Found;
use crate::read::headers::{classes_header, element_count, entered_header, trees_header};
use crate::read::lines::part_line;
use crate::read::sets::{set_line, set_lines};
use crate::read::words::{are_this_many, has_this_many, weight_word};
use crate::refusal::{CertKind, CertRefusal};
use mat_sets::SetList;
use mat_words::{LineCursor, WordCursor, fault, next_size, next_word};
use std::alloc::Global;

/// Trees that are there, with the number of elements, from the words behind their command on.
#[tactic(auto, unfolding(crate::specs::Reading::found_trees_at))]
fn found_trees<'a>(
    alloc: Global,
    words: WordCursor<'a>,
    lines: LineCursor<'a>,
) -> Result<(u32, SetList, LineCursor<'a>), CertRefusal>
    ensures { Gives (λ x. (x.0, x.1, lines_left x.2)) result
        (found_trees_at (words_left words.entry) (lines_left lines.entry)) }
{
    let (count, many) = trees_header(words)?;
    let (trees, lines) = set_lines(alloc, lines, b"tree", count, many)?;
    Ok((count, trees, lines))
}

/// A `trees` answer that says `none`, from the words behind its command on.
#[tactic(auto, unfolding(crate::specs::Reading::classes_at))]
fn classes<'a>(alloc: Global, words: WordCursor<'a>, lines: LineCursor<'a>) -> Found<'a>
    ensures { Gives (λ x. (certificate_of x.0, lines_left x.1)) result
        (classes_at (words_left words.entry) (lines_left lines.entry)) }
{
    let (count, k, vertices, many) = classes_header(words)?;
    let (classes, lines) = set_lines(alloc, lines, b"class", vertices, many)?;
    let answer = Answer::TreesNone {
        count,
        k,
        vertices,
        classes,
    };
    Ok((answer, lines))
}

/// A `trees` answer, from the words behind its command on.
#[tactic(auto, unfolding(crate::specs::Reading::trees_at))]
pub(crate) fn trees<'a>(alloc: Global, words: WordCursor<'a>, lines: LineCursor<'a>) -> Found<'a>
    ensures { Gives (λ x. (certificate_of x.0, lines_left x.1)) result
        (trees_at (words_left words.entry) (lines_left lines.entry)) }
{
    if are_this_many(words, 5) {
        return classes(alloc, words, lines);
    }
    let (count, trees, lines) = found_trees(alloc, words, lines)?;
    Ok((Answer::Trees { count, trees }, lines))
}

/// An `arborescence` answer that says `tree`, from its cost on.
#[tactic(auto, unfolding(crate::specs::Reading::arbor_at))]
fn arbor<'a>(alloc: Global, count: u32, words: WordCursor<'a>, lines: LineCursor<'a>) -> Found<'a>
    ensures { Gives (λ x. (certificate_of x.0, lines_left x.1)) result
        (arbor_at count (words_left words.entry) (lines_left lines.entry)) }
{
    let (cost, _) = weight_word(words)?;
    let (arcs, lines) = set_line(alloc, lines, b"set", count)?;
    let (first, lines) = part_line(alloc, lines, b"first", count)?;
    let (second, lines) = part_line(alloc, lines, b"second", count)?;
    let answer = Answer::Arbor {
        count,
        cost,
        arcs,
        first,
        second,
    };
    Ok((answer, lines))
}

/// An `arborescence` answer that says `unreached`, from the number of vertices on.
#[tactic(auto, unfolding(crate::specs::Reading::unreached_at))]
fn unreached<'a>(
    alloc: Global,
    count: u32,
    words: WordCursor<'a>,
    lines: LineCursor<'a>,
) -> Found<'a>
    ensures { Gives (λ x. (certificate_of x.0, lines_left x.1)) result
        (unreached_at count (words_left words.entry) (lines_left lines.entry)) }
{
    let (vertices, _) = next_size(words, 1, MOST_VERTICES)?;
    let (set, lines) = set_line(alloc, lines, b"vertices", vertices)?;
    let answer = Answer::Unreached {
        count,
        vertices,
        set,
    };
    Ok((answer, lines))
}

/// An `arborescence` answer, from the words behind its command on.
#[tactic(auto, unfolding(crate::specs::Reading::arborescence_at))]
pub(crate) fn arborescence<'a>(
    alloc: Global,
    words: WordCursor<'a>,
    lines: LineCursor<'a>,
) -> Found<'a>
    ensures { Gives (λ x. (certificate_of x.0, lines_left x.1)) result
        (arborescence_at (words_left words.entry) (lines_left lines.entry)) }
{
    let line = words.line;
    has_this_many(words, 3)?;
    let (count, words) = element_count(words)?;
    let (word, words) = next_word(words)?;
    if word == b"tree".as_slice() {
        arbor(alloc, count, words, lines)
    } else if word == b"unreached".as_slice() {
        unreached(alloc, count, words, lines)
    } else {
        Err(fault(CertKind::UnknownWord, line))
    }
}

/// A `disjoint` answer that says `none`, from the words behind its command on.
#[tactic(auto, unfolding(crate::specs::Reading::entered_at))]
fn entered<'a>(alloc: Global, words: WordCursor<'a>, lines: LineCursor<'a>) -> Found<'a>
    ensures { Gives (λ x. (certificate_of x.0, lines_left x.1)) result
        (entered_at (words_left words.entry) (lines_left lines.entry)) }
{
    let (count, k, vertices) = entered_header(words)?;
    let (set, lines) = set_line(alloc, lines, b"vertices", vertices)?;
    let answer = Answer::DisjointNone {
        count,
        k,
        vertices,
        set,
    };
    Ok((answer, lines))
}

/// A `disjoint` answer, from the words behind its command on.
#[tactic(auto, unfolding(crate::specs::Reading::disjoint_at))]
pub(crate) fn disjoint<'a>(alloc: Global, words: WordCursor<'a>, lines: LineCursor<'a>) -> Found<'a>
    ensures { Gives (λ x. (certificate_of x.0, lines_left x.1)) result
        (disjoint_at (words_left words.entry) (lines_left lines.entry)) }
{
    if are_this_many(words, 4) {
        return entered(alloc, words, lines);
    }
    let (count, trees, lines) = found_trees(alloc, words, lines)?;
    Ok((Answer::Disjoint { count, trees }, lines))
}
