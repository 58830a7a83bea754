//! The words of a header behind its command.

ghost use Rattle.std.specs.Prelude.{◌<◌, ◌≤◌, IfOk};
ghost use Rattle.mat_words.specs.{Cursors.{words_left}, Reading.{Gives}};
ghost use Rattle.mat_cert.specs.{
  HeaderReading.{count_at, ladder_header_at, union_header_at, never_header_at, trees_header_at, none_at, classes_header_at, entered_header_at, rainbow_header_at, assign_header_at},
};
ghost use Rattle.mat_sets.specs.Limits.{most_elements};

use crate::limits::{
    MOST_COLOURS, MOST_COLUMNS, MOST_ELEMENTS, MOST_LEVELS, MOST_MATROIDS, MOST_ROWS, MOST_TREES,
    MOST_VERTICES,
};
use crate::read::words::{fixed_word, has_this_many, weight_word};
use crate::refusal::CertRefusal;
use mat_sets::Weight;
use mat_words::{WordCursor, next_below, next_size};

/// The number of elements.
pub(crate) fn element_count<'a>(words: WordCursor<'a>) -> Result<(u32, WordCursor<'a>), CertRefusal>
    ensures value { Gives (λ x. (x.0, words_left x.1)) result (count_at (words_left words.entry)) }
    ensures range { IfOk result (λ x. x.0 ≤ most_elements) }
{
    Ok(next_size(words, 0, MOST_ELEMENTS)?)
}

/// The elements, and a number of at most as many: the last rung of a ladder, or how many sets there are.
#[tactic(auto, unfolding(crate::specs::HeaderReading::ladder_header_at))]
pub(crate) fn ladder_header(words: WordCursor<'_>) -> Result<(u32, u32), CertRefusal>
    ensures value { Gives (λ x. x) result (ladder_header_at (words_left words.entry)) }
    ensures range { IfOk result (λ x. (x.1 ≤ x.0) × (x.0 ≤ most_elements)) }
{
    has_this_many(words, 2)?;
    let (count, words) = element_count(words)?;
    let (last, _) = next_size(words, 0, count)?;
    Ok((count, last))
}

/// The elements, the matroids, the levels and the weight of a union.
#[tactic(auto, unfolding(crate::specs::HeaderReading::union_header_at))]
pub(crate) fn union_header(words: WordCursor<'_>) -> Result<(u32, u32, u32, Weight), CertRefusal>
    ensures { Gives (λ x. x) result (union_header_at (words_left words.entry)) }
{
    has_this_many(words, 4)?;
    let (count, words) = element_count(words)?;
    let (parts, words) = next_size(words, 1, MOST_MATROIDS)?;
    let (levels, words) = next_size(words, 0, MOST_LEVELS)?;
    let (weight, _) = weight_word(words)?;
    Ok((count, parts, levels, weight))
}

/// The elements, and one that nothing covers.
#[tactic(auto, unfolding(crate::specs::HeaderReading::never_header_at))]
pub(crate) fn never_header(words: WordCursor<'_>) -> Result<(u32, u32), CertRefusal>
    ensures { Gives (λ x. x) result (never_header_at (words_left words.entry)) }
{
    has_this_many(words, 3)?;
    let (count, words) = element_count(words)?;
    let words = fixed_word(words, b"never")?;
    let (loop_at, _) = next_below(words, count)?;
    Ok((count, loop_at))
}

/// The elements, and how many trees there are.
#[tactic(auto, unfolding(crate::specs::HeaderReading::trees_header_at))]
pub(crate) fn trees_header(words: WordCursor<'_>) -> Result<(u32, u32), CertRefusal>
    ensures { Gives (λ x. x) result (trees_header_at (words_left words.entry)) }
{
    has_this_many(words, 2)?;
    let (count, words) = element_count(words)?;
    let (trees, _) = next_size(words, 1, MOST_TREES)?;
    Ok((count, trees))
}

/// The elements, a number k where k disjoint trees do not exist, and the vertices, with the words behind these.
#[tactic(auto, unfolding(crate::specs::HeaderReading::none_at))]
fn none_words<'a>(words: WordCursor<'a>) -> Result<(u32, u32, u32, WordCursor<'a>), CertRefusal>
    ensures { Gives (λ x. (x.0, x.1, x.2, words_left x.3)) result (none_at (words_left words.entry)) }
{
    let (count, words) = element_count(words)?;
    let (trees, words) = next_size(words, 1, MOST_TREES)?;
    let words = fixed_word(words, b"none")?;
    let (vertices, words) = next_size(words, 1, MOST_VERTICES)?;
    Ok((count, trees, vertices, words))
}

/// The elements, a number k where k disjoint trees do not exist, the vertices and their classes.
#[tactic(auto, unfolding(crate::specs::HeaderReading::classes_header_at))]
pub(crate) fn classes_header(words: WordCursor<'_>) -> Result<(u32, u32, u32, u32), CertRefusal>
    ensures { Gives (λ x. x) result (classes_header_at (words_left words.entry)) }
{
    has_this_many(words, 5)?;
    let (count, trees, vertices, words) = none_words(words)?;
    let (classes, _) = next_size(words, 1, vertices)?;
    Ok((count, trees, vertices, classes))
}

/// The elements, a number k where k disjoint arborescences do not exist, and the vertices.
#[tactic(auto, unfolding(crate::specs::HeaderReading::entered_header_at))]
pub(crate) fn entered_header(words: WordCursor<'_>) -> Result<(u32, u32, u32), CertRefusal>
    ensures { Gives (λ x. x) result (entered_header_at (words_left words.entry)) }
{
    has_this_many(words, 4)?;
    let (count, trees, vertices, _) = none_words(words)?;
    Ok((count, trees, vertices))
}

/// The elements, the last rung, the vertices and the colours.
#[tactic(auto, unfolding(crate::specs::HeaderReading::rainbow_header_at))]
pub(crate) fn rainbow_header(words: WordCursor<'_>) -> Result<(u32, u32, u32, u32), CertRefusal>
    ensures value { Gives (λ x. x) result (rainbow_header_at (words_left words.entry)) }
    ensures range { IfOk result (λ x. (x.1 ≤ most_elements) × (0 < x.2)) }
{
    has_this_many(words, 4)?;
    let (count, words) = element_count(words)?;
    let (last, words) = next_size(words, 0, count)?;
    let (vertices, words) = next_size(words, 1, MOST_VERTICES)?;
    let (colours, _) = next_size(words, 0, MOST_COLOURS)?;
    Ok((count, last, vertices, colours))
}

/// The elements, the last rung, the rows and the columns.
#[tactic(auto, unfolding(crate::specs::HeaderReading::assign_header_at))]
pub(crate) fn assign_header(words: WordCursor<'_>) -> Result<(u32, u32, u32, u32), CertRefusal>
    ensures value { Gives (λ x. x) result (assign_header_at (words_left words.entry)) }
    ensures range { IfOk result (λ x. x.1 ≤ most_elements) }
{
    has_this_many(words, 4)?;
    let (count, words) = element_count(words)?;
    let (last, words) = next_size(words, 0, count)?;
    let (rows, words) = next_size(words, 0, MOST_ROWS)?;
    let (columns, _) = next_size(words, 0, MOST_COLUMNS)?;
    Ok((count, last, rows, columns))
}
