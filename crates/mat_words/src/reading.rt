//! Reading a text line by line and word by word. What is read comes with what is left behind it, and the first fault ends the reading.

ghost use Rattle.std.specs.Prelude.{◌≡◌, ◌<◌, ◌≤◌, ◌≤ℤ◌, ◌+◌, ◌^◌, length, IfOk, IfSome, Ok};
ghost use Rattle.mat_words.specs.{
  Cursors.{lines_left, words_left},
  Lines.{lines_of},
  Words.{parts_of},
  Reading.{Gives, IsTold, line_at, word_at, number_at, size_at, below_at, binary_at, weight_at, weights_at, keyed_at, is_closed},
};

use crate::binary::read_binary;
use crate::cursor::{LineCursor, WordCursor};
use crate::lines::{spaced_line, split_line};
use crate::numbers::read_number;
use crate::refusal::{ReadingFault, Refusal, fault};
use crate::short_numbers::short_number;
use crate::weights::read_weight;
use crate::words::{split_word, well_spaced};
use mat_sets::Weight;
use std::alloc::Global;

// The words of a line with this number, which has words and is well spaced, and the lines behind it.
fn line_read<'a>(line: u32, content: &'a [u8], rest: &'a [u8]) -> (WordCursor<'a>, LineCursor<'a>)
    requires room { line + 1 + length rest.now < 2 ^ 32 }
    ensures words { words_left result.0 ≡ record { line = line; words = parts_of content.now } }
    ensures lines { lines_left result.1 ≡ record { line = line + 1; lines = lines_of rest.now } }
{
    let words = WordCursor {
        line,
        left: Some(content),
    };
    let lines = LineCursor {
        line: line + 1,
        text: rest,
    };
    (words, lines)
}

// What [`words_line`] gives, where the end of the line is looked for first, and then its spacing.
#[inline(never)]
#[tactic(auto, unfolding(crate::specs::Reading::line_at))]
fn checked_line<'a>(
    lines: LineCursor<'a>,
) -> Result<(WordCursor<'a>, LineCursor<'a>), Refusal<ReadingFault>>
    ensures value { Gives (λ x. (words_left x.0, lines_left x.1)) result (line_at (lines_left lines.entry)) }
    ensures told { IsTold result }
{
    let line = lines.line;
    let Some((content, rest)) = split_line(lines.text) else {
        return Err(fault(ReadingFault::EndsEarly, line));
    };
    if !well_spaced(content) {
        return Err(fault(ReadingFault::BadByte, line));
    }
    if content.is_empty() {
        return Err(fault(ReadingFault::NoWord, line));
    }
    Ok(line_read(line, content, rest))
}

/// The words of the next line, and the lines behind it. [`ReadingFault::EndsEarly`] where no byte 10 is left, [`ReadingFault::BadByte`]
/// where the line isn't well spaced, and [`ReadingFault::NoWord`] where it is empty. It goes over the line once, and again only where
/// there is a fault. It takes no memory, as all calls here but `next_weights`.
#[tactic(auto, unfolding(crate::specs::Reading::line_at))]
pub fn words_line<'a>(
    lines: LineCursor<'a>,
) -> Result<(WordCursor<'a>, LineCursor<'a>), Refusal<ReadingFault>>
    ensures value { Gives (λ x. (words_left x.0, lines_left x.1)) result (line_at (lines_left lines.entry)) }
    ensures told { IsTold result }
{
    let Some((content, rest)) = spaced_line(lines.text) else {
        return checked_line(lines);
    };
    Ok(line_read(lines.line, content, rest))
}

/// Whether nothing is left of a text: no line, and no byte behind the last.
#[tactic(auto, using(crate::proofs::Closing::closing))]
pub fn nothing_left(lines: LineCursor<'_>) -> bool
    ensures { result ≡ is_closed (lines_left lines.entry).lines }
{
    lines.text.is_empty()
}

/// The next word of a line, and what is left behind it. [`ReadingFault::NoWord`] where none is left.
#[tactic(auto, unfolding(crate::specs::Reading::word_at))]
pub fn next_word<'a>(
    words: WordCursor<'a>,
) -> Result<(&'a [u8], WordCursor<'a>), Refusal<ReadingFault>>
    ensures value { Gives (λ x. (x.0.now, words_left x.1)) result (word_at (words_left words.entry)) }
    ensures told { IsTold result }
{
    let line = words.line;
    let Some(left) = words.left else {
        return Err(fault(ReadingFault::NoWord, line));
    };
    let (word, left) = split_word(left);
    Ok((word, WordCursor { line, left }))
}

// The next word of a line as a number in `low..=high`, in one pass: None where it is none, or one of more than 18 digits.
#[inline(always)]
fn next_short<'a>(words: WordCursor<'a>, low: i128, high: i128) -> Option<(i128, WordCursor<'a>)>
    ensures value { IfSome result (λ x. number_at low high (words_left words.entry) ≡ Ok (x.0, words_left x.1)) }
    ensures range { IfSome result (λ x. (low ≤ℤ x.0) × (x.0 ≤ℤ high)) }
{
    let (number, left) = short_number(words.left?)?;
    if number < low || high < number {
        return None;
    }
    let line = words.line;
    Some((number, WordCursor { line, left }))
}

// The next word of a line as a number of any length, as for [`next_number`].
#[inline(never)]
#[tactic(auto, unfolding(crate::specs::Reading::number_at))]
fn next_long<'a>(
    words: WordCursor<'a>,
    low: i128,
    high: i128,
) -> Result<(i128, WordCursor<'a>), Refusal<ReadingFault>>
    ensures value { Gives (λ x. (x.0, words_left x.1)) result (number_at low high (words_left words.entry)) }
    ensures range { IfOk result (λ x. (low ≤ℤ x.0) × (x.0 ≤ℤ high)) }
    ensures told { IsTold result }
{
    let (word, rest) = next_word(words)?;
    match read_number(word, low, high) {
        Ok(number) => Ok((number, rest)),
        Err(number) => Err(fault(ReadingFault::Number(number), rest.line)),
    }
}

/// The next word of a line as a number in `low..=high`. [`ReadingFault::NoWord`] where none is left, and [`ReadingFault::Number`] where it
/// is no number or one out of range. It is fastest for numbers of at most 18 digits, as all calls here that read numbers.
#[inline(always)]
pub fn next_number<'a>(
    words: WordCursor<'a>,
    low: i128,
    high: i128,
) -> Result<(i128, WordCursor<'a>), Refusal<ReadingFault>>
    ensures value { Gives (λ x. (x.0, words_left x.1)) result (number_at low high (words_left words.entry)) }
    ensures range { IfOk result (λ x. (low ≤ℤ x.0) × (x.0 ≤ℤ high)) }
    ensures told { IsTold result }
{
    match next_short(words, low, high) {
        Some(read) => Ok(read),
        None => next_long(words, low, high),
    }
}

/// The next word of a line as a number in `low..=most`. [`ReadingFault::NoWord`] where none is left, and [`ReadingFault::Number`] where it
/// is no number or one out of range.
#[tactic(auto, unfolding(crate::specs::Reading::size_at))]
pub fn next_size<'a>(
    words: WordCursor<'a>,
    low: u32,
    most: u32,
) -> Result<(u32, WordCursor<'a>), Refusal<ReadingFault>>
    ensures value { Gives (λ x. (x.0, words_left x.1)) result (size_at low most (words_left words.entry)) }
    ensures range { IfOk result (λ x. (low ≤ x.0) × (x.0 ≤ most)) }
    ensures told { IsTold result }
{
    let (number, words) = next_number(words, low as i128, most as i128)?;
    Ok((number as u32, words))
}

/// The next word of a line as a number below the bound. [`ReadingFault::NoWord`] where none is left, and [`ReadingFault::Number`] where it
/// is no number or one out of range.
#[inline(always)]
#[tactic(auto, unfolding(crate::specs::Reading::below_at))]
pub fn next_below<'a>(
    words: WordCursor<'a>,
    bound: u32,
) -> Result<(u32, WordCursor<'a>), Refusal<ReadingFault>>
    ensures value { Gives (λ x. (x.0, words_left x.1)) result (below_at bound (words_left words.entry)) }
    ensures range { IfOk result (λ x. x.0 < bound) }
    ensures told { IsTold result }
{
    let (number, words) = next_number(words, 0, bound as i128 - 1)?;
    Ok((number as u32, words))
}

/// The next word of a line as a number of so many binary digits. [`ReadingFault::NoWord`] where none is left, and [`ReadingFault::Number`]
/// where it is no such number.
#[tactic(auto, unfolding(crate::specs::Reading::binary_at))]
pub fn next_binary<'a>(
    words: WordCursor<'a>,
    digits: u32,
) -> Result<(u128, WordCursor<'a>), Refusal<ReadingFault>>
    requires { digits ≤ 128 }
    ensures value { Gives (λ x. (x.0, words_left x.1)) result (binary_at digits (words_left words.entry)) }
    ensures range { IfOk result (λ x. x.0 < 2 ^ digits) }
    ensures told { IsTold result }
{
    let (word, rest) = next_word(words)?;
    match read_binary(word, digits) {
        Ok(number) => Ok((number, rest)),
        Err(number) => Err(fault(ReadingFault::Number(number), rest.line)),
    }
}

// The next word of a line as a weight without a tie of which each number is in `low..=high`, in one pass: None where it is none, or one
// of more than 18 digits.
#[inline(always)]
fn next_untied<'a>(words: WordCursor<'a>, low: i128, high: i128) -> Option<(Weight, WordCursor<'a>)>
    ensures { IfSome result (λ x. weight_at low high (words_left words.entry) ≡ Ok (x.0, words_left x.1)) }
{
    if low > 0 || high < 0 {
        return None;
    }
    let (main, rest) = next_short(words, low, high)?;
    Some((Weight { main, tie: 0 }, rest))
}

// The next word of a line as a weight of any length, as for [`next_weight`].
#[inline(never)]
#[tactic(auto, unfolding(crate::specs::Reading::weight_at))]
fn next_long_weight<'a>(
    words: WordCursor<'a>,
    low: i128,
    high: i128,
) -> Result<(Weight, WordCursor<'a>), Refusal<ReadingFault>>
    ensures value { Gives (λ x. (x.0, words_left x.1)) result (weight_at low high (words_left words.entry)) }
    ensures told { IsTold result }
{
    let (word, rest) = next_word(words)?;
    match read_weight(word, low, high) {
        Ok(weight) => Ok((weight, rest)),
        Err(number) => Err(fault(ReadingFault::Number(number), rest.line)),
    }
}

/// The next word of a line as a weight of which each number is in `low..=high`. [`ReadingFault::NoWord`] where none is left, and
/// [`ReadingFault::Number`] where it is no weight or one with a number out of range. It is fastest where the weight has no tie.
#[inline(always)]
pub fn next_weight<'a>(
    words: WordCursor<'a>,
    low: i128,
    high: i128,
) -> Result<(Weight, WordCursor<'a>), Refusal<ReadingFault>>
    ensures value { Gives (λ x. (x.0, words_left x.1)) result (weight_at low high (words_left words.entry)) }
    ensures told { IsTold result }
{
    match next_untied(words, low, high) {
        Some(read) => Ok(read),
        None => next_long_weight(words, low, high),
    }
}

/// The next words of a line as `count` weights of which each number is in `low..=high`. The faults are those of [`next_weight`] at the
/// first weight that has one, and [`Refusal::Memory`] is want of memory.
pub fn next_weights<'a>(
    alloc: Global,
    words: WordCursor<'a>,
    count: u32,
    low: i128,
    high: i128,
) -> Result<(Vec<Weight>, WordCursor<'a>), Refusal<ReadingFault>>
    ensures { Gives (λ x. (x.0.items, words_left x.1)) result (weights_at low high count (words_left words.entry)) }
{
    let mut weights = Vec::new(alloc);
    let mut rest = words;
    for _ in 0..count {
        let (weight, after) = next_weight(rest, low, high)?;
        weights.push(weight)?;
        rest = after;
    }
    Ok((weights, rest))
}

/// The words of the next line that follow its first word, which has to be `key`, and the lines behind that line.
/// [`ReadingFault::UnknownWord`] where the first word is another; the other faults are those of [`words_line`].
#[tactic(auto, unfolding(crate::specs::Reading::keyed_at))]
pub fn keyed_line<'a>(
    lines: LineCursor<'a>,
    key: &[u8],
) -> Result<(WordCursor<'a>, LineCursor<'a>), Refusal<ReadingFault>>
    ensures value { Gives (λ x. (words_left x.0, lines_left x.1)) result (keyed_at key.now (lines_left lines.entry)) }
    ensures told { IsTold result }
{
    let line = lines.line;
    let (words, rest) = words_line(lines)?;
    let (word, words) = next_word(words)?;
    if word == key {
        Ok((words, rest))
    } else {
        Err(fault(ReadingFault::UnknownWord, line))
    }
}
