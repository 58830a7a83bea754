//! Reading a description: its version, the problem of its form, and its end.

ghost use Rattle.std.specs.Prelude.{◌≤◌, length, IfOk};
ghost use Rattle.mat_problem.specs.{Validity.{IsValid}, Instances.{Instance}, Views.{instance_of}};
ghost use Rattle.mat_desc.specs.{
  Grammar.{Spells},
  Limits.{description_limit},
  Reading.{version_at, end_at, closed_at, ending_at, instance_at, description_at, written_of, read_of},
  Views.{written_instance},
};
ghost use Rattle.mat_words.specs.{Cursors.{lines_left}, Reading.{Gives}};

use crate::read::forms::{coloured, graph, list, pair, rooted, table};
use crate::read::keywords::{Form, Version, form_from, version_from};
use crate::read::lines::ended;
use crate::read::notation::Notation;
use crate::read::{Read, Written};
use crate::refusal::{DescKind, DescRefusal};
use mat_problem::Problem;
use mat_words::{LineCursor, fault, keyed_line, next_word, nothing_left, words_line};
use std::alloc::Global;

/// The first line, which names the version.
#[tactic(auto, unfolding(crate::specs::Reading::version_at))]
fn version_line<'a>(lines: LineCursor<'a>) -> Read<'a, Version>
    ensures { Gives (λ x. (x.0, lines_left x.1)) result (version_at (lines_left lines.entry)) }
{
    let line = lines.line;
    let (words, rest) = keyed_line(lines, b"matroids")?;
    let (word, words) = next_word(words)?;
    let Some(version) = version_from(word) else {
        return Err(fault(DescKind::Version, line));
    };
    ended(words).and(Ok((version, rest)))
}

/// The last line.
#[tactic(auto, unfolding(crate::specs::Reading::end_at))]
fn end_line<'a>(lines: LineCursor<'a>) -> Result<LineCursor<'a>, DescRefusal>
    ensures { Gives lines_left result (end_at (lines_left lines.entry)) }
{
    let (words, rest) = keyed_line(lines, b"end")?;
    ended(words).and(Ok(rest))
}

/// The end of the text.
#[tactic(auto, unfolding(crate::specs::Reading::closed_at))]
fn closed(lines: LineCursor<'_>) -> Result<(), DescRefusal>
    ensures { Gives (λ x. x) result (closed_at (lines_left lines.entry)) }
{
    if nothing_left(lines) {
        Ok(())
    } else {
        Err(fault(DescKind::TooManyLines, lines.line))
    }
}

/// The last line and the end of the text.
#[tactic(auto, unfolding(crate::specs::Reading::ending_at))]
fn ending(lines: LineCursor<'_>) -> Result<(), DescRefusal>
    ensures { Gives (λ x. x) result (ending_at (lines_left lines.entry)) }
{
    let lines = end_line(lines)?;
    closed(lines)
}

/// A problem, from its form line on.
#[tactic(auto, unfolding(crate::specs::Reading::instance_at))]
fn problem_lines<'a>(alloc: Global, version: Version, lines: LineCursor<'a>) -> Written<'a>
    ensures { Gives (λ x. (written_instance x.0 x.1, lines_left x.2)) result
        (instance_at version (lines_left lines.entry)) }
{
    let line = lines.line;
    let (words, rest) = words_line(lines)?;
    let (word, words) = next_word(words)?;
    match form_from(word) {
        None => Err(fault(DescKind::UnknownWord, line)),
        Some(Form::Pair) => pair(alloc, version, words, rest),
        Some(Form::List) => list(alloc, version, words, rest),
        Some(Form::Graph) => graph(alloc, version, words, rest),
        Some(Form::Rooted) => rooted(alloc, version, words, rest),
        Some(Form::Coloured) => coloured(alloc, version, words, rest),
        Some(Form::Table) => table(alloc, version, words, rest),
    }
}

/// A whole description.
#[tactic(auto, unfolding(crate::specs::Reading::description_at))]
fn description(alloc: Global, lines: LineCursor<'_>) -> Result<(Problem, Notation), DescRefusal>
    ensures { Gives (λ x. written_instance x.0 x.1) result (description_at (lines_left lines.entry)) }
{
    let (version, lines) = version_line(lines)?;
    let (problem, notation, lines) = problem_lines(alloc, version, lines)?;
    ending(lines).and(Ok((problem, notation)))
}

/// The problem that a text states, and what its elements and its vertices are called there.
pub(crate) fn read_description(
    alloc: Global,
    text: &[u8],
) -> Result<(Problem, Notation), DescRefusal>
    requires { length text.now ≤ description_limit }
    ensures { Gives (λ x. written_instance x.0 x.1) result (written_of text.now) }
{
    description(alloc, LineCursor { line: 1, text })
}

/// The problem that a text states, whatever its elements and its vertices are called.
fn problem_alone(alloc: Global, text: &[u8]) -> Result<Problem, DescRefusal>
    requires { length text.now ≤ description_limit }
    ensures { Gives instance_of result (read_of text.now) }
{
    let (problem, _) = read_description(alloc, text)?;
    Ok(problem)
}

/// The problem that a text of at most 4194304 bytes spells, in one pass over the text.
///
/// [`DescRefusal::Fault`] comes exactly where the text spells no problem, and names the first fault. [`DescRefusal::Memory`] is want of
/// memory.
pub fn read_problem(alloc: Global, text: &[u8]) -> Result<Problem, DescRefusal>
    requires { length text.now ≤ description_limit }

    // The answer is what the reading of the text gives: its problem, or its first fault.
    ensures exact { Gives instance_of result (read_of text.now) }

    // A problem that is read is spelled by the text, and one that is spelled is read.
    ensures found { IfOk result (λ problem. Spells text.now (instance_of problem)) }
    ensures only { (instance : Instance) → Spells text.now instance → Gives instance_of result (Ok instance) }

    // The problem is in range, and so its matroids are sound and on the elements that the weights are of.
    ensures valid { IfOk result (λ problem. IsValid (instance_of problem)) }
{
    problem_alone(alloc, text)
}
