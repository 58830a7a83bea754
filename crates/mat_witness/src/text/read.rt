//! Reading a witness from its text.

ghost use Rattle.std.specs.Prelude.{◌≡◌, ◌<◌, ◌≤◌, true, length, map, IfOk, Ok};
ghost use Rattle.mat_words.specs.{Cursors.{lines_left}, Reading.{Gives}};
ghost use Rattle.mat_any.specs.Views.{tree_of};
ghost use Rattle.mat_cert.specs.{Certificates.{IsRanged}, Views.{certificate_of}};
ghost use Rattle.mat_problem.specs.{Validity.{IsValid, IsValidTree}, Views.{instance_of}};
ghost use Rattle.mat_witness.specs.{
  BoundRows.{row_at},
  Kinds.{has_rung, is_witnessed_pair},
  Lines.{witness_limit, witness_text},
  Parts.{WitnessParts},
  Reading.{bounds_at, parts_at, read_of, rung_line_at, version_at, witness_at},
  RungRanges.{AreRungRanges},
  Shown.{IsWitnessFor, bounded_trees},
  Views.{bound_part, witness_parts},
};

use super::read_parts::{free_lines, more_bounds};
use crate::bound_rows::bound_counts;
use crate::witness::{Most, Witness};
use mat_any::AnyMatroid;
use mat_cert::{
    Answer, CertKind, CertRefusal, PricedRung, closed, counted_line, fixed_word, last_line,
};
use mat_problem::Problem;
use mat_words::{LineCursor, fault, next_number};
use std::alloc::Global;

/// The first line, which names the version.
#[tactic(auto, unfolding(crate::specs::Reading::version_at))]
fn version_line<'a>(lines: LineCursor<'a>) -> Result<LineCursor<'a>, CertRefusal>
    ensures { Gives lines_left result (version_at (lines_left lines.entry)) }
{
    let (words, rest) = counted_line(lines, b"witness", 1)?;
    fixed_word(words, b"1")?;
    Ok(rest)
}

/// The line of rung k.
#[tactic(auto, unfolding(crate::specs::Reading::rung_line_at))]
fn rung_line<'a>(lines: LineCursor<'a>, k: u32) -> Result<LineCursor<'a>, CertRefusal>
    ensures { Gives lines_left result (rung_line_at k (lines_left lines.entry)) }
{
    let (words, rest) = counted_line(lines, b"rung", 1)?;
    next_number(words, i128::from(k), i128::from(k))?;
    Ok(rest)
}

/// So many bounds in the first of two matroids on `count` elements, so many in the second, and then one in each.
#[tactic(auto, unfolding(crate::specs::BoundRows::row_at))]
fn bounds_in_row<'a>(
    alloc: Global,
    lines: LineCursor<'a>,
    count: u32,
    first: &AnyMatroid,
    second: &AnyMatroid,
    firsts: usize,
    seconds: usize,
) -> Result<(Vec<Most>, LineCursor<'a>), CertRefusal>
    requires first { IsValidTree count (tree_of first.now) }
    requires second { IsValidTree count (tree_of second.now) }
    ensures { Gives (λ x. (map bound_part x.0.items, lines_left x.1)) result
        (row_at count (tree_of first.now) (tree_of second.now) firsts seconds (lines_left lines.entry)) }
{
    let (bounds, lines) = more_bounds(alloc, Vec::new(alloc), lines, count, first, firsts)?;
    let (bounds, lines) = more_bounds(alloc, bounds, lines, count, second, seconds)?;
    let (bounds, lines) = more_bounds(alloc, bounds, lines, count, first, 1)?;
    more_bounds(alloc, bounds, lines, count, second, 1)
}

/// The bounds of rung k: one for each demand of its halves, and then two for the cut.
fn rung_bounds<'a>(
    alloc: Global,
    lines: LineCursor<'a>,
    count: u32,
    first: &AnyMatroid,
    second: &AnyMatroid,
    k: u32,
    rung: &PricedRung,
) -> Result<(Vec<Most>, LineCursor<'a>), CertRefusal>
    requires { AreRungRanges count k (tree_of first.now) (tree_of second.now) rung.now }
    ensures { Gives (λ x. (map bound_part x.0.items, lines_left x.1)) result
        (bounds_at count (bounded_trees (tree_of first.now) (tree_of second.now) k rung.now) (lines_left lines.entry)) }
{
    let (firsts, seconds) = bound_counts(alloc, k, rung)?;
    bounds_in_row(alloc, lines, count, first, second, firsts, seconds)
}

/// The parts of a witness for rung k, behind its first two lines.
#[tactic(auto, unfolding(crate::specs::Reading::parts_at))]
fn part_lines<'a>(
    alloc: Global,
    lines: LineCursor<'a>,
    count: u32,
    first: &AnyMatroid,
    second: &AnyMatroid,
    k: u32,
    rung: &PricedRung,
) -> Result<(Witness, LineCursor<'a>), CertRefusal>
    requires { AreRungRanges count k (tree_of first.now) (tree_of second.now) rung.now }
    ensures { Gives (λ x. (witness_parts x.0, lines_left x.1)) result (parts_at count (tree_of first.now) (tree_of second.now)
        (bounded_trees (tree_of first.now) (tree_of second.now) k rung.now) k (lines_left lines.entry)) }
{
    let (first_part, lines) = free_lines(alloc, lines, count, k, first)?;
    let (second_part, lines) = free_lines(alloc, lines, count, k, second)?;
    let (bounds, lines) = rung_bounds(alloc, lines, count, first, second, k, rung)?;
    let witness = Witness {
        k,
        first: first_part,
        second: second_part,
        bounds,
    };
    Ok((witness, lines))
}

/// A whole witness for rung k.
#[tactic(auto, unfolding(crate::specs::Reading::witness_at))]
fn witness_lines(
    alloc: Global,
    lines: LineCursor<'_>,
    count: u32,
    first: &AnyMatroid,
    second: &AnyMatroid,
    k: u32,
    rung: &PricedRung,
) -> Result<Witness, CertRefusal>
    requires { AreRungRanges count k (tree_of first.now) (tree_of second.now) rung.now }
    ensures { Gives witness_parts result (witness_at count (tree_of first.now) (tree_of second.now)
        (bounded_trees (tree_of first.now) (tree_of second.now) k rung.now) k (lines_left lines.entry)) }
{
    let lines = version_line(lines)?;
    let lines = rung_line(lines, k)?;
    let (witness, lines) = part_lines(alloc, lines, count, first, second, k, rung)?;
    let lines = last_line(lines)?;
    closed(lines)?;
    Ok(witness)
}

/// A whole witness for rung k of an answer to a problem.
#[tactic(auto, unfolding(crate::specs::Reading::read_of))]
fn witness_of(
    alloc: Global,
    text: &[u8],
    problem: &Problem,
    answer: &Answer,
    k: u32,
) -> Result<Witness, CertRefusal>
    requires valid { IsValid (instance_of problem.now) }
    requires ranged { IsRanged (certificate_of answer.now) }
    requires rung { has_rung (certificate_of answer.now) k ≡ true }
    requires text { length text.now ≤ witness_limit }
    ensures { Gives witness_parts result (read_of (instance_of problem.now) (certificate_of answer.now) k text.now) }
{
    match (problem, answer) {
        (
            Problem::Pair {
                weights,
                first,
                second,
            },
            Answer::Intersect { rungs, .. },
        ) => {
            let count = weights.len() as u32;
            let rung = &rungs[k as usize];
            let lines = LineCursor { line: 1, text };
            witness_lines(alloc, lines, count, first, second, k, rung)
        }
        _ => Err(fault(CertKind::EndsEarly, 1)),
    }
}

/// The witness for rung k of an answer to a problem that a text of at most 67108864 bytes spells, in one pass over the text.
///
/// [`CertRefusal::Fault`] comes exactly where the text spells no witness of the kinds, the number and the lengths that are needed, and names
/// the first fault. [`CertRefusal::Memory`] is want of memory.
pub fn read_witness(
    alloc: Global,
    text: &[u8],
    problem: &Problem,
    answer: &Answer,
    k: u32,
) -> Result<Witness, CertRefusal>
    requires valid { IsValid (instance_of problem.now) }
    requires witnessed { is_witnessed_pair (instance_of problem.now) ≡ true }
    requires ranged { IsRanged (certificate_of answer.now) }
    requires rung { has_rung (certificate_of answer.now) k ≡ true }
    requires text { length text.now ≤ witness_limit }

    // The witness is what the reading of the text gives: its parts, or its first fault.
    ensures exact { Gives witness_parts result (read_of (instance_of problem.now) (certificate_of answer.now) k text.now) }

    // A witness that is read is one for the rung and has this text, and where this is the text of such a witness, that one is read.
    ensures fits { IfOk result (λ w. IsWitnessFor (instance_of problem.now) (certificate_of answer.now) k (witness_parts w)) }
    ensures found { IfOk result (λ w. text.now ≡ witness_text (instance_of problem.now) (certificate_of answer.now) k (witness_parts w)) }
    ensures only { (parts : WitnessParts) → IsWitnessFor (instance_of problem.now) (certificate_of answer.now) k parts
        → text.now ≡ witness_text (instance_of problem.now) (certificate_of answer.now) k parts → Gives witness_parts result (Ok parts) }
{
    witness_of(alloc, text, problem, answer, k)
}
