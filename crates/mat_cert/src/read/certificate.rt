//! Reading an answer from its text.

ghost use Rattle.std.specs.Prelude.{◌≡◌, ◌≤◌, length, IfOk, Ok};
ghost use Rattle.mat_words.specs.{Cursors.{lines_left, words_left}, Reading.{Gives}};
ghost use Rattle.mat_cert.specs.{
  Certificates.{Certificate, IsRanged, certificate_text},
  Limits.{certificate_limit},
  Reading.{answer_of_command, answer_at, certificate_at, read_of},
  Views.{certificate_of},
};

use crate::answer::Answer;
use crate::read::Found;
use crate::read::ladders::{assign, best, intersect, rainbow};
use crate::read::lines::{closed, last_line, version_line};
use crate::read::packing::{cover, pack, union};
use crate::read::spanning::{arborescence, disjoint, trees};
use crate::refusal::{CertKind, CertRefusal};
use mat_words::{LineCursor, WordCursor, fault, keyed_line, next_word};
use std::alloc::Global;

/// The answer of the command that this word names, from the words behind it on.
#[tactic(auto, unfolding(crate::specs::Reading::answer_of_command))]
fn answer_to_command<'a>(
    alloc: Global,
    command: &[u8],
    words: WordCursor<'a>,
    lines: LineCursor<'a>,
) -> Found<'a>
    ensures { Gives (λ x. (certificate_of x.0, lines_left x.1)) result
        (answer_of_command command.now (words_left words.entry) (lines_left lines.entry)) }
{
    if command == b"intersect".as_slice() {
        intersect(alloc, words, lines)
    } else if command == b"best".as_slice() {
        best(alloc, words, lines)
    } else if command == b"union".as_slice() {
        union(alloc, words, lines)
    } else if command == b"pack".as_slice() {
        pack(alloc, words, lines)
    } else if command == b"cover".as_slice() {
        cover(alloc, words, lines)
    } else if command == b"trees".as_slice() {
        trees(alloc, words, lines)
    } else if command == b"arborescence".as_slice() {
        arborescence(alloc, words, lines)
    } else if command == b"disjoint".as_slice() {
        disjoint(alloc, words, lines)
    } else if command == b"rainbow".as_slice() {
        rainbow(alloc, words, lines)
    } else if command == b"assign".as_slice() {
        assign(alloc, words, lines)
    } else {
        Err(fault(CertKind::UnknownWord, words.line))
    }
}

/// The answer from its header line on.
#[tactic(auto, unfolding(crate::specs::Reading::answer_at))]
fn answer_lines<'a>(alloc: Global, lines: LineCursor<'a>) -> Found<'a>
    ensures { Gives (λ x. (certificate_of x.0, lines_left x.1)) result (answer_at (lines_left lines.entry)) }
{
    let (words, rest) = keyed_line(lines, b"answer")?;
    let (command, words) = next_word(words)?;
    answer_to_command(alloc, command, words, rest)
}

/// A whole certificate.
#[tactic(auto, unfolding(crate::specs::Reading::certificate_at))]
fn certificate(alloc: Global, lines: LineCursor<'_>) -> Result<Answer, CertRefusal>
    ensures { Gives certificate_of result (certificate_at (lines_left lines.entry)) }
{
    let lines = version_line(lines)?;
    let (answer, lines) = answer_lines(alloc, lines)?;
    let lines = last_line(lines)?;
    closed(lines)?;
    Ok(answer)
}

/// The answer that a text of at most 67108864 bytes spells, in one pass over the text.
///
/// [`CertRefusal::Fault`] comes exactly where the text spells no answer, and names the first fault. [`CertRefusal::Memory`] is want of
/// memory.
pub fn read_answer(alloc: Global, text: &[u8]) -> Result<Answer, CertRefusal>
    requires { length text.now ≤ certificate_limit }

    // The answer is what the reading of the text gives: its answer, or its first fault.
    ensures exact { Gives certificate_of result (read_of text.now) }

    // An answer that is read is in range and has this text, and where this is the text of a certificate in range, that one is read.
    ensures ranged { IfOk result (λ answer. IsRanged (certificate_of answer)) }
    ensures found { IfOk result (λ answer. text.now ≡ certificate_text (certificate_of answer)) }
    ensures only { (c : Certificate) → IsRanged c → text.now ≡ certificate_text c → Gives certificate_of result (Ok c) }
{
    certificate(alloc, LineCursor { line: 1, text })
}
