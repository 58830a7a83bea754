//! Filling lines with words.

ghost use Rattle.std.specs.Prelude.{◌≡◌, ◌≤◌, ◌<◌, true, length, take, IfSome, OnOk};
ghost use Rattle.mat_text.specs.Texts.{is_text_byte, IsPrintable};

use std::alloc::AllocError;

// Whether a byte stands in words: it is printable, and no space.
fn is_in_word(b: u8) -> bool
    ensures { result ≡ true → is_text_byte b ≡ true }
{
    b.is_ascii_graphic()
}

// How many bytes in front of its first word a text has.
fn gap(text: &[u8]) -> usize
    ensures { result ≤ length text.now }
{
    for i in 0..text.len() {
        if is_in_word(text[i]) {
            return i;
        }
    }
    text.len()
}

// How many bytes at the front of a text stand in one word.
#[tactic(auto, using(std::proofs::lemmas::List::Folds::list_all_more))]
fn run(text: &[u8]) -> usize
    ensures within { result ≤ length text.now }
    ensures printable { IsPrintable (take result text.now) }
{
    for i in 0..text.len() {
        if !is_in_word(text[i]) {
            return i;
        }
    }
    text.len()
}

// The next word of a text, and what stands behind it: None where there is none.
fn next_word(text: &[u8]) -> Option<(&[u8], &[u8])>
    ensures printable { IfSome result (λ x. IsPrintable x.0.now) }
    ensures shorter { IfSome result (λ x. length x.1.now < length text.now) }
{
    let from = &text[gap(text)..];
    let length = run(from);
    if length == 0 {
        return None;
    }
    Some((&from[..length], &from[length..]))
}

// Appends the first word of a line behind so many spaces, and gives how many of at most so many bytes are left of the line.
fn put_first_word(
    out: &mut Vec<u8>,
    indentation: usize,
    word: &[u8],
    most: usize,
) -> Result<usize, AllocError>
    requires before { IsPrintable out.old.items }
    requires word { IsPrintable word.now }
    ensures { OnOk result (IsPrintable out.new.items) }
{
    for _i in 0..indentation {
        out.push(b' ')?;
    }
    out.extend_from_slice(word)?;
    Ok(most.saturating_sub(indentation).saturating_sub(word.len()))
}

// Appends another word of a line.
fn put_next_word(out: &mut Vec<u8>, word: &[u8]) -> Result<(), AllocError>
    requires before { IsPrintable out.old.items }
    requires word { IsPrintable word.now }
    ensures { OnOk result (IsPrintable out.new.items) }
{
    out.push(b' ')?;
    out.extend_from_slice(word)?;
    Ok(())
}

// Ends a line.
fn end_line(out: &mut Vec<u8>) -> Result<(), AllocError>
    requires { IsPrintable out.old.items }
    ensures { OnOk result (IsPrintable out.new.items) }
{
    out.push(b'\n')?;
    Ok(())
}

/// Appends the lines of a paragraph. Its words, which are printable and have no space, get one space between them; a word that would make its line
/// longer than `most` bytes begins a new line, which is indented by two more. A paragraph of no words has no line. The only error is want of
/// memory.
pub(crate) fn put_paragraph(
    out: &mut Vec<u8>,
    indentation: usize,
    paragraph: &[u8],
    most: usize,
) -> Result<(), AllocError>
    requires { IsPrintable out.old.items }
    ensures { OnOk result (IsPrintable out.new.items) }
{
    let Some((first, rest)) = next_word(paragraph) else {
        return Ok(());
    };
    let mut room = put_first_word(out, indentation, first, most)?;
    let mut left = rest;
    while let Some((word, behind)) = next_word(left) {
        if word.len() < room {
            put_next_word(out, word)?;
            room -= word.len() + 1;
        } else {
            end_line(out)?;
            room = put_first_word(out, indentation.saturating_add(2), word, most)?;
        }
        left = behind;
    }
    end_line(out)
}
