//! The words of a line, as texts.

ghost use Rattle.std.specs.Prelude.{◌≡◌, map, string_bytes, IfOk, IsTrue};
ghost use Rattle.mat_words.specs.Words.{is_word, is_well_spaced, words_of};
ghost use Rattle.mat_call.specs.LineWords.{line_words};

use mat_words::{split_word, well_spaced};
use std::alloc::{AllocError, Global};

// A word as text.
fn word_text(word: &[u8]) -> &str
    requires { IsTrue (is_word word.now) }
    ensures { result.now ≡ word.now }
{
    match str::from_utf8(word) {
        Ok(text) => text,
        Err(_) => unreachable!(),
    }
}

// The words of a well spaced line.
fn words_of(alloc: Global, line: &[u8]) -> Result<Vec<String>, AllocError>
    requires { IsTrue (is_well_spaced line.now) }
    ensures { IfOk result (λ v. map string_bytes v.items ≡ words_of line.now) }
{
    let mut texts = Vec::new(alloc);
    if line.is_empty() {
        return Ok(texts);
    }
    let mut left = Some(line);
    while let Some(bytes) = left {
        let (word, behind) = split_word(bytes);
        texts.push(word_text(word).to_string(alloc)?)?;
        left = behind;
    }
    Ok(texts)
}

/// The words of a line that is well spaced, and none of any other. The only error is want of memory.
pub fn line_words(alloc: Global, line: &[u8]) -> Result<Vec<String>, AllocError>
    ensures { IfOk result (λ v. map string_bytes v.items ≡ line_words line.now) }
{
    if well_spaced(line) {
        words_of(alloc, line)
    } else {
        Ok(Vec::new(alloc))
    }
}
