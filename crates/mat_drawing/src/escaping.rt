//! Words in markup.

ghost use Rattle.std.specs.{Prelude.{◌≡◌, ◌++◌, ℕ, List, true, OnOk, IfOk, map}, List.{list_all}};
ghost use Rattle.mat_drawing.specs.{Escaping.{entity, escaped, is_plain}, Markup.{IsMarkup}, Names.{printed}};

use std::alloc::{AllocError, Global};
use std::fmt::Display;

// The byte where it is a line feed, a space or a graphic one, and otherwise a question mark.
fn printed_byte(b: u8) -> u8
    ensures { result ≡ printed b }
{
    if b == b'\n' || b == b' ' || b.is_ascii_graphic() {
        b
    } else {
        b'?'
    }
}

// Appends a byte of words, as an entity where markup gives it a meaning.
fn put_byte(out: &mut Vec<u8>, b: u8) -> Result<(), AllocError>
    ensures { OnOk result (out.new.items ≡ out.old.items ++ entity b) }
{
    match b {
        b'&' => out.extend_from_slice(b"&amp;"),
        b'<' => out.extend_from_slice(b"&lt;"),
        b'>' => out.extend_from_slice(b"&gt;"),
        b'"' => out.extend_from_slice(b"&quot;"),
        other => {
            out.push(other)?;
            Ok(())
        }
    }
}

/// Appends words, with a question mark for each byte that may not be printed and an entity for each that markup gives a meaning. The only
/// error is want of memory.
pub(crate) fn put_escaped(out: &mut Vec<u8>, words: &[u8]) -> Result<(), AllocError>
    ensures { OnOk result (out.new.items ≡ out.old.items ++ escaped (map printed words.now)) }
{
    for b in words {
        put_byte(out, printed_byte(*b))?;
    }
    Ok(())
}

/// Words as markup. The only error is want of memory.
pub(crate) fn words_of<W: Display + Drop>(alloc: Global, words: W) -> Result<Vec<u8>, AllocError>
    ensures { IfOk result (λ markup. IsMarkup markup.items) }
{
    let words = words.to_string(alloc)?;
    let mut markup = Vec::new(alloc);
    put_escaped(&mut markup, words.as_bytes())?;
    Ok(markup)
}

/// Escaped words have none of the bytes `<`, `>` and `"`.
pub fn escaping_laws()
    ensures { (words : List ℕ) → list_all is_plain (escaped words) ≡ true }
{}
