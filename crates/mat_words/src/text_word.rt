//! Words of a text, of any kind.

ghost use Rattle.std.specs.Prelude.{◌≡◌, ◌++◌, ◌∷◌, OnErr, OnOk, length, map, take};
ghost use Rattle.mat_words.specs.Writing.{spaced, text_word};

use crate::writing::{put_number_word, put_weight_word};
use mat_sets::Weight;
use std::alloc::AllocError;

/// A word of a text.
#[derive(Clone, Copy)]
pub enum TextWord<'a> {
    /// This word.
    Fixed(&'a [u8]),
    /// A number.
    Number(i128),
    /// A weight.
    Weight(Weight),
}

/// Appends a word, behind a space. After an AllocError the space may stand behind what `out` had.
pub fn put_text_word(out: &mut Vec<u8>, word: TextWord<'_>) -> Result<(), AllocError>
    ensures ok { OnOk result (out.new.items ≡ out.old.items ++ 32 ∷ text_word word.entry) }
    ensures err { OnErr result (take (length out.old.items) out.new.items ≡ out.old.items) }
{
    match word {
        TextWord::Fixed(bytes) => {
            out.push(b' ')?;
            out.extend_from_slice(bytes)?;
            Ok(())
        }
        TextWord::Number(number) => put_number_word(out, number),
        TextWord::Weight(weight) => put_weight_word(out, weight),
    }
}

/// Appends words, each behind a space. After an AllocError a part of them may stand behind what `out` had.
pub fn put_words(out: &mut Vec<u8>, words: &[TextWord<'_>]) -> Result<(), AllocError>
    ensures ok { OnOk result (out.new.items ≡ out.old.items ++ spaced (map text_word words.now)) }
    ensures err { OnErr result (take (length out.old.items) out.new.items ≡ out.old.items) }
{
    for word in words {
        put_text_word(out, *word)?;
    }
    Ok(())
}
