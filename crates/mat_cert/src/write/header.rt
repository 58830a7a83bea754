//! The first lines and the last of a text.

ghost use Rattle.std.specs.Prelude.{◌≡◌, ◌++◌, ◌∷◌, [], codes, map, IfOk, OnErr, OnOk};
ghost use Rattle.mat_words.specs.{Lines.{text_of}, Writing.{end_line, text_word}};
ghost use Rattle.mat_cert.specs.Certificates.{version_line};

use mat_words::{TextWord, put_words};
use std::alloc::{AllocError, Global};

/// A text that begins with the version and a header of these words.
pub(crate) fn begun(alloc: Global, words: &[TextWord<'_>]) -> Result<Vec<u8>, AllocError>
    ensures { IfOk result (λ v. v.items ≡ text_of (version_line ∷ (codes "answer" ∷ map text_word words.now) ∷ [])) }
{
    let mut out = b"certificate 1\nanswer".to_vec(alloc)?;
    put_words(&mut out, words)?;
    out.push(b'\n')?;
    Ok(out)
}

/// Appends the last line: the word `end` alone. After an AllocError `out` is as before.
pub fn put_end_line(out: &mut Vec<u8>) -> Result<(), AllocError>
    ensures ok { OnOk result (out.new.items ≡ out.old.items ++ text_of (end_line ∷ [])) }
    ensures err { OnErr result (out.new.items ≡ out.old.items) }
{
    out.extend_from_slice(b"end\n")?;
    Ok(())
}
