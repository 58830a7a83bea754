//! Writing a whole text.

ghost use Rattle.std.specs.Prelude.{◌≤◌, OnOk, OnErr};
ghost use Rattle.mat_shelf.specs.{Faults.{Rose}, Writing.{Appended, AppendedProperPrefix}};
ghost use Rattle.mat_judge.specs.Texts.{all_texts};

use mat_shelf::{Failed, Sink};

/// Writes all of a text, or a proper prefix of it where the sink fails. It takes no memory.
pub(crate) fn put_all<O: Sink>(sink: &mut O, text: &[u8]) -> Result<(), Failed>
    ensures grows { O.faults sink.old ≤ O.faults sink.new }
    ensures ok { OnOk result (Appended (O.written sink.old) text.now (O.written sink.new)) }
    ensures err { OnErr result (AppendedProperPrefix (O.written sink.old) text.now (O.written sink.new)) }
    ensures cause { OnErr result (Rose (O.faults sink.old) (O.faults sink.new)) }
{
    let mut at = 0;
    while at < text.len() {
        at += sink.put(&text[at..])?;
    }
    Ok(())
}

/// Writes all of some texts one after the other, or a proper prefix of them where the sink fails. It takes no memory.
pub fn put_texts<O: Sink>(sink: &mut O, texts: &[Vec<u8>]) -> Result<(), Failed>
    ensures grows { O.faults sink.old ≤ O.faults sink.new }
    ensures ok { OnOk result (Appended (O.written sink.old) (all_texts texts.now) (O.written sink.new)) }
    ensures err { OnErr result (AppendedProperPrefix (O.written sink.old) (all_texts texts.now) (O.written sink.new)) }
    ensures cause { OnErr result (Rose (O.faults sink.old) (O.faults sink.new)) }
{
    for text in texts {
        put_all(sink, text)?;
    }
    Ok(())
}
