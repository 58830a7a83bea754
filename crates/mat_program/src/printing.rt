//! Printing a text.

ghost use Rattle.std.specs.Prelude.{◌≤◌, OnOk, OnErr};
ghost use Rattle.mat_shelf.specs.{Faults.{Rose}, Writing.{Appended, AppendedProperPrefix}};
ghost use Rattle.mat_program.specs.{Ends.{IsPrinted}, Traces.{sink_trace}};

use mat_shelf::{Failed, Sink};
use mat_top::Status;

// Writes all of a text, or a proper prefix of it where the sink fails.
fn put_all<O: Sink>(out: &mut O, text: &[u8]) -> Result<(), Failed>
    ensures grows { O.faults out.old ≤ O.faults out.new }
    ensures ok { OnOk result (Appended (O.written out.old) text.now (O.written out.new)) }
    ensures err { OnErr result (AppendedProperPrefix (O.written out.old) text.now (O.written out.new)) }
    ensures cause { OnErr result (Rose (O.faults out.old) (O.faults out.new)) }
{
    let mut at = 0;
    while at < text.len() {
        at += out.put(&text[at..])?;
    }
    Ok(())
}

/// Prints a text, and answers how that ended. It takes no memory.
pub(crate) fn print_text<O: Sink>(out: &mut O, text: &str) -> Status
    ensures grows { O.faults out.old ≤ O.faults out.new }
    ensures printed { IsPrinted text.now (sink_trace (O.written out.old) (O.faults out.old) (O.written out.new) (O.faults out.new)) result }
{
    match put_all(out, text.as_bytes()) {
        Ok(()) => Status::Done,
        Err(_) => Status::WriteFault,
    }
}
