//! The top call.

ghost use Rattle.std.specs.Prelude.{◌≡◌, ◌≤◌, ◌<◌, ◌↔◌, ◌⊎◌, ℕ, List, map, string_bytes, IfOk, IfErr, Some, None};
ghost use Rattle.mat_shelf.specs.Faults.{Rose};
ghost use Rattle.mat_command.specs.{CommandLines.{command_line, asked_by}, Commands.{task_of}};
ghost use Rattle.mat_judge.specs.{Notes.{IsNoted}, Texts.{all_texts}};
ghost use Rattle.mat_top.specs.{
  Outcomes.{Tells, IsStatus, IsOutcome, IsWritten, CallReaches, IsNote},
  Refusals.{MayBeWritten, IsRefusal, IsPut, IsEnded},
};

use crate::about::text_about;
use crate::batch::batch_texts;
use crate::convert::converted_text;
use crate::workers::TopWorkers;
use mat_command::{Command, CommandLine, command_line};
use mat_judge::{Refusal, Status, put_note, put_texts};
use mat_shelf::{Shelf, Sink};
use mat_summary::sample_text;
use std::alloc::{AllocError, Global};

// One text, as the only one.
fn alone(alloc: Global, text: Vec<u8>) -> Result<Vec<Vec<u8>>, AllocError>
    ensures { IfOk result (λ v. all_texts v.items ≡ text.items) }
{
    Ok(vec![in alloc; text]?)
}

// What the command writes: texts, one after the other.
fn texts_for<R: TopWorkers, F: Shelf>(
    rt: &R,
    alloc: Global,
    files: &mut F,
    line: &CommandLine<'_>,
) -> Result<Vec<Vec<u8>>, Refusal>
    requires shared { R.shared rt.now }
    ensures held { (name : List ℕ) → F.held files.new name ≡ F.held files.old name }
    ensures grows { (name : List ℕ) → F.faults files.old name ≤ F.faults files.new name }
    ensures text { IfOk result (λ v. MayBeWritten (F.held files.old) (task_of line.now.command) (all_texts v.items)) }
    ensures refusal { IfErr result (λ e. IsRefusal (F.held files.old) (task_of line.now.command) (F.faults files.old) (F.faults files.new) e) }
{
    let text = match line.command {
        Command::About { file, request } => {
            text_about(rt, alloc, files, file, request, line.workers)?
        }
        Command::Sample { kind, size, seed } => {
            sample_text(rt, alloc, kind, size, seed, line.workers)?
        }
        Command::Batch { list } => return batch_texts(rt, alloc, files, list, line.workers),
        Command::Convert { file } => converted_text(alloc, files, file)?,
    };
    Ok(alone(alloc, text)?)
}

// Writes texts one after the other, and tells how that ended.
fn written<O: Sink>(out: &mut O, texts: &[Vec<u8>]) -> Result<(), Refusal>
    ensures grows { O.faults out.old ≤ O.faults out.new }
    ensures put { IsPut (all_texts texts.now) (O.written out.old) (O.faults out.old) (O.written out.new) (O.faults out.new) result }
{
    put_texts(out, texts).map_err(|_failed| Refusal::WriteFault)
}

// Does what the command says, and tells how that ended.
fn perform<R: TopWorkers, F: Shelf, O: Sink>(
    rt: &R,
    alloc: Global,
    files: &mut F,
    out: &mut O,
    line: &CommandLine<'_>,
) -> Result<(), Refusal>
    requires shared { R.shared rt.now }
    ensures held { (name : List ℕ) → F.held files.new name ≡ F.held files.old name }
    ensures grows { (name : List ℕ) → F.faults files.old name ≤ F.faults files.new name }
    ensures out_grows { O.faults out.old ≤ O.faults out.new }
    ensures ended { IsEnded (F.held files.old) (task_of line.now.command) (F.faults files.old) (F.faults files.new)
        (O.written out.old) (O.faults out.old) (O.written out.new) (O.faults out.new) result }
{
    let texts = texts_for(rt, alloc, files, line)?;
    written(out, &texts)
}

/// Does what the words ask for: reads its files from the shelf, writes the answer to `out` and, where it is refused, a note to
/// `notes`, and returns how it ended. The words are those after the program's name. They may name a number of workers, from 1 to 16, which
/// `rt` starts to share the work on an answer or the jobs of a list; [`OneWorker`](crate::OneWorker) starts none. No clause speaks of threads
/// or of that number: what is promised holds for each.
///
/// Usage comes exactly where the words are no command, ReadFault only where the shelf's count of faults rose for a file of the call, and
/// WriteFault only where the count of `out` rose. Where the shelf tells the files, each other status but Memory is the one of the
/// table in docs/PROOFS.md: TooLong, BadList, BadDescription, BadCertificate, WrongShape, BadCost, Unwitnessed, BadWitness, No or
/// Done. Nothing is written to `out` but on Done, when it is the whole answer, and on WriteFault, when it is a proper prefix of it.
pub fn run<R: TopWorkers, F: Shelf, O: Sink, N: Sink>(
    rt: &R,
    alloc: Global,
    words: &[String],
    files: &mut F,
    out: &mut O,
    notes: &mut N,
) -> Status
    // `rt` may be shared with other threads. This holds of every runtime, and of a worker that starts no thread.
    requires shared { R.shared rt.now }

    // What the shelf holds is unchanged, and no count falls.
    ensures held { (name : List ℕ) → F.held files.new name ≡ F.held files.old name }
    ensures grows { (name : List ℕ) → F.faults files.old name ≤ F.faults files.new name }
    ensures out_grows { O.faults out.old ≤ O.faults out.new }

    // Usage comes exactly where the words are no command.
    ensures usage { (result ≡ Status.Usage) ↔ (command_line (map string_bytes words.now) ≡ None) }
    ensures unopened { result ≡ Status.Usage → files.new ≡ files.old }

    // Faults have a cause: a count that rose.
    ensures read_fault { result ≡ Status.ReadFault
        → (name : List ℕ) × CallReaches (F.held files.old) (asked_by (map string_bytes words.now)) name
        × Rose (F.faults files.old name) (F.faults files.new name) }
    ensures write_fault { result ≡ Status.WriteFault → Rose (O.faults out.old) (O.faults out.new) }

    // Where the files are told, the status is that of the outcome.
    ensures status { Tells (F.held files.old) (asked_by (map string_bytes words.now))
        → IsStatus (F.held files.old) (asked_by (map string_bytes words.now)) result }

    // The answer is written whole, or a proper prefix of it, or nothing.
    ensures written { IsWritten (F.held files.old) (asked_by (map string_bytes words.now)) (O.written out.old) (O.written out.new) result }

    // The note of the status is written, or a prefix of it where the sink fails.
    ensures noted { (note : List ℕ) × IsNote (F.held files.old) (asked_by (map string_bytes words.now)) result note
        × IsNoted note (N.written notes.old) (N.faults notes.old) (N.written notes.new) (N.faults notes.new) }

    // Where the files are told and no count rose, the outcome is reached, or memory ran out.
    ensures complete { Tells (F.held files.old) (asked_by (map string_bytes words.now))
        → ((name : List ℕ) → CallReaches (F.held files.old) (asked_by (map string_bytes words.now)) name
        → ¬ (Rose (F.faults files.old name) (F.faults files.new name)))
        → ¬ (Rose (O.faults out.old) (O.faults out.new))
        → IsOutcome (F.held files.old) (asked_by (map string_bytes words.now)) result ⊎ (result ≡ Status.Memory) }
{
    let Some(line) = command_line(words) else {
        put_note(notes, Refusal::Usage);
        return Status::Usage;
    };
    match perform(rt, alloc, files, out, &line) {
        Ok(()) => Status::Done,
        Err(refusal) => {
            put_note(notes, refusal);
            refusal.status()
        }
    }
}
