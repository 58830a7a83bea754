//! What the program ends with.

ghost use Rattle.std.specs.Prelude.{◌≡◌, ◌≤◌, ℕ, List, map, string_bytes, IfOk, OnErr};
ghost use Rattle.std.specs.Process.{exit_status};
ghost use Rattle.mat_judge.specs.Statuses.{status_number};
ghost use Rattle.mat_program.specs.{
  Tasks.{program_task, print},
  Traces.{shelf_trace, sink_trace},
  Ends.{IsEndedBy, IsEndedOverStreams},
};

use crate::program::perform;
use crate::tasks::Texts;
use mat_judge::{Refusal, Unread, put_note};
use mat_shelf::{FileShelf, Shelf, Sink, StreamSink};
use mat_top::{Status, TopWorkers};
use std::alloc::{AllocError, Global};
use std::io::{Input, Write};
use std::process::ExitCode;
use std::rt::Files;

/// Does what the words after the program's name ask for, as [`perform`], and answers what the program ends with: the number of the status.
pub fn perform_end<R: TopWorkers, F: Shelf, O: Sink, N: Sink>(
    rt: &R,
    alloc: Global,
    texts: &Texts<'_>,
    words: &[String],
    files: &mut F,
    out: &mut O,
    notes: &mut N,
) -> ExitCode
    // `rt` may be shared with other threads. This holds of every runtime, and of a worker that starts no thread.
    requires shared { R.shared rt.now }

    // What the shelf holds is unchanged, and no count falls.
    ensures held { (name : List ℕ) → F.held files.new name ≡ F.held files.old name }
    ensures grows { (name : List ℕ) → F.faults files.old name ≤ F.faults files.new name }
    ensures out_grows { O.faults out.old ≤ O.faults out.new }

    // No file is opened where the words are no command, and where they ask for a text; nor is a note written there.
    ensures unopened { exit_status result ≡ status_number Status.Usage → files.new ≡ files.old }
    ensures text_alone { (text : List ℕ) → program_task texts.now.help.now texts.now.version.now (map string_bytes words.now) ≡ print text
        → (files.new ≡ files.old) × (notes.new ≡ notes.old) }

    // What the words ask for is done, and the end is the number of its status.
    ensures ended { IsEndedBy (program_task texts.now.help.now texts.now.version.now (map string_bytes words.now))
        (shelf_trace (F.held files.old) (F.faults files.old) (F.faults files.new))
        (sink_trace (O.written out.old) (O.faults out.old) (O.written out.new) (O.faults out.new))
        (sink_trace (N.written notes.old) (N.faults notes.old) (N.written notes.new) (N.faults notes.new)) (exit_status result) }
{
    let status = perform(rt, alloc, texts, words, files, out, notes);
    ExitCode::from(status.number())
}

/// Does what the words after the program's name ask for, as [`perform`], over the files of a host and two writers, and answers what the program
/// ends with. Where memory did not suffice for the words, that is refused.
///
/// No clause says what files hold, nor what writers take, so the contract is on the number alone.
pub fn end_over_streams<R: TopWorkers, H: Files + Input, O: Write + Drop, N: Write + Drop>(
    rt: &R,
    alloc: Global,
    texts: &Texts<'_>,
    words: Result<Vec<String>, AllocError>,
    host: &H,
    out: O,
    notes: N,
) -> ExitCode
    // `rt` may be shared with other threads. This holds of every runtime, and of a worker that starts no thread.
    requires shared { R.shared rt.now }

    ensures ended { IfOk words (λ v. IsEndedOverStreams (program_task texts.now.help.now texts.now.version.now (map string_bytes v.items))
        (exit_status result)) }
    ensures no_memory { OnErr words (exit_status result ≡ status_number Status.Memory) }
{
    let mut out = StreamSink::new(out);
    let mut notes = StreamSink::new(notes);
    let Ok(words) = words else {
        put_note(&mut notes, Refusal::Unread(Unread::Memory));
        return ExitCode::from(Status::Memory.number());
    };
    let mut files = FileShelf::new(host);
    perform_end(rt, alloc, texts, &words, &mut files, &mut out, &mut notes)
}

/// Does what the words after the program's name ask for, as [`perform`], over the real files, and answers what the program ends with: the answer
/// goes to standard output, and a note to standard error. Where memory did not suffice for the words, that is refused.
pub fn end_on_host<R: TopWorkers>(
    rt: &R,
    host: &HostRuntime,
    texts: &Texts<'_>,
    words: Result<Vec<String>, AllocError>,
) -> ExitCode
    // `rt` may be shared with other threads. This holds of every runtime, and of a worker that starts no thread.
    requires shared { R.shared rt.now }

    ensures ended { IfOk words (λ v. IsEndedOverStreams (program_task texts.now.help.now texts.now.version.now (map string_bytes v.items))
        (exit_status result)) }
    ensures no_memory { OnErr words (exit_status result ≡ status_number Status.Memory) }
{
    end_over_streams(
        rt,
        host.alloc(),
        texts,
        words,
        host,
        host.stdout(),
        host.stderr(),
    )
}
