//! What the program does with its words.

ghost use Rattle.std.specs.Prelude.{◌≡◌, ◌≤◌, ℕ, List, map, string_bytes};
ghost use Rattle.mat_report.specs.{Pictures.{is_picture}, TellsInWords.{tells_in_words}};
ghost use Rattle.mat_program.specs.{
  Tasks.{program_task, print},
  Traces.{shelf_trace, sink_trace},
  Ends.{IsReported, IsCalled, IsPerformed},
};

use crate::printing::print_text;
use crate::tasks::{ProgramTask, Texts, program_task};
use mat_report::{AnswerText, AsPicture, InWords, report};
use mat_shelf::{Shelf, Sink};
use mat_top::{Status, TopWorkers, run};
use std::alloc::Global;

// Reports on the answer of a certificate.
fn reported<T: AnswerText, R: TopWorkers, F: Shelf, O: Sink, N: Sink>(
    reporter: &T,
    rt: &R,
    alloc: Global,
    description: &str,
    certificate: &str,
    files: &mut F,
    out: &mut O,
    notes: &mut N,
) -> Status
    requires shared { R.shared rt.now }
    ensures held { (name : List ℕ) → F.held files.new name ≡ F.held files.old name }
    ensures grows { (name : List ℕ) → F.faults files.old name ≤ F.faults files.new name }
    ensures out_grows { O.faults out.old ≤ O.faults out.new }
    ensures reported { IsReported T.says description.now certificate.now
        (shelf_trace (F.held files.old) (F.faults files.old) (F.faults files.new))
        (sink_trace (O.written out.old) (O.faults out.old) (O.written out.new) (O.faults out.new))
        (sink_trace (N.written notes.old) (N.faults notes.old) (N.written notes.new) (N.faults notes.new)) result }
{
    report(
        reporter,
        rt,
        alloc,
        description,
        certificate,
        files,
        out,
        notes,
    )
}

// The top call.
fn called<R: TopWorkers, F: Shelf, O: Sink, N: Sink>(
    rt: &R,
    alloc: Global,
    words: &[String],
    files: &mut F,
    out: &mut O,
    notes: &mut N,
) -> Status
    requires shared { R.shared rt.now }
    ensures held { (name : List ℕ) → F.held files.new name ≡ F.held files.old name }
    ensures grows { (name : List ℕ) → F.faults files.old name ≤ F.faults files.new name }
    ensures out_grows { O.faults out.old ≤ O.faults out.new }
    ensures unopened { result ≡ Status.Usage → files.new ≡ files.old }
    ensures called { IsCalled (map string_bytes words.now)
        (shelf_trace (F.held files.old) (F.faults files.old) (F.faults files.new))
        (sink_trace (O.written out.old) (O.faults out.old) (O.written out.new) (O.faults out.new))
        (sink_trace (N.written notes.old) (N.faults notes.old) (N.written notes.new) (N.faults notes.new)) result }
{
    run(rt, alloc, words, files, out, notes)
}

/// Does what the words after the program's name ask for, and answers how that ended: `--help` and `--version` alone print a text to `out`,
/// `--tell` and `--picture` before two names report on the answer of a certificate, in words or as a picture, and all other words are those of
/// the top call, [`run`]. The number of the status is the one that the program ends with.
///
/// A text is printed whole, or a proper prefix of it where `out` fails, and then the status is WriteFault, without a note. A report and the top
/// call end as their contracts say.
pub fn perform<R: TopWorkers, F: Shelf, O: Sink, N: Sink>(
    rt: &R,
    alloc: Global,
    texts: &Texts<'_>,
    words: &[String],
    files: &mut F,
    out: &mut O,
    notes: &mut N,
) -> Status
    // `rt` may be shared with other threads. This holds of every runtime, and of a worker that starts no thread.
    requires shared { R.shared rt.now }

    // What the shelf holds is unchanged, and no count falls.
    ensures held { (name : List ℕ) → F.held files.new name ≡ F.held files.old name }
    ensures grows { (name : List ℕ) → F.faults files.old name ≤ F.faults files.new name }
    ensures out_grows { O.faults out.old ≤ O.faults out.new }

    // No file is opened where the words are no command, and where they ask for a text; nor is a note written there.
    ensures unopened { result ≡ Status.Usage → files.new ≡ files.old }
    ensures text_alone { (text : List ℕ) → program_task texts.now.help.now texts.now.version.now (map string_bytes words.now) ≡ print text
        → (files.new ≡ files.old) × (notes.new ≡ notes.old) }

    // What the words ask for is done.
    ensures performed { IsPerformed (program_task texts.now.help.now texts.now.version.now (map string_bytes words.now))
        (shelf_trace (F.held files.old) (F.faults files.old) (F.faults files.new))
        (sink_trace (O.written out.old) (O.faults out.old) (O.written out.new) (O.faults out.new))
        (sink_trace (N.written notes.old) (N.faults notes.old) (N.written notes.new) (N.faults notes.new)) result }
{
    match program_task(texts, words) {
        ProgramTask::Print(text) => print_text(out, text),
        ProgramTask::Tell(description, certificate) => reported(
            &InWords,
            rt,
            alloc,
            description,
            certificate,
            files,
            out,
            notes,
        ),
        ProgramTask::Draw(description, certificate) => reported(
            &AsPicture,
            rt,
            alloc,
            description,
            certificate,
            files,
            out,
            notes,
        ),
        ProgramTask::Call(words) => called(rt, alloc, words, files, out, notes),
    }
}
