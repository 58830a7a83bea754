//! A report: a description and a certificate are read and judged, and a text on a right answer is written.

ghost use Rattle.std.specs.Prelude.{◌≡◌, ◌≢◌, ◌≤◌, ◌<◌, ◌⊎◌, ℕ, List, IfOk, IfErr, Some};
ghost use Rattle.mat_shelf.specs.Faults.{Rose};
ghost use Rattle.mat_command.specs.CommandLines.{check};
ghost use Rattle.mat_problem.specs.{Validity.{IsValid}, Views.{instance_of}};
ghost use Rattle.mat_desc.specs.Views.{named_instance};
ghost use Rattle.mat_judge.specs.Notes.{IsNoted};
ghost use Rattle.mat_top.specs.{Outcomes.{Tells, IsStatus, IsOutcome, CallReaches, IsNote}, Refusals.{HasNoText, IsRefusal, IsPut}};
ghost use Rattle.mat_report.specs.{ReportEnds.{MayBeReported, IsReportEnded}, Reports.{check_of, IsAnswerReport, IsReportWritten}};

use crate::answer_text::AnswerText;
use mat_check::CheckWorkers;
use mat_judge::{Refusal, Status, named_in, put_note, put_texts, right_answer_in};
use mat_problem::Named;
use mat_shelf::{Shelf, Sink};
use std::alloc::Global;

// The text on the right answer to the problem that the certificate of this name has.
fn answer_text<T: AnswerText, R: CheckWorkers, F: Shelf>(
    reporter: &T,
    rt: &R,
    alloc: Global,
    files: &mut F,
    certificate: &str,
    named: &Named,
) -> Result<Vec<u8>, Refusal>
    requires shared { R.shared rt.now }
    requires valid { IsValid (instance_of named.now.problem) }
    ensures held { (name : List ℕ) → F.held files.new name ≡ F.held files.old name }
    ensures grows { (name : List ℕ) → F.faults files.old name ≤ F.faults files.new name }
    ensures text { IfOk result (λ v. IsAnswerReport T.says (F.held files.old certificate.now) (named_instance named.now) v.items) }
    ensures refusal { IfErr result (λ e. HasNoText (F.held files.old) (check certificate.now) (instance_of named.now.problem)
        (F.faults files.old) (F.faults files.new) e) }
{
    let answer = right_answer_in(rt, alloc, files, certificate, &named.problem, 1)?;
    let text = reporter.text(alloc, named, &answer);
    drop(answer);
    Ok(text?)
}

// The text on the right answer to the problem of the description that the certificate has.
fn report_text<T: AnswerText, R: CheckWorkers, F: Shelf>(
    reporter: &T,
    rt: &R,
    alloc: Global,
    files: &mut F,
    description: &str,
    certificate: &str,
) -> Result<Vec<u8>, Refusal>
    requires shared { R.shared rt.now }
    ensures held { (name : List ℕ) → F.held files.new name ≡ F.held files.old name }
    ensures grows { (name : List ℕ) → F.faults files.old name ≤ F.faults files.new name }
    ensures text { IfOk result (λ v. MayBeReported T.says (F.held files.old) description.now certificate.now v.items) }
    ensures refusal { IfErr result (λ e. IsRefusal (F.held files.old) (check_of description.now certificate.now)
        (F.faults files.old) (F.faults files.new) e) }
{
    let named = named_in(alloc, files, description)?;
    let text = answer_text(reporter, rt, alloc, files, certificate, &named);
    drop(named);
    text
}

// Writes a text, and tells how that ended.
fn written<O: Sink>(out: &mut O, text: Vec<u8>) -> Result<(), Refusal>
    ensures grows { O.faults out.old ≤ O.faults out.new }
    ensures put { IsPut text.items (O.written out.old) (O.faults out.old) (O.written out.new) (O.faults out.new) result }
{
    put_texts(out, &[text]).map_err(|_failed| Refusal::WriteFault)
}

// Writes the text, and tells how that ended.
fn perform<T: AnswerText, R: CheckWorkers, F: Shelf, O: Sink>(
    reporter: &T,
    rt: &R,
    alloc: Global,
    files: &mut F,
    out: &mut O,
    description: &str,
    certificate: &str,
) -> Result<(), Refusal>
    requires shared { R.shared rt.now }
    ensures held { (name : List ℕ) → F.held files.new name ≡ F.held files.old name }
    ensures grows { (name : List ℕ) → F.faults files.old name ≤ F.faults files.new name }
    ensures out_grows { O.faults out.old ≤ O.faults out.new }
    ensures ended { IsReportEnded T.says (F.held files.old) description.now certificate.now (F.faults files.old) (F.faults files.new)
        (O.written out.old) (O.faults out.old) (O.written out.new) (O.faults out.new) result }
{
    let text = report_text(reporter, rt, alloc, files, description, certificate)?;
    written(out, text)
}

/// Reports on the answer of a certificate: reads the description and the certificate of these names from the shelf, judges the certificate,
/// writes the reporter's text on its answer to `out` where it is right, else a note to `notes`, and answers how that ended. The status, the
/// note and what comes of failing reads and writes are those of the top call for `check FILE CERT`.
///
/// Nothing is written to `out` but on Done, when it is the whole text, and on WriteFault, when it is a proper prefix of it.
pub fn report<T: AnswerText, R: CheckWorkers, F: Shelf, O: Sink, N: Sink>(
    reporter: &T,
    rt: &R,
    alloc: Global,
    description: &str,
    certificate: &str,
    files: &mut F,
    out: &mut O,
    notes: &mut N,
) -> Status
    // `rt` may be shared with other threads. This holds of every runtime, and of a worker that starts no thread.
    requires shared { R.shared rt.now }

    // What the shelf holds is unchanged, and no count falls.
    ensures held { (name : List ℕ) → F.held files.new name ≡ F.held files.old name }
    ensures grows { (name : List ℕ) → F.faults files.old name ≤ F.faults files.new name }
    ensures out_grows { O.faults out.old ≤ O.faults out.new }

    // Two names are always a command.
    ensures usage { result ≢ Status.Usage }

    // Faults have a cause: a count that rose.
    ensures read_fault { result ≡ Status.ReadFault
        → (name : List ℕ) × CallReaches (F.held files.old) (Some (check_of description.now certificate.now)) name
        × Rose (F.faults files.old name) (F.faults files.new name) }
    ensures write_fault { result ≡ Status.WriteFault → Rose (O.faults out.old) (O.faults out.new) }

    // Where the files are told, the status is that of the outcome of the check.
    ensures status { Tells (F.held files.old) (Some (check_of description.now certificate.now))
        → IsStatus (F.held files.old) (Some (check_of description.now certificate.now)) result }

    // The text on the answer is written whole, or a proper prefix of it, or nothing.
    ensures written { IsReportWritten T.says (F.held files.old) description.now certificate.now (O.written out.old) (O.written out.new) result }

    // The note of the status is written, or a prefix of it where the sink fails.
    ensures noted { (note : List ℕ) × IsNote (F.held files.old) (Some (check_of description.now certificate.now)) result note
        × IsNoted note (N.written notes.old) (N.faults notes.old) (N.written notes.new) (N.faults notes.new) }

    // Where the files are told and no count rose, the outcome of the check is reached, or memory ran out.
    ensures complete { Tells (F.held files.old) (Some (check_of description.now certificate.now))
        → ((name : List ℕ) → CallReaches (F.held files.old) (Some (check_of description.now certificate.now)) name
        → ¬ (Rose (F.faults files.old name) (F.faults files.new name)))
        → ¬ (Rose (O.faults out.old) (O.faults out.new))
        → IsOutcome (F.held files.old) (Some (check_of description.now certificate.now)) result ⊎ (result ≡ Status.Memory) }
{
    match perform(reporter, rt, alloc, files, out, description, certificate) {
        Ok(()) => Status::Done,
        Err(refusal) => {
            put_note(notes, refusal);
            refusal.status()
        }
    }
}
