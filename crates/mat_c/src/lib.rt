//! The top call for C: a line and three texts in, a status, an output and a note out, over memory of the caller.
#![tactic(auto)]

ghost use Rattle.std.specs.Prelude.{◌≡◌, ◌≤◌, length, take, drop};
ghost use Rattle.mat_judge.specs.Statuses.{status_number};
ghost use Rattle.mat_call.specs.{CallEnds.{IsNumberedEnd}, LineWords.{line_words}, NamedFiles.{three_files}};

use mat_call::{Called, call_line};
use mat_top::{OneWorker, Status};
use std::alloc::Global;

/// How a call ended.
#[repr(C)]
#[derive(Drop)]
pub struct Ended {
    /// The number of its status.
    pub status: u8,
    /// How many bytes of the output it wrote.
    pub output_length: usize,
    /// How many bytes of the note it wrote.
    pub note_length: usize,
}

// Puts bytes into the front of a buffer, and gives their number.
fn put_front(bytes: &[u8], into: &mut [u8]) -> usize
    requires { length bytes.now ≤ length into.old }
    ensures count { result ≡ length bytes.now }
    ensures front { take result into.new ≡ bytes.now }
    ensures rest { drop result into.new ≡ drop result into.old }
{
    let count = bytes.len();
    into[..count].copy_from_slice(bytes);
    count
}

// Hands on how a call ended, what it wrote and its note.
fn hand_on(called: &Called, output: &mut [u8], note: &mut [u8]) -> Ended
    requires output { length called.now.output.items ≤ length output.old }
    requires note { length called.now.note.items ≤ length note.old }
    ensures status { result.status ≡ status_number called.now.status }
    ensures bounds { (result.output_length ≤ length output.new) × (result.note_length ≤ length note.new) }
    ensures output { take result.output_length output.new ≡ called.now.output.items }
    ensures note { take result.note_length note.new ≡ called.now.note.items }
    ensures output_rest { drop result.output_length output.new ≡ drop result.output_length output.old }
    ensures note_rest { drop result.note_length note.new ≡ drop result.note_length note.old }
{
    Ended {
        status: called.status.number(),
        output_length: put_front(&called.output, output),
        note_length: put_front(&called.note, note),
    }
}

// Memory ran out before a call began.
fn not_begun() -> Ended
    ensures { result ≡ record { status = 7; output_length = 0; note_length = 0 } }
{
    Ended {
        status: Status::Memory.number(),
        output_length: 0,
        note_length: 0,
    }
}

/// Does what the words of `line` ask for, over the files `f`, `c` and `w`, which hold `description`, `certificate` and `witness`: what is
/// written goes to the front of `output`, and the note to the front of `note`, and what stands behind both stays. No thread is started. The words
/// are those of the top call, with one space between them.
///
/// It ends as [`call_line`] does, with the number of the status; where memory ran out before the call began, with that of Memory.
#[unsafe(no_mangle)]
pub extern "C" fn matbench_line(
    alloc: Global,
    line: &[u8],
    description: &[u8],
    certificate: &[u8],
    witness: &[u8],
    output: &mut [u8],
    note: &mut [u8],
) -> Ended
    ensures bounds { (result.output_length ≤ length output.new) × (result.note_length ≤ length note.new) }
    ensures ended { IsNumberedEnd (three_files description.now certificate.now witness.now) (line_words line.now) (length output.old)
        (length note.old) result.status (take result.output_length output.new) (take result.note_length note.new) }
    ensures output_rest { drop result.output_length output.new ≡ drop result.output_length output.old }
    ensures note_rest { drop result.note_length note.new ≡ drop result.note_length note.old }
{
    let (room, note_room) = (output.len(), note.len());
    let rt = OneWorker;
    match call_line(
        &rt,
        alloc,
        line,
        description,
        certificate,
        witness,
        room,
        note_room,
    ) {
        Ok(called) => hand_on(&called, output, note),
        Err(_) => not_begun(),
    }
}
