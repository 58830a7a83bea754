//! The top call over files in memory.

ghost use Rattle.std.specs.Prelude.{◌≡◌, ◌≤◌, [], length, map, string_bytes, IfOk};
ghost use Rattle.mat_shelf.specs.Files.{HaveDifferentNames};
ghost use Rattle.mat_call.specs.{CallEnds.{IsCallEnded}, LineWords.{line_words}, NamedFiles.{file_of, three_files}};

use crate::bounded_sink::BoundedSink;
use crate::given_shelf::GivenShelf;
use crate::words::line_words;
use mat_shelf::NamedFile;
use mat_top::{Status, TopWorkers, run};
use std::alloc::{AllocError, Global};

/// How a call ended, what it wrote, and its note.
#[derive(Drop)]
pub struct Called {
    /// How it ended.
    pub status: Status,
    /// What it wrote.
    pub output: Vec<u8>,
    /// Its note, where it was refused.
    pub note: Vec<u8>,
}

// The top call over files in memory and two empty sinks.
fn call_into<R: TopWorkers>(
    rt: &R,
    alloc: Global,
    words: &[String],
    files: &mut GivenShelf,
    output: &mut BoundedSink,
    note: &mut BoundedSink,
) -> Status
    requires shared { R.shared rt.now }
    requires output { output.old.taken ≡ [] }
    requires note { note.old.taken ≡ [] }
    ensures bounds { (length output.new.taken ≤ output.old.room) × (length note.new.taken ≤ note.old.room) }
    ensures ended { IsCallEnded files.old.files (map string_bytes words.now) output.old.room note.old.room
        result output.new.taken note.new.taken }
{
    let status = run(rt, alloc, words, files, output, note);
    // Each tells that it took no more than it has room for, and failed only where it is full.
    output.stays_bounded();
    note.stays_bounded();
    status
}

/// The top call over words and files in memory: what [`run`] answers, writes and notes. The output has room for `room` bytes, and the note
/// for `note_room`. The only error is want of memory for them.
///
/// The words are those after the program's name. Usage comes exactly where they are no command, ReadFault only where the call reaches a name
/// that none of the files has, and WriteFault only where the output has no room for the whole answer. Each other status but Memory is that of the
/// words and of what the files hold, and so are the output and the note, each cut off where it has no room left.
///
/// Of a name that none of the files has the contract says what it says of a file with more bytes than any may have. So where the call reaches
/// such a name it leaves open whether the call ends with ReadFault, as it does, or with TooLong.
pub fn call<R: TopWorkers>(
    rt: &R,
    alloc: Global,
    words: &[String],
    files: Vec<NamedFile>,
    room: usize,
    note_room: usize,
) -> Result<Called, AllocError>
    // `rt` may be shared with other threads. This holds of every runtime, and of a worker that starts no thread.
    requires shared { R.shared rt.now }
    requires different { HaveDifferentNames files.items }
    ensures bounds { IfOk result (λ c. (length c.output.items ≤ room) × (length c.note.items ≤ note_room)) }
    ensures ended { IfOk result (λ c. IsCallEnded files.items (map string_bytes words.now) room note_room
        c.status c.output.items c.note.items) }
{
    let mut output = BoundedSink::new(alloc, room)?;
    let mut note = BoundedSink::new(alloc, note_room)?;
    let mut shelf = GivenShelf::new(alloc, files);
    let status = call_into(rt, alloc, words, &mut shelf, &mut output, &mut note);
    Ok(Called {
        status,
        output: output.into_bytes(),
        note: note.into_bytes(),
    })
}

// A file of this name with a copy of these bytes.
fn file(alloc: Global, name: &str, bytes: &[u8]) -> Result<NamedFile, AllocError>
    ensures { IfOk result (λ f. f ≡ file_of name.now bytes.now) }
{
    let name = String::from_str(alloc, name)?;
    Ok(NamedFile::new(name, bytes.to_vec(alloc)?))
}

// The files `f`, `c` and `w`.
fn three_files(
    alloc: Global,
    description: &[u8],
    certificate: &[u8],
    witness: &[u8],
) -> Result<Vec<NamedFile>, AllocError>
    ensures { IfOk result (λ v. v.items ≡ three_files description.now certificate.now witness.now) }
{
    let mut files = Vec::new(alloc);
    files.push(file(alloc, "f", description)?)?;
    files.push(file(alloc, "c", certificate)?)?;
    files.push(file(alloc, "w", witness)?)?;
    Ok(files)
}

/// The top call over the words of a line and three files in memory: `f`, `c` and `w`, which hold a description, a certificate and a witness.
/// It ends as [`call`] does. The words have one space between them: a line that is not well spaced says no words, which are no command. The
/// only error is want of memory for the words, the files, the output and the note.
pub fn call_line<R: TopWorkers>(
    rt: &R,
    alloc: Global,
    line: &[u8],
    description: &[u8],
    certificate: &[u8],
    witness: &[u8],
    room: usize,
    note_room: usize,
) -> Result<Called, AllocError>
    requires shared { R.shared rt.now }
    ensures bounds { IfOk result (λ c. (length c.output.items ≤ room) × (length c.note.items ≤ note_room)) }
    ensures ended { IfOk result (λ c. IsCallEnded (three_files description.now certificate.now witness.now) (line_words line.now)
        room note_room c.status c.output.items c.note.items) }
{
    let words = line_words(alloc, line)?;
    let files = three_files(alloc, description, certificate, witness)?;
    call(rt, alloc, &words, files, room, note_room)
}
