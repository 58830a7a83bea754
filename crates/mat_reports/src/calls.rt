//! Reports over files and sinks in memory.

ghost use Rattle.std.specs.Prelude.{IfOk};
ghost use Rattle.mat_shelf.specs.Files.{HaveDifferentNames};

use mat_judge::Status;
use mat_report::{AnswerText, report};
use mat_shelf::{MemShelf, MemSink, NamedFile, Shelf};
use std::alloc::{AllocError, Global};
use std::thread::Threads;

/// How many bytes one read of a file gives, and one write takes.
pub(crate) const STEP: usize = 4096;

// The most bytes that a sink holds.
const ROOM: usize = 1_048_576;

/// How a call ended, what it wrote, and its note.
#[derive(Drop)]
pub(crate) struct Ended {
    pub(crate) status: Status,
    pub(crate) out: MemSink,
    pub(crate) notes: MemSink,
}

/// The one file `f` with these bytes.
pub(crate) fn one_file(alloc: Global, bytes: Vec<u8>) -> Result<Vec<NamedFile>, AllocError>
    ensures { IfOk result (λ files. HaveDifferentNames files.items) }
{
    let file = NamedFile::new(String::from_str(alloc, "f")?, bytes);
    let mut files = Vec::new(alloc);
    files.push(file)?;
    Ok(files)
}

/// The two files `f` and `c` with these bytes.
pub(crate) fn two_files(
    alloc: Global,
    first: Vec<u8>,
    second: Vec<u8>,
) -> Result<Vec<NamedFile>, AllocError>
    ensures { IfOk result (λ files. HaveDifferentNames files.items) }
{
    let first = NamedFile::new(String::from_str(alloc, "f")?, first);
    let second = NamedFile::new(String::from_str(alloc, "c")?, second);
    let mut files = Vec::new(alloc);
    files.push(first)?;
    files.push(second)?;
    Ok(files)
}

// The file of the description, and that of the certificate where there is one.
fn files_of(
    alloc: Global,
    description: Vec<u8>,
    certificate: Option<Vec<u8>>,
) -> Result<Vec<NamedFile>, AllocError>
    ensures { IfOk result (λ files. HaveDifferentNames files.items) }
{
    match certificate {
        Some(bytes) => two_files(alloc, description, bytes),
        None => one_file(alloc, description),
    }
}

/// A sink that never fails before it is full.
pub(crate) fn sink(alloc: Global) -> Result<MemSink, AllocError> {
    MemSink::new(alloc, ROOM, STEP, Vec::new(alloc))
}

/// Reports on the answer of the certificate `c` to the problem of the description `f` over a shelf.
pub(crate) fn ended_over<T: AnswerText, R: Threads + Sync, F: Shelf>(
    reporter: &T,
    rt: &R,
    alloc: Global,
    shelf: &mut F,
) -> Result<Ended, AllocError> {
    let mut out = sink(alloc)?;
    let mut notes = sink(alloc)?;
    let status = report(reporter, rt, alloc, "f", "c", shelf, &mut out, &mut notes);
    Ok(Ended { status, out, notes })
}

/// Reports on the answer of a certificate to the problem of a description, where no call fails.
pub(crate) fn ended_of<T: AnswerText, R: Threads + Sync>(
    reporter: &T,
    rt: &R,
    alloc: Global,
    description: Vec<u8>,
    certificate: Option<Vec<u8>>,
) -> Result<Ended, AllocError> {
    let files = files_of(alloc, description, certificate)?;
    let mut shelf = MemShelf::new(files, STEP, Vec::new(alloc));
    ended_over(reporter, rt, alloc, &mut shelf)
}
