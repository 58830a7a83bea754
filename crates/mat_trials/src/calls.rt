//! Calls of the top call over files and sinks in memory.

ghost use Rattle.std.specs.Prelude.{IfOk};
ghost use Rattle.mat_shelf.specs.Files.{HaveDifferentNames};

use mat_shelf::{MemShelf, MemSink, NamedFile, Shelf, SureShelf};
use mat_top::{Status, run};
use std::alloc::{AllocError, Global};
use std::thread::Threads;

/// The most bytes that a description may have.
pub(crate) const DESCRIPTION_LIMIT: usize = 4_194_304;

// How many bytes one read of the file gives, and one write takes.
const STEP: usize = 4096;

// The most bytes that a sink holds.
const ROOM: usize = 1_048_576;

/// How a call of the top call ended, what it wrote, and its note.
#[derive(Drop)]
pub(crate) struct Ended {
    pub(crate) status: Status,
    pub(crate) out: MemSink,
    pub(crate) notes: MemSink,
}

/// These words.
pub(crate) fn words_of(alloc: Global, words: &[&str]) -> Result<Vec<String>, AllocError> {
    let mut all = Vec::new(alloc);
    for word in words {
        all.push(String::from_str(alloc, word)?)?;
    }
    Ok(all)
}

/// The one file `f` with these bytes.
pub(crate) fn one_file(alloc: Global, bytes: Vec<u8>) -> Result<Vec<NamedFile>, AllocError>
    ensures { IfOk result (λ files. HaveDifferentNames files.items) }
{
    let file = NamedFile::new(String::from_str(alloc, "f")?, bytes);
    let mut files = Vec::new(alloc);
    files.push(file)?;
    Ok(files)
}

/// The two files `f` and `c` with these bytes.
pub(crate) fn two_files(
    alloc: Global,
    first: Vec<u8>,
    second: Vec<u8>,
) -> Result<Vec<NamedFile>, AllocError>
    ensures { IfOk result (λ files. HaveDifferentNames files.items) }
{
    let first = NamedFile::new(String::from_str(alloc, "f")?, first);
    let second = NamedFile::new(String::from_str(alloc, "c")?, second);
    let mut files = Vec::new(alloc);
    files.push(first)?;
    files.push(second)?;
    Ok(files)
}

/// The three files `f`, `c` and `w` with these bytes.
pub(crate) fn three_files(
    alloc: Global,
    first: Vec<u8>,
    second: Vec<u8>,
    third: Vec<u8>,
) -> Result<Vec<NamedFile>, AllocError>
    ensures { IfOk result (λ files. HaveDifferentNames files.items) }
{
    let first = NamedFile::new(String::from_str(alloc, "f")?, first);
    let second = NamedFile::new(String::from_str(alloc, "c")?, second);
    let third = NamedFile::new(String::from_str(alloc, "w")?, third);
    let mut files = Vec::new(alloc);
    files.push(first)?;
    files.push(second)?;
    files.push(third)?;
    Ok(files)
}

/// The three files `f`, `l` and `g` with these bytes.
pub(crate) fn job_files(
    alloc: Global,
    first: Vec<u8>,
    list: Vec<u8>,
    second: Vec<u8>,
) -> Result<Vec<NamedFile>, AllocError>
    ensures { IfOk result (λ files. HaveDifferentNames files.items) }
{
    let first = NamedFile::new(String::from_str(alloc, "f")?, first);
    let list = NamedFile::new(String::from_str(alloc, "l")?, list);
    let second = NamedFile::new(String::from_str(alloc, "g")?, second);
    let mut files = Vec::new(alloc);
    files.push(first)?;
    files.push(list)?;
    files.push(second)?;
    Ok(files)
}

/// A sink that never fails before it is full.
pub(crate) fn sink(alloc: Global) -> Result<MemSink, AllocError> {
    MemSink::new(alloc, ROOM, STEP, Vec::new(alloc))
}

/// Runs the top call over a shelf.
pub(crate) fn ended_over<R: Threads + Sync, F: Shelf>(
    rt: &R,
    alloc: Global,
    words: &[String],
    shelf: &mut F,
) -> Result<Ended, AllocError> {
    let mut out = sink(alloc)?;
    let mut notes = sink(alloc)?;
    let status = run(rt, alloc, words, shelf, &mut out, &mut notes);
    Ok(Ended { status, out, notes })
}

/// Runs the top call where the file `f` is there alone.
pub(crate) fn ended_alone<R: Threads + Sync>(
    rt: &R,
    alloc: Global,
    words: &[String],
    description: &str,
) -> Result<Ended, AllocError> {
    let files = one_file(alloc, description.as_bytes().to_vec(alloc)?)?;
    let mut shelf = MemShelf::new(files, STEP, Vec::new(alloc));
    ended_over(rt, alloc, words, &mut shelf)
}

/// Runs the top call where the files `f`, `c` and `w` have the description, the certificate and the witness.
pub(crate) fn ended_among<R: Threads + Sync>(
    rt: &R,
    alloc: Global,
    words: &[String],
    description: &str,
    certificate: Vec<u8>,
    witness: Vec<u8>,
) -> Result<Ended, AllocError> {
    let description = description.as_bytes().to_vec(alloc)?;
    let files = three_files(alloc, description, certificate, witness)?;
    let mut shelf = MemShelf::new(files, STEP, Vec::new(alloc));
    ended_over(rt, alloc, words, &mut shelf)
}

/// Runs the top call where the file `f` has the description, and every other file the certificate.
pub(crate) fn ended_beside<R: Threads + Sync>(
    rt: &R,
    alloc: Global,
    words: &[String],
    description: &str,
    certificate: Vec<u8>,
) -> Result<Ended, AllocError> {
    let files = one_file(alloc, description.as_bytes().to_vec(alloc)?)?;
    let mut shelf = SureShelf::new(files, certificate);
    ended_over(rt, alloc, words, &mut shelf)
}

/// Runs the top call where the files `f` and `g` have these descriptions, and the file `l` has a list of jobs.
pub(crate) fn ended_jobs<R: Threads + Sync>(
    rt: &R,
    alloc: Global,
    words: &[String],
    first: &str,
    list: Vec<u8>,
    second: Vec<u8>,
) -> Result<Ended, AllocError> {
    let first = first.as_bytes().to_vec(alloc)?;
    let files = job_files(alloc, first, list, second)?;
    let mut shelf = MemShelf::new(files, STEP, Vec::new(alloc));
    ended_over(rt, alloc, words, &mut shelf)
}
