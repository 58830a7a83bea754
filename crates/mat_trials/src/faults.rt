//! Calls of the top call over objects that fail at known calls, over objects that never do, and over files that are too long.

use crate::calls::{DESCRIPTION_LIMIT, Ended, ended_over, one_file, two_files, words_of};
use mat_shelf::{MemShelf, MemSink, SureShelf, SureSink};
use mat_top::{Status, run};
use std::alloc::{AllocError, Global};
use std::thread::Threads;

// Two matroids on no elements.
const EMPTY_PAIR: &str = "matroids 1\npair 0\nweights\nuniform 0\nuniform 0\nend\n";

// The answer to that.
const EMPTY_ANSWER: &str =
    "certificate 1\nanswer intersect 0 0\nrung 0 0\nset\nfirst\nsecond\ncut\nend\n";

// The most bytes that a certificate or a witness may have.
const CERTIFICATE_LIMIT: usize = 67_108_864;

// The numbers of the calls that fail: of the shelf, of the output and of the notes.
#[derive(Clone, Copy)]
struct Failing<'a> {
    shelf: &'a [u64],
    out: &'a [u64],
    notes: &'a [u64],
}

// The numbers of calls that fail, each under a name.
const FAILING: [(&str, Failing<'static>); 6] = [
    (
        "nothing fails",
        Failing {
            shelf: &[],
            out: &[],
            notes: &[],
        },
    ),
    (
        "no note is due",
        Failing {
            shelf: &[],
            out: &[],
            notes: &[1],
        },
    ),
    (
        "a read fails",
        Failing {
            shelf: &[2],
            out: &[],
            notes: &[],
        },
    ),
    (
        "a read and the note fail",
        Failing {
            shelf: &[2],
            out: &[],
            notes: &[1],
        },
    ),
    (
        "a write fails",
        Failing {
            shelf: &[],
            out: &[3],
            notes: &[],
        },
    ),
    (
        "a write and the note fail",
        Failing {
            shelf: &[],
            out: &[3],
            notes: &[1],
        },
    ),
];

/// What a call is, its status, its note and what it wrote.
pub(crate) fn told(
    alloc: Global,
    name: &str,
    status: Status,
    notes: &[u8],
    out: &[u8],
) -> Result<Vec<u8>, AllocError> {
    let number = status.number();
    let heading = format!(in alloc; "= {name}\nstatus {number}\n")?;
    let mut report = heading.as_bytes().to_vec(alloc)?;
    report.extend_from_slice(notes)?;
    report.extend_from_slice(out)?;
    if !report.ends_with(b"\n") {
        report.push(b'\n')?;
    }
    Ok(report)
}

/// What came of a call of this name.
pub(crate) fn told_end(alloc: Global, name: &str, ended: &Ended) -> Result<Vec<u8>, AllocError> {
    told(
        alloc,
        name,
        ended.status,
        ended.notes.taken(),
        ended.out.taken(),
    )
}

// What came of a call of this name over a shelf and sinks of which these calls fail, and of which the output takes one byte at a time.
fn told_over<R: Threads + Sync>(
    rt: &R,
    alloc: Global,
    name: &str,
    words: &[String],
    shelf: &mut MemShelf,
    failing: &Failing<'_>,
) -> Result<Vec<u8>, AllocError> {
    let mut out = MemSink::new(alloc, 100, 1, failing.out.to_vec(alloc)?)?;
    let mut notes = MemSink::new(alloc, 100, 100, failing.notes.to_vec(alloc)?)?;
    let status = run(rt, alloc, words, shelf, &mut out, &mut notes);
    told(alloc, name, status, notes.taken(), out.taken())
}

// A pair is solved where these calls fail.
fn told_failing<R: Threads + Sync>(
    rt: &R,
    alloc: Global,
    name: &str,
    failing: &Failing<'_>,
) -> Result<Vec<u8>, AllocError> {
    let words = words_of(alloc, &["intersect", "f"])?;
    let files = one_file(alloc, EMPTY_PAIR.as_bytes().to_vec(alloc)?)?;
    let mut shelf = MemShelf::new(files, 7, failing.shelf.to_vec(alloc)?);
    told_over(rt, alloc, name, &words, &mut shelf, failing)
}

// A pair is solved over objects that never fail.
fn told_sure<R: Threads + Sync>(rt: &R, alloc: Global) -> Result<Vec<u8>, AllocError> {
    let words = words_of(alloc, &["intersect", "f"])?;
    let files = one_file(alloc, EMPTY_PAIR.as_bytes().to_vec(alloc)?)?;
    let mut shelf = SureShelf::new(files, Vec::new(alloc));
    let mut out = SureSink::new(alloc, 100)?;
    let mut notes = SureSink::new(alloc, 100)?;
    let status = run(rt, alloc, &words, &mut shelf, &mut out, &mut notes);
    told(
        alloc,
        "nothing can fail",
        status,
        notes.taken(),
        out.taken(),
    )
}

// A command reads a description or a list of so many bytes.
fn told_long<R: Threads + Sync>(
    rt: &R,
    alloc: Global,
    name: &str,
    command: &str,
    count: usize,
) -> Result<Vec<u8>, AllocError> {
    let words = words_of(alloc, &[command, "f"])?;
    let files = one_file(alloc, vec![in alloc; b'x'; count]?)?;
    let mut shelf = MemShelf::new(files, 1_000_000, Vec::new(alloc));
    let ended = ended_over(rt, alloc, &words, &mut shelf)?;
    told_end(alloc, name, &ended)
}

// A certificate of one byte more than the limit is judged.
fn told_long_certificate<R: Threads + Sync>(rt: &R, alloc: Global) -> Result<Vec<u8>, AllocError> {
    let words = words_of(alloc, &["check", "f", "c"])?;
    let files = one_file(alloc, EMPTY_PAIR.as_bytes().to_vec(alloc)?)?;
    let bytes = vec![in alloc; b'x'; CERTIFICATE_LIMIT + 1]?;
    let mut shelf = SureShelf::new(files, bytes);
    let ended = ended_over(rt, alloc, &words, &mut shelf)?;
    told_end(alloc, "a certificate is too long", &ended)
}

// A witness of one byte more than the limit is verified.
fn told_long_witness<R: Threads + Sync>(rt: &R, alloc: Global) -> Result<Vec<u8>, AllocError> {
    let words = words_of(alloc, &["verify", "0", "f", "c", "w"])?;
    let description = EMPTY_PAIR.as_bytes().to_vec(alloc)?;
    let files = two_files(alloc, description, EMPTY_ANSWER.as_bytes().to_vec(alloc)?)?;
    let bytes = vec![in alloc; b'x'; CERTIFICATE_LIMIT + 1]?;
    let mut shelf = SureShelf::new(files, bytes);
    let ended = ended_over(rt, alloc, &words, &mut shelf)?;
    told_end(alloc, "a witness is too long", &ended)
}

// What is told of long files.
fn told_all_long<R: Threads + Sync>(rt: &R, alloc: Global) -> Result<Vec<u8>, AllocError> {
    let most = DESCRIPTION_LIMIT;
    let mut report = told_long(rt, alloc, "a description is long", "show", most)?;
    let longer = told_long(rt, alloc, "a description is too long", "show", most + 1)?;
    report.extend_from_slice(&longer)?;
    report.extend_from_slice(&told_long_certificate(rt, alloc)?)?;
    report.extend_from_slice(&told_long(rt, alloc, "a list is long", "batch", most)?)?;
    let longer = told_long(rt, alloc, "a list is too long", "batch", most + 1)?;
    report.extend_from_slice(&longer)?;
    report.extend_from_slice(&told_long_witness(rt, alloc)?)?;
    Ok(report)
}

// The calls of objects that fail.
fn told_faults<R: Threads + Sync>(rt: &R, alloc: Global) -> Result<Vec<u8>, AllocError> {
    let mut report = Vec::new(alloc);
    for (name, failing) in FAILING.iter() {
        let told = told_failing(rt, alloc, name, failing)?;
        report.extend_from_slice(told.as_slice())?;
    }
    Ok(report)
}

/// What is told of the objects that fail, of those that don't, and of long files.
pub(crate) fn fault_report<R: Threads + Sync>(
    rt: &R,
    alloc: Global,
) -> Result<Vec<u8>, AllocError> {
    let mut report = told_faults(rt, alloc)?;
    report.extend_from_slice(&told_sure(rt, alloc)?)?;
    report.extend_from_slice(&told_all_long(rt, alloc)?)?;
    Ok(report)
}
