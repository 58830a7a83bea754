//! Reports over objects that fail at known calls, and over files that are too long.

use crate::calls::{Ended, STEP, ended_of, ended_over, one_file, two_files};
use mat_report::{InWords, report};
use mat_shelf::{MemShelf, MemSink, SureShelf};
use std::alloc::{AllocError, Global};
use std::thread::Threads;

// Two matroids on no elements.
const EMPTY_PAIR: &str = "matroids 1\npair 0\nweights\nuniform 0\nuniform 0\nend\n";

// The answer to that.
const EMPTY_ANSWER: &str =
    "certificate 1\nanswer intersect 0 0\nrung 0 0\nset\nfirst\nsecond\ncut\nend\n";

// The most bytes that a description may have.
const DESCRIPTION_LIMIT: usize = 4_194_304;

// The most bytes that a certificate may have.
const CERTIFICATE_LIMIT: usize = 67_108_864;

// The numbers of the calls that fail: of the shelf, of the output and of the notes.
#[derive(Clone, Copy)]
struct Failing<'a> {
    shelf: &'a [u64],
    out: &'a [u64],
    notes: &'a [u64],
}

// The numbers of calls that fail, each under a name.
const FAILING: [(&str, Failing<'static>); 6] = [
    (
        "nothing fails",
        Failing {
            shelf: &[],
            out: &[],
            notes: &[1],
        },
    ),
    (
        "the description is not opened",
        Failing {
            shelf: &[1],
            out: &[],
            notes: &[],
        },
    ),
    (
        "the certificate is not read to its end",
        Failing {
            shelf: &[6],
            out: &[],
            notes: &[],
        },
    ),
    (
        "a read and the note fail",
        Failing {
            shelf: &[2],
            out: &[],
            notes: &[1],
        },
    ),
    (
        "a write fails",
        Failing {
            shelf: &[],
            out: &[3],
            notes: &[],
        },
    ),
    (
        "a write and the note fail",
        Failing {
            shelf: &[],
            out: &[3],
            notes: &[1],
        },
    ),
];

// The bytes of a text.
fn bytes_of(alloc: Global, text: &str) -> Result<Vec<u8>, AllocError> {
    text.as_bytes().to_vec(alloc)
}

// An answer is told where these calls fail, and ten bytes are written at a time.
fn ended_failing<R: Threads + Sync>(
    rt: &R,
    alloc: Global,
    failing: &Failing<'_>,
) -> Result<Ended, AllocError> {
    let description = bytes_of(alloc, EMPTY_PAIR)?;
    let files = two_files(alloc, description, bytes_of(alloc, EMPTY_ANSWER)?)?;
    let mut shelf = MemShelf::new(files, STEP, failing.shelf.to_vec(alloc)?);
    let mut out = MemSink::new(alloc, 1000, 10, failing.out.to_vec(alloc)?)?;
    let mut notes = MemSink::new(alloc, 100, 100, failing.notes.to_vec(alloc)?)?;
    let status = report(
        &InWords, rt, alloc, "f", "c", &mut shelf, &mut out, &mut notes,
    );
    Ok(Ended { status, out, notes })
}

// The description has one byte more than the limit.
fn ended_long<R: Threads + Sync>(rt: &R, alloc: Global) -> Result<Ended, AllocError> {
    let description = vec![in alloc; b'x'; DESCRIPTION_LIMIT + 1]?;
    ended_of(&InWords, rt, alloc, description, None)
}

// The certificate has one byte more than the limit.
fn ended_long_certificate<R: Threads + Sync>(rt: &R, alloc: Global) -> Result<Ended, AllocError> {
    let files = one_file(alloc, bytes_of(alloc, EMPTY_PAIR)?)?;
    let bytes = vec![in alloc; b'x'; CERTIFICATE_LIMIT + 1]?;
    let mut shelf = SureShelf::new(files, bytes);
    ended_over(&InWords, rt, alloc, &mut shelf)
}

/// Calls over objects that fail and over long files, each with its name.
pub(crate) fn all_ended<R: Threads + Sync>(
    rt: &R,
    alloc: Global,
) -> Result<Vec<(&'static str, Ended)>, AllocError> {
    let mut all = Vec::new(alloc);
    for (name, failing) in FAILING.iter() {
        all.push((*name, ended_failing(rt, alloc, failing)?))?;
    }
    all.push(("the description is too long", ended_long(rt, alloc)?))?;
    all.push((
        "the certificate is too long",
        ended_long_certificate(rt, alloc)?,
    ))?;
    Ok(all)
}
