//! The answer for a pair of 500 elements with the greatest weights that have no tie, of which both matroids allow every set.

use crate::calls::{Ended, sink, two_files, words_of};
use crate::faults::{told, told_end};
use mat_shelf::{MemShelf, MemSink};
use mat_top::run;
use std::alloc::{AllocError, Global};
use std::thread::Threads;

// How many elements there are.
const COUNT: usize = 500;

// The answer has fewer bytes.
const BOUND: usize = 22_000_000;

// How many bytes one read gives, and one write takes.
const STEP: usize = 1_048_576;

// The description.
fn description(alloc: Global) -> Result<Vec<u8>, AllocError> {
    let mut text = b"matroids 1\npair 500\nweights".to_vec(alloc)?;
    for _ in 0..COUNT {
        text.extend_from_slice(b" 1000000000000")?;
    }
    text.extend_from_slice(b"\nuniform 500\nuniform 500\nend\n")?;
    Ok(text)
}

// A call where the file `f` has the description and the file `c` the certificate.
fn ended<R: Threads + Sync>(
    rt: &R,
    alloc: Global,
    words: &[&str],
    certificate: &[u8],
) -> Result<Ended, AllocError> {
    let words = words_of(alloc, words)?;
    let files = two_files(alloc, description(alloc)?, certificate.to_vec(alloc)?)?;
    let mut shelf = MemShelf::new(files, STEP, Vec::new(alloc));
    let mut out = MemSink::new(alloc, BOUND - 1, STEP, Vec::new(alloc))?;
    let mut notes = sink(alloc)?;
    let status = run(rt, alloc, &words, &mut shelf, &mut out, &mut notes);
    Ok(Ended { status, out, notes })
}

// The header of a certificate and the line of its last rung.
fn told_lines(alloc: Global, certificate: &[u8]) -> Result<Vec<u8>, AllocError> {
    let mut told = Vec::new(alloc);
    let mut last = b"".as_slice();
    for line in certificate.split(|byte| *byte == b'\n') {
        if line.starts_with(b"answer ") {
            told.extend_from_slice(line)?;
            told.push(b'\n')?;
        }
        if line.starts_with(b"rung ") {
            last = line;
        }
    }
    told.extend_from_slice(last)?;
    Ok(told)
}

// How the pair was solved, and what is said of the answer.
fn told_solved(alloc: Global, solved: &Ended) -> Result<Vec<u8>, AllocError> {
    let lines = told_lines(alloc, solved.out.taken())?;
    told(
        alloc,
        "the longest answer",
        solved.status,
        solved.notes.taken(),
        &lines,
    )
}

// What the judge says of the answer.
fn told_judged<R: Threads + Sync>(
    rt: &R,
    alloc: Global,
    certificate: &[u8],
) -> Result<Vec<u8>, AllocError> {
    let judged = ended(rt, alloc, &["check", "f", "c"], certificate)?;
    told_end(alloc, "the longest answer is judged", &judged)
}

/// How the pair is solved into a sink with room for fewer bytes than the bound, and what is said of its answer.
pub(crate) fn longest_report<R: Threads + Sync>(
    rt: &R,
    alloc: Global,
) -> Result<Vec<u8>, AllocError> {
    let solved = ended(rt, alloc, &["intersect", "f"], b"")?;
    let mut report = told_solved(alloc, &solved)?;
    report.extend_from_slice(&told_judged(rt, alloc, solved.out.taken())?)?;
    Ok(report)
}
