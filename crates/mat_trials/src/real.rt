//! Calls of the top call over the real files.

use crate::calls::{ended_over, words_of};
use crate::faults::told_end;
use mat_shelf::FileShelf;
use std::alloc::{AllocError, Global};
use std::io::Input;
use std::rt::Files;
use std::thread::Threads;

// The words of the calls: a description that is there, one that isn't, a certificate that isn't, and two lists of jobs, of which the second
// names a file that isn't there.
const LINES: [&[&str]; 5] = [
    &["show", "pair.txt"],
    &["show", "missing.txt"],
    &["check", "pair.txt", "missing.txt"],
    &["batch", "--workers", "4", "jobs.txt"],
    &["batch", "more_jobs.txt"],
];

// What is told of the call with these words.
fn told_call<R: Threads + Sync + Files + Input>(
    rt: &R,
    alloc: Global,
    words: &[&str],
) -> Result<Vec<u8>, AllocError> {
    let words = words_of(alloc, words)?;
    let ended = ended_over(rt, alloc, &words, &mut FileShelf::new(rt))?;
    told_end(alloc, "real files", &ended)
}

/// What is told of files that are there and of files that aren't.
pub(crate) fn real_report<R: Threads + Sync + Files + Input>(
    rt: &R,
    alloc: Global,
) -> Result<Vec<u8>, AllocError> {
    let mut report = Vec::new(alloc);
    for words in LINES.iter() {
        let told = told_call(rt, alloc, words)?;
        report.extend_from_slice(told.as_slice())?;
    }
    Ok(report)
}
