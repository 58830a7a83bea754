//! Calls over a line and texts in memory, by one worker.

use mat_call::{Called, call_line};
use mat_top::OneWorker;
use std::alloc::{AllocError, Global};

// Three elements, of which the first matroid allows two and the second one of the first two.
const PAIR: &str = "matroids 1\npair 3\nweights 3 2 1\nuniform 2\npartition 1\nclass 1 0 1\nend\n";

// Two elements, of which one is allowed.
const SINGLE: &str = "matroids 1\nlist 2 1\nweights 5 7\nuniform 1\nend\n";

// Three vertices in a row.
const ROW: &str = "matroids 1\ngraph 3 2\nedge 0 1\nedge 1 2\nend\n";

// Jobs on the files `c` and `w`.
const JOBS: &str = "jobs 1\njob best c\njob trees 1 w\njob best c\nend\n";

// The most bytes of an answer here, and of a note.
const ROOM: usize = 4096;

// How a call with these words ends, over the pair and this certificate.
fn called(alloc: Global, line: &str, certificate: &[u8]) -> Result<Called, AllocError> {
    let rt = OneWorker;
    call_line(
        &rt,
        alloc,
        line.as_bytes(),
        PAIR.as_bytes(),
        certificate,
        &[],
        ROOM,
        ROOM,
    )
}

/// What `check` says of the answer that `intersect` gives to a pair.
pub(crate) fn judged_answer(alloc: Global) -> Result<Called, AllocError> {
    let solved = called(alloc, "intersect f", &[])?;
    called(alloc, "check f c", &solved.output)
}

/// What comes of a name that no file has.
pub(crate) fn missed_file(alloc: Global) -> Result<Called, AllocError> {
    called(alloc, "show g", &[])
}

/// The answers to the jobs of a list.
pub(crate) fn listed_answers(alloc: Global) -> Result<Called, AllocError> {
    let rt = OneWorker;
    call_line(
        &rt,
        alloc,
        b"batch f",
        JOBS.as_bytes(),
        SINGLE.as_bytes(),
        ROW.as_bytes(),
        ROOM,
        ROOM,
    )
}
