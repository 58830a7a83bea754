//! Cases that several workers compute.

use crate::calls::{Ended, ended_alone, ended_beside, ended_jobs};
use crate::cases::Case;
use mat_top::Status;
use std::alloc::{AllocError, Global};
use std::thread::Threads;

// The numbers of workers that are tried.
const WORKERS: [&str; 5] = ["1", "2", "3", "4", "16"];

// The words of a command with the option behind its name.
fn with_workers(alloc: Global, words: &[String], number: &str) -> Result<Vec<String>, AllocError> {
    let mut all = Vec::new(alloc);
    for word in words {
        all.push(String::from_str(alloc, word)?)?;
        if all.len() == 1 {
            all.push(String::from_str(alloc, "--workers")?)?;
            all.push(String::from_str(alloc, number)?)?;
        }
    }
    Ok(all)
}

/// Runs the top call with these words over the files of a case.
pub(crate) fn ended_of<R: Threads + Sync>(
    rt: &R,
    alloc: Global,
    case: &Case,
    words: &[String],
) -> Result<Ended, AllocError> {
    let description = case.description.as_str();
    let Some(text) = &case.certificate else {
        return ended_alone(rt, alloc, words, description);
    };
    let bytes = text.as_bytes().to_vec(alloc)?;
    match &case.witness {
        Some(other) => {
            let other = other.as_bytes().to_vec(alloc)?;
            ended_jobs(rt, alloc, words, description, bytes, other)
        }
        None => ended_beside(rt, alloc, words, description, bytes),
    }
}

/// Whether a case, whose words have no option, is done and writes these bytes for each number of workers.
pub(crate) fn is_same_for_all<R: Threads + Sync>(
    rt: &R,
    alloc: Global,
    case: &Case,
    text: &[u8],
) -> Result<bool, AllocError> {
    for number in WORKERS.iter() {
        let words = with_workers(alloc, &case.words, *number)?;
        let ended = ended_of(rt, alloc, case, &words)?;
        if ended.status != Status::Done || ended.out.taken() != text {
            return Ok(false);
        }
    }
    Ok(true)
}
