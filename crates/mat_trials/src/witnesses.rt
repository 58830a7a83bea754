//! Cases of witnesses: of a certificate of the case, or of the one that is printed for its description.

use crate::calls::{Ended, ended_alone, ended_among, ended_beside, words_of};
use crate::cases::Case;
use std::alloc::{AllocError, Global};
use std::thread::Threads;

// The certificate of a case, or the one that is printed for its description.
fn certificate_for<R: Threads + Sync>(
    rt: &R,
    alloc: Global,
    case: &Case,
) -> Result<Vec<u8>, AllocError> {
    match &case.certificate {
        Some(text) => text.as_bytes().to_vec(alloc),
        None => {
            let words = words_of(alloc, &["intersect", "f"])?;
            let solved = ended_alone(rt, alloc, &words, case.description.as_str())?;
            solved.out.taken().to_vec(alloc)
        }
    }
}

/// Runs the top call of a case that asks for a witness, or for the verification of one.
pub(crate) fn ended_witnessed<R: Threads + Sync>(
    rt: &R,
    alloc: Global,
    case: &Case,
) -> Result<Ended, AllocError> {
    let description = case.description.as_str();
    let certificate = certificate_for(rt, alloc, case)?;
    match &case.witness {
        Some(text) => {
            let witness = text.as_bytes().to_vec(alloc)?;
            ended_among(rt, alloc, &case.words, description, certificate, witness)
        }
        None => ended_beside(rt, alloc, &case.words, description, certificate),
    }
}

/// Adds what is said of a witness that was printed for the rung of a case.
pub(crate) fn add_verification<R: Threads + Sync>(
    rt: &R,
    alloc: Global,
    report: &mut Vec<u8>,
    case: &Case,
    witness: &[u8],
) -> Result<(), AllocError> {
    let rung = case.words.get(1).map_or("", |word| word.as_str());
    let words = words_of(alloc, &["verify", rung, "f", "c", "w"])?;
    let certificate = certificate_for(rt, alloc, case)?;
    let copy = witness.to_vec(alloc)?;
    let verified = ended_among(
        rt,
        alloc,
        &words,
        case.description.as_str(),
        certificate,
        copy,
    )?;
    report.extend_from_slice(verified.notes.taken())?;
    report.extend_from_slice(verified.out.taken())
}
