//! Reading a whole file.

ghost use Rattle.std.specs.Prelude.{◌≡◌, ◌≤◌, ◌<◌, ◌^◌, ◌+◌, ℕ, List, true, false, length, vec_len, OnOk, IfOk, IfErr, MatchResult};
ghost use Rattle.mat_judge.specs.{
  declared.reading.Unread.TheVariants.{Fault, Memory},
  WholeFiles.{WasRead, NotRead, NotTaken, GoesOn, IsAtEnd},
};

use mat_shelf::{Failed, Shelf};
use std::alloc::{AllocError, Global};
use thiserror::Error;

/// Why a file was not read.
#[derive(Clone, Copy, Debug, Error)]
pub enum Unread {
    /// It could not be opened or read.
    #[error("the file could not be opened or read")]
    Fault,
    /// It has more bytes than the limit.
    #[error("the file is too long")]
    TooLong,
    /// There was not enough memory.
    #[error("memory ran out")]
    Memory,
}

impl From<Failed> for Unread {
    ghost from_gives = { λ _ e. e ≡ Fault };

    fn from(_failed: Failed) -> Unread {
        Unread::Fault
    }
}

impl From<AllocError> for Unread {
    ghost from_gives = { λ _ e. e ≡ Memory };

    fn from(_error: AllocError) -> Unread {
        Unread::Memory
    }
}

// The most bytes that one read asks for.
const PIECE: usize = 65_536;

// A buffer of as many bytes.
fn buffer_of(alloc: Global, count: usize) -> Result<Vec<u8>, AllocError>
    ensures { IfOk result (λ v. vec_len v ≡ count) }
{
    vec![in alloc; 0; count]
}

// One read, whose bytes are added: false at the end of the file.
fn read_some<F: Shelf>(
    files: &mut F,
    name: &str,
    into: &mut [u8],
    bytes: &mut Vec<u8>,
) -> Result<bool, Unread>
    requires reading { F.reading files.old name.now }
    requires some { 0 < length into.old }
    ensures held { (other : List ℕ) → F.held files.new other ≡ F.held files.old other }
    ensures grows { (other : List ℕ) → F.faults files.old other ≤ F.faults files.new other }
    ensures reading { F.reading files.new name.now }
    ensures left { OnOk result (GoesOn (F.left files.old) bytes.old.items bytes.new.items (F.left files.new)) }
    ensures more { IfOk result (λ more. more ≡ true
        → (vec_len bytes.old < vec_len bytes.new) × (vec_len bytes.new ≤ vec_len bytes.old + length into.old)) }
    ensures end { IfOk result (λ more. more ≡ false → (bytes.new.items ≡ bytes.old.items) × IsAtEnd (F.left files.old)) }
    ensures cause { IfErr result (λ e. NotTaken (F.faults files.old name.now) (F.faults files.new name.now) e) }
{
    let count = files.read(name, into)?;
    bytes.extend_from_slice(&into[..count])?;
    Ok(count > 0)
}

/// All bytes of a file that has at most as many as the limit, which is below 2^32. `TooLong` comes once one byte more was read, and then no
/// more is; `Fault` comes only where the count of faults of the file rose, and `Memory` is want of memory.
pub fn read_all<F: Shelf>(
    alloc: Global,
    files: &mut F,
    name: &str,
    limit: usize,
) -> Result<Vec<u8>, Unread>
    requires { limit < 2 ^ 32 }
    ensures held { (other : List ℕ) → F.held files.new other ≡ F.held files.old other }
    ensures grows { (other : List ℕ) → F.faults files.old other ≤ F.faults files.new other }
    ensures read { MatchResult result (λ v. WasRead (F.held files.old name.now) limit v.items)
        (λ e. NotRead (F.held files.old name.now) limit (F.left files.new) (F.faults files.old name.now) (F.faults files.new name.now) e) }
{
    files.open(name)?;
    let mut bytes = Vec::new(alloc);
    let mut buffer = buffer_of(alloc, PIECE)?;
    while bytes.len() <= limit {
        let piece = (limit + 1 - bytes.len()).min(PIECE);
        match read_some(files, name, &mut buffer[..piece], &mut bytes) {
            Err(e) => return Err(e),
            Ok(false) => return Ok(bytes),
            Ok(true) => {}
        }
    }
    Err(Unread::TooLong)
}
