//! Why the reading of a text ends.

ghost use Rattle.std.specs.Prelude.{◌≡◌};
ghost use Rattle.mat_words.specs.{
  Reading.{refusal_by},
  declared.refusal.{ReadingFault.{ReadingFault}, Refusal.TheVariants.{Fault, Memory}},
};

use crate::numbers::NumberFault;
use std::alloc::{AllocError, AllocFailed};
use std::fmt::Debug;
use thiserror::Error;

/// What is wrong with a line.
#[derive(Clone, Copy, Debug, PartialEq, Eq)]
pub enum ReadingFault {
    /// A line is needed, and no byte 10 is left.
    EndsEarly,
    /// The line isn't well spaced: a byte outside `32..=126`, or a space that doesn't stand alone between two words.
    BadByte,
    /// A needed word is missing. So it is on an empty line.
    NoWord,
    /// The first word isn't the one that is needed.
    UnknownWord,
    /// A word isn't the number or the weight that is needed.
    Number(NumberFault),
}

/// The fault at which a reading ends, or want of memory.
#[derive(Debug, Drop, Error)]
pub enum Refusal<K: Debug> {
    /// The fault, with the number of its line, counted from 1.
    #[error("line {line}: {kind:?}")]
    Fault {
        /// What is wrong.
        kind: K,
        /// The number of the line.
        line: u32,
    },
    /// Memory ran out.
    #[error("memory ran out")]
    Memory,
}

/// What a format calls the faults that any text may have.
pub trait FaultKind: Debug {
    /// The kind of a fault.
    ghost kind_of: { ReadingFault → Self };

    /// The kind of this fault.
    fn of_fault(fault: ReadingFault) -> Self
        ensures { result ≡ kind_of fault };
}

/// The fault of this kind in the line with this number.
pub fn fault<K: Debug>(kind: K, line: u32) -> Refusal<K>
    ensures { result ≡ Fault kind line }
{
    Refusal::Fault { kind, line }
}

impl<K: FaultKind> From<Refusal<ReadingFault>> for Refusal<K> {
    ghost from_gives = { λ refusal e. e ≡ refusal_by K.kind_of refusal };

    fn from(refusal: Refusal<ReadingFault>) -> Refusal<K> {
        match refusal {
            Refusal::Fault { kind, line } => fault(K::of_fault(kind), line),
            Refusal::Memory => Refusal::Memory,
        }
    }
}

impl<K: Debug> From<AllocError> for Refusal<K> {
    ghost from_gives = { λ _ e. e ≡ Memory };

    fn from(_error: AllocError) -> Refusal<K> {
        Refusal::Memory
    }
}

impl<K: Debug, T: Drop> From<AllocFailed<T>> for Refusal<K> {
    ghost from_gives = { λ _ e. e ≡ Memory };

    fn from(_error: AllocFailed<T>) -> Refusal<K> {
        Refusal::Memory
    }
}
