//! Why a text is no certificate.

ghost use Rattle.std.specs.Prelude.{◌≡◌};
ghost use Rattle.mat_cert.specs.{Faults.{kind_of}, Kinds.{kind_number, kind_name}};

use mat_words::{FaultKind, NumberFault, ReadingFault, Refusal};

/// What is wrong with a line.
#[derive(Clone, Copy, Debug, PartialEq, Eq)]
pub enum CertKind {
    /// The line isn't well spaced: a byte outside `32..=126`, or a space that doesn't stand alone between two words.
    BadByte,
    /// A word isn't one of those that may stand here.
    UnknownWord,
    /// A word isn't the spelling of a number or a weight where one is needed.
    NumberSpelling,
    /// A number, or a number of a weight, is out of its range.
    NumberRange,
    /// A member of a set isn't above the one before it.
    NotRising,
    /// The line has another number of words than it needs.
    WrongCount,
    /// A line is needed, and no byte 10 is left.
    EndsEarly,
    /// A byte stands after the line `end`.
    AfterEnd,
}

impl CertKind {
    /// The number by which a note tells the kind.
    pub fn number(self) -> u32
        ensures { result ≡ kind_number self }
    {
        match self {
            CertKind::BadByte => 1,
            CertKind::UnknownWord => 2,
            CertKind::NumberSpelling => 3,
            CertKind::NumberRange => 4,
            CertKind::NotRising => 5,
            CertKind::WrongCount => 6,
            CertKind::EndsEarly => 7,
            CertKind::AfterEnd => 8,
        }
    }

    /// The name by which a note tells the kind.
    pub fn name(self) -> &'static str
        ensures { result.now ≡ kind_name self }
    {
        match self {
            CertKind::BadByte => "BadByte",
            CertKind::UnknownWord => "UnknownWord",
            CertKind::NumberSpelling => "NumberSpelling",
            CertKind::NumberRange => "NumberRange",
            CertKind::NotRising => "NotRising",
            CertKind::WrongCount => "WrongCount",
            CertKind::EndsEarly => "EndsEarly",
            CertKind::AfterEnd => "AfterEnd",
        }
    }
}

/// The first fault of a text that spells no answer, or want of memory.
pub type CertRefusal = Refusal<CertKind>;

impl FaultKind for CertKind {
    ghost kind_of = { kind_of };

    fn of_fault(fault: ReadingFault) -> CertKind {
        match fault {
            ReadingFault::EndsEarly => CertKind::EndsEarly,
            ReadingFault::BadByte => CertKind::BadByte,
            ReadingFault::NoWord => CertKind::WrongCount,
            ReadingFault::UnknownWord => CertKind::UnknownWord,
            ReadingFault::Number(NumberFault::Spelling) => CertKind::NumberSpelling,
            ReadingFault::Number(NumberFault::Range) => CertKind::NumberRange,
        }
    }
}
